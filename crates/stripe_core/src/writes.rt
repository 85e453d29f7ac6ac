//! Writes: a dirty page's lane goes out with a copy of its bytes, and comes back with them written or with a fault.
//!
//! The order is what keeps stores from being lost: the page is protected before its bytes are copied, so a store that comes
//! while the copy is on its way opens the page first, and the end of the write then leaves it dirty.
ghost use Rattle.std.specs.Prelude.{◌≡◌, ◌<◌, ◌+◌, ◌^◌, true, length};
ghost use Rattle.histories.specs.Histories.{History};
ghost use Rattle.page_base.specs.Lanes.{Rose};
ghost use Rattle.page_model.specs.declared.entry.Entry.{Entry};
ghost use Rattle.page_model.specs.declared.entry.Entry.TheVariants as entry;
ghost use Rattle.page_model.specs.Core as core;
ghost use Rattle.page_model.specs.Core.{Home, Writing};
ghost use Rattle.page_model.specs.Events.{CanStartWrite};
ghost use Rattle.page_model.specs.Readers.{IsHere, LaneHas};
ghost use Rattle.page_model.specs.Setups.{has_page};
ghost use Rattle.page_model.specs.Stands.{StandsFor};
ghost use Rattle.page_model.specs.Steps as step;
ghost use Rattle.page_model.specs.Trips.{WithPage, OtherPages};
ghost use Rattle.stripe_core.specs.Copies.{IsCopyOf};
ghost use Rattle.stripe_core.specs.InsideSteps.{page_protected, page_cleaned, lane_placed, with_event, write_counted, fault_counted};
ghost use Rattle.stripe_core.specs.Standing.{StandsAfter, OpensWrite, TakesBytes, HasTaken, HasOpenWrite, EndsWrite, EndsWritten};

use crate::region::{Lane, swap_lane};
use crate::stripe::Stripe;
use crate::trip::Trip;
use page_base::Key;
use page_model::Cause;
use page_model::events::{
    pages_show, service_knows, start_write_stands, starts_open, write_failed_stands, written_stands,
};
use soft_mmu::{Found, Wants};
use std::snapshot::Snapshot;
use store_trait::Store;

impl<S: Store> Lane<S> {
    ghost use Rattle.stripe_core.specs.Parts.{place_of};

    /// Spends what is kept of a write that was out for the page.
    fn end_write(self, page: Key)
        requires writes { core.writes (place_of S.seen self) page ≡ true }
    {
        match self {
            Lane::Writing { key: _, at: _ } => {}
            Lane::Home(_lane) => unreachable!(),
            Lane::Reading {
                key: _,
                at: _,
                why: _,
                frame: _,
            } => unreachable!(),
        }
    }
}

// The steps, by the data that they leave.
impl<S: Store> Stripe<S> {
    /// Protects a page, then copies its bytes.
    fn take_copy(&mut self, key: Key, scratch: &mut [u8])
        requires page { has_page self.old.setup key ≡ true }
        requires present { core.is_present self.old key ≡ true }
        requires size { length scratch.old ≡ self.old.setup.page_size }
        ensures step { self.new ≡ page_protected self.old key }
        ensures copy { IsCopyOf self.old key scratch.new }
    {
        let Found::Hit(frame) = self.table.translate(key, Wants::Read) else {
            unreachable!()
        };
        self.table.protect(key);
        scratch.copy_from_slice(self.buffer.bytes(frame));
    }

    /// Hands the lane of a page's region out for a write.
    fn send_lane(&mut self, key: Key) -> Trip<S>
        requires few { self.old.events < 2 ^ 62 }
        requires home { core.is_home self.old key.region ≡ true }
        ensures step { self.new ≡ with_event (lane_placed self.old key.region (Writing key self.old.events)) }
        ensures key { result.start.key ≡ key }
        ensures at { result.start.at ≡ self.old.events }
        ensures here { IsHere self.old key.region result.start.taken }
        ensures lane { result.lane ≡ result.start.taken }
    {
        let at = self.events;
        let lane = swap_lane(&mut self.regions, key.region, Lane::Writing { key, at }).into_home();
        self.events += 1;
        let taken = Snapshot::of(&lane);
        Trip {
            key,
            at,
            lane,
            taken,
        }
    }

    /// Takes the lane of a page's region back after a write.
    fn take_home(&mut self, key: Key, lane: S)
        requires writing { core.is_writing self.old key ≡ true }
        ensures step { self.new ≡ lane_placed self.old key.region (Home (S.seen lane)) }
    {
        swap_lane(&mut self.regions, key.region, Lane::Home(lane)).end_write(key);
    }

    /// Makes a page clean where it is still protected.
    fn clean(&mut self, key: Key)
        requires page { has_page self.old.setup key ≡ true }
        ensures step { self.new ≡ page_cleaned self.old key }
    {
        if !self.table.bits(key).protected {
            return;
        }
        let Found::Hit(frame) = self.table.translate(key, Wants::Read) else {
            unreachable!()
        };
        self.table.mark_clean(key);
        self.buffer.mark_clean(frame);
    }

    fn count_write(&mut self)
        requires few { self.old.events < 2 ^ 62 }
        ensures step { self.new ≡ write_counted self.old }
    {
        self.counts.writes += 1;
        self.events += 1;
    }

    fn count_fault(&mut self)
        requires few { self.old.events < 2 ^ 62 }
        ensures step { self.new ≡ fault_counted self.old }
    {
        self.counts.faults += 1;
        self.events += 1;
    }
}

// The events, by the history that the stripe stands for.
impl<S: Store> Stripe<S> {
    /// Begins to write a dirty page back: protects it, copies its bytes into `scratch`, which is one page long, and hands the
    /// lane out to write them by.
    pub fn start_write(&mut self, key: Key, why: Cause, scratch: &mut [u8]) -> Trip<S>
        requires few { self.old.events < 2 ^ 62 }
        requires page { has_page self.old.setup key ≡ true }
        requires can { CanStartWrite self.old key why }
        requires size { length scratch.old ≡ self.old.setup.page_size }
        ensures step { self.new ≡ step.start_write self.old key }
        ensures fixed { self.new.setup ≡ self.old.setup }
        ensures key { result.start.key ≡ key }
        ensures at { result.start.at ≡ self.old.events }
        ensures here { IsHere self.old key.region result.start.taken }
        ensures lane { result.lane ≡ result.start.taken }
        ensures serves { (h : History Entry) → StandsFor h self.old → LaneHas self.old.setup key result.lane }
        ensures copy { IsCopyOf self.old key scratch.new }
        ensures stands { StandsAfter (entry.StartWrite key why) self.old self.new }
        ensures open_write { OpensWrite self.old key why result.start }
        ensures taken { TakesBytes self.old key why scratch.new }
    {
        service_knows();
        start_write_stands();
        starts_open();
        pages_show();
        self.take_copy(key, scratch);
        self.send_lane(key)
    }

    /// Ends a write well: the page is clean, where it wasn't opened since the write began.
    pub fn written(&mut self, trip: Trip<S>, bytes: &[u8])
        requires few { self.old.events < 2 ^ 62 }
        requires open_write { HasTaken self.old trip.start bytes.now }
        requires wrote { WithPage trip.start.key.page bytes.now trip.start.taken trip.lane }
        ensures step { self.new ≡ step.written self.old trip.start.key trip.lane }
        ensures fixed { self.new.setup ≡ self.old.setup }
        ensures stands { EndsWritten trip.start bytes.now self.old self.new }
    {
        service_knows();
        written_stands();
        let Trip {
            key,
            at: _,
            lane,
            taken: _,
        } = trip;
        self.clean(key);
        self.take_home(key, lane);
        self.count_write();
    }

    /// Ends a write that failed: the page is dirty and resident as before.
    pub fn write_failed(&mut self, trip: Trip<S>)
        requires few { self.old.events < 2 ^ 62 }
        requires open_write { HasOpenWrite self.old trip.start }
        requires others { OtherPages trip.start.key.page trip.start.taken trip.lane }
        requires rose { Rose trip.start.taken.count trip.lane.count }
        ensures step { self.new ≡ step.write_failed self.old trip.start.key trip.lane }
        ensures fixed { self.new.setup ≡ self.old.setup }
        ensures stands { EndsWrite trip.start (entry.WriteFailed trip.start.key trip.lane.count) self.old self.new }
    {
        service_knows();
        write_failed_stands();
        let Trip {
            key,
            at: _,
            lane,
            taken: _,
        } = trip;
        self.take_home(key, lane);
        self.count_fault();
    }
}
