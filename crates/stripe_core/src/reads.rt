//! Reads: a page's lane goes out for it, and comes back with its bytes or with a fault.
ghost use Rattle.std.specs.Prelude.{◌≡◌, ◌<◌, ◌+◌, ◌^◌, true, false, length, slice_get, Some, nat_le, ◌||◌};
ghost use Rattle.histories.specs.Histories.{History};
ghost use Rattle.page_base.specs.Lanes.{Rose};
ghost use Rattle.page_model.specs.declared.entry.Entry.{Entry};
ghost use Rattle.page_model.specs.declared.entry.Entry.TheVariants as entry;
ghost use Rattle.page_model.specs.declared.seen.Next.TheVariants as serve;
ghost use Rattle.page_model.specs.Core.{next};
ghost use Rattle.page_model.specs.Faults.{is_write, last_why};
ghost use Rattle.stripe_core.specs.declared.region.Region.{Region};
ghost use Rattle.stripe_core.specs.InsideSteps.{HasReadFault, FailsAt};
ghost use Rattle.stripe_core.specs.Standing.{StandsAfter, OpensRead, HasOpenRead, EndsRead};
ghost use Rattle.page_model.specs.Core as core;
ghost use Rattle.page_model.specs.Readers.{IsHere, LaneHas};
ghost use Rattle.page_model.specs.Setups.{has_page};
ghost use Rattle.page_model.specs.Stands.{StandsFor};
ghost use Rattle.page_model.specs.Steps as step;
ghost use Rattle.page_model.specs.Trips.{SameLane, HoldsPage};

use crate::region::{Lane, Region, swap_lane};
use crate::stripe::Stripe;
use crate::trip::Trip;
use page_base::{Key, Why};
use page_model::events::{
    filled_stands, read_failed_stands, service_knows, start_read_stands, starts_open, whys_agree,
};
use std::mem;
use std::snapshot::Snapshot;
use store_trait::Store;

// The steps, by the data that they leave.
impl<S: Store> Stripe<S> {
    fn start_step(&mut self, key: Key) -> Trip<S>
        requires few { self.old.events < 2 ^ 62 }
        requires page { has_page self.old.setup key ≡ true }
        requires absent { core.is_present self.old key ≡ false }
        requires pending { core.is_pending self.old key ≡ true }
        requires free { 0 < core.free_frames self.old }
        requires home { core.is_home self.old key.region ≡ true }
        ensures step { self.new ≡ step.start_read self.old key }
        ensures key { result.start.key ≡ key }
        ensures at { result.start.at ≡ self.old.events }
        ensures here { IsHere self.old key.region result.start.taken }
        ensures lane { result.lane ≡ result.start.taken }
    {
        let free = self.buffer.free();
        prove!(free > 0);
        let why = self.queue.withdraw(key);
        let frame = self.buffer.reserve(key);
        let at = self.events;
        let out = Lane::Reading {
            key,
            at,
            why,
            frame,
        };
        let lane = swap_lane(&mut self.regions, key.region, out).into_home();
        self.events += 1;
        let taken = Snapshot::of(&lane);
        Trip {
            key,
            at,
            lane,
            taken,
        }
    }

    fn fill_step(&mut self, key: Key, lane: S, bytes: &[u8]) -> Why
        requires few { self.old.events < 2 ^ 62 }
        requires page { has_page self.old.setup key ≡ true }
        requires absent { core.is_present self.old key ≡ false }
        requires reading { core.is_reading self.old key ≡ true }
        requires size { length bytes.now ≡ self.old.setup.page_size }
        ensures step { self.new ≡ step.filled self.old key bytes.now (S.seen lane) }
        ensures why { result ≡ core.why_out self.old key }
    {
        let read = swap_lane(&mut self.regions, key.region, Lane::Home(lane)).into_read(key);
        let writes = is_write(read.why);
        self.buffer.fill(read.frame, bytes, !writes);
        self.table.install(key, read.frame, !writes, writes);
        self.evicting = evicts(self.buffer.resident(), self.marks.on, self.evicting);
        self.counts.fills += 1;
        self.events += 1;
        read.why
    }

    fn fail_step(&mut self, key: Key, lane: S)
        requires few { self.old.events < 2 ^ 62 }
        requires page { has_page self.old.setup key ≡ true }
        requires reading { core.is_reading self.old key ≡ true }
        ensures step { self.new ≡ step.read_failed self.old key (S.seen lane) (S.seen lane).count }
        ensures small { (S.seen lane).count < 2 ^ 64 }
    {
        let faults = lane.faults();
        let read = fail_read(&mut self.regions, key, lane, faults).into_read(key);
        self.buffer.unreserve(read.frame);
        self.counts.faults += 1;
        self.events += 1;
    }
}

/// The fault was raised for a store.
fn is_write(why: Why) -> bool
    ensures exact { result ≡ is_write why }
{
    match why {
        Why::Write => true,
        Why::Read | Why::Protected | Why::Ahead => false,
    }
}

/// A stripe with as many resident pages evicts: from the high mark on, and where it did so before.
fn evicts(resident: u32, high_mark: u32, before: bool) -> bool
    ensures exact { result ≡ (nat_le high_mark resident || before) }
{
    resident >= high_mark || before
}

/// Puts a lane whose read of a page failed home, with the number of the fault, and hands out what was in its place.
fn fail_read<S>(regions: &mut Vec<Region<S>>, key: Key, lane: S, faults: u64) -> Lane<S>
    requires region { key.region < length regions.old.items }
    requires page { HasReadFault regions.old.items key }
    ensures regions { FailsAt regions.old.items key lane faults regions.new.items }
    ensures lane { (g : Region S) → slice_get regions.old.items key.region ≡ Some g → result ≡ g.lane }
{
    let region = &mut regions[key.region as usize];
    region.read_faults.set(key.page, faults);
    mem::replace(&mut region.lane, Lane::Home(lane))
}

// The events, by the history that the stripe stands for.
impl<S: Store> Stripe<S> {
    /// Takes the lane out, to read in the page of the first fault that can be served.
    pub fn start_read(&mut self) -> Trip<S>
        requires few { self.old.events < 2 ^ 62 }
        requires stands { (h : History Entry) × StandsFor h self.old }
        requires next { (k : Key) × (next self.old ≡ serve.Read k) }
        ensures next { next self.old ≡ serve.Read result.start.key }
        ensures step { self.new ≡ step.start_read self.old result.start.key }
        ensures fixed { self.new.setup ≡ self.old.setup }
        ensures page { has_page self.old.setup result.start.key ≡ true }
        ensures at { result.start.at ≡ self.old.events }
        ensures here { IsHere self.old result.start.key.region result.start.taken }
        ensures lane { result.lane ≡ result.start.taken }
        ensures serves { LaneHas self.old.setup result.start.key result.lane }
        ensures stands { StandsAfter (entry.StartRead result.start.key) self.old self.new }
        ensures open_read { OpensRead self.old result.start }
    {
        service_knows();
        start_read_stands();
        starts_open();
        let key = self.next_read();
        self.start_step(key)
    }

    /// Ends a read well: the page is resident, the newest, with these bytes. It is open to stores and dirty where it was
    /// raised to be stored to, else protected and clean. It answers why the page was raised.
    pub fn filled(&mut self, trip: Trip<S>, bytes: &[u8]) -> Why
        requires few { self.old.events < 2 ^ 62 }
        requires open_read { HasOpenRead self.old trip.start }
        requires same { SameLane trip.start.taken trip.lane }
        requires size { length bytes.now ≡ self.old.setup.page_size }
        requires holds { HoldsPage trip.start.taken trip.start.key.page bytes.now }
        ensures why { (h : History Entry) → StandsFor h self.old → result ≡ last_why h trip.start.key }
        ensures step { self.new ≡ step.filled self.old trip.start.key bytes.now trip.lane }
        ensures fixed { self.new.setup ≡ self.old.setup }
        ensures stands { EndsRead trip.start (entry.Filled trip.start.key) self.old self.new }
    {
        service_knows();
        whys_agree();
        filled_stands();
        let Trip {
            key,
            at: _,
            lane,
            taken: _,
        } = trip;
        self.fill_step(key, lane, bytes)
    }

    /// Ends a read that failed: the page is missing as before, its fault is served, and the lane's count is its read fault.
    pub fn read_failed(&mut self, trip: Trip<S>)
        requires few { self.old.events < 2 ^ 62 }
        requires open_read { HasOpenRead self.old trip.start }
        requires same { SameLane trip.start.taken trip.lane }
        requires rose { Rose trip.start.taken.count trip.lane.count }
        ensures step { self.new ≡ step.read_failed self.old trip.start.key trip.lane trip.lane.count }
        ensures fixed { self.new.setup ≡ self.old.setup }
        ensures stands { EndsRead trip.start (entry.ReadFailed trip.start.key trip.lane.count) self.old self.new }
    {
        service_knows();
        read_failed_stands();
        let Trip {
            key,
            at: _,
            lane,
            taken: _,
        } = trip;
        self.fail_step(key, lane);
    }
}
