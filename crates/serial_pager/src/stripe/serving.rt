//! The services of a stripe, one for each kind of what may be next. Each makes its entries and leaves every lane home.
ghost use Rattle.std.specs.Prelude.{◌≡◌, ◌+◌, ◌≤◌, ◌<◌, ◌^◌, ◌⊎◌, [], ◌∷◌, true, false, length, OnOk, IfErr};
ghost use Rattle.page_base.specs.declared.keys.Key.{Key};
ghost use Rattle.page_base.specs.declared.keys.Why.{Why};
ghost use Rattle.page_model.specs.declared.entry.Entry.TheVariants as entry;
ghost use Rattle.page_model.specs.declared.entry.Cause.TheVariants.{Pressure};
ghost use Rattle.page_model.specs.declared.seen.Next.TheVariants as serve;
ghost use Rattle.page_model.specs.Core.{is_closing, next};
ghost use Rattle.page_model.specs.Events.{CanRaiseFor, CanStartWrite, CanEvict};
ghost use Rattle.page_model.specs.Setups.{has_page};
ghost use Rattle.page_model.specs.Steps as step;
ghost use Rattle.serial_pager.specs.Goings.{Went};
ghost use Rattle.serial_pager.specs.InsideGoings.{WentServing, WentRaising, WentServingAny, ServiceFails, ReadsIn, FailsToReadIn, WritesOut, FailsToWriteOut};
ghost use Rattle.serial_pager.specs.Rests.{IsAtRest};
ghost use Rattle.serial_pager.specs.InsideServices.{Drops, Opens, Fills, Misses, Writes, FailsToWrite, Cleans, Evicts, Raises, Serves};

use crate::fault::PageFault;
use crate::laws::model_laws;
use crate::stripe::SerialStripe;
use page_base::{Key, Why};
use page_model::events::picks_know;
use page_model::{Cause, Journal, Next, Note};
use store_trait::Store;
use stripe_core::Raise;

impl<S: Store, J: Journal> SerialStripe<S, J> {
    /// Lets a page wait, unless it waits already or no further one may.
    pub(crate) fn raise(&mut self, key: Key, why: Why)
        requires rest { IsAtRest self.old.core }
        requires few { self.old.core.events < 2 ^ 62 }
        requires page { has_page self.old.core.setup key ≡ true }
        requires not_closing { is_closing self.old.core key.region ≡ false }
        requires fits { CanRaiseFor self.old.core key why }
        ensures rest { IsAtRest self.new.core }
        ensures made { J.made_with self.new.journal ≡ J.made_with self.old.journal }
        ensures waits { 0 < length self.new.core.queue }
        ensures steps { Raises key why self.old.core self.new.core }
        ensures went { WentRaising 0 J.has_noted key why self.old self.new }
    {
        model_laws();
        match self.stripe.raise(key, why) {
            Raise::Raised => self.journal.note(0, &Note::Raised { key, why }),
            Raise::Pending | Raise::QueueFull => {}
        }
    }

    /// Serves one fault that waits, or makes room for it. Where a read of page `key` fails, or a write, that is the answer.
    pub(crate) fn serve(&mut self, scratch: &mut [u8], key: Key) -> Result<(), PageFault>
        requires rest { IsAtRest self.old.core }
        requires few { self.old.core.events + 2 ≤ 2 ^ 62 }
        requires scratch { length scratch.old ≡ self.old.core.setup.page_size }
        requires waits { 0 < length self.old.core.queue }
        ensures rest { IsAtRest self.new.core }
        ensures made { J.made_with self.new.journal ≡ J.made_with self.old.journal }
        ensures steps { OnOk result (Serves key self.old.core self.new.core) }
        ensures went { OnOk result (WentServing 0 J.has_noted key self.old self.new) }
        ensures few { self.new.core.events ≤ self.old.core.events + 2 }
        ensures ends { IfErr result (ServiceFails 0 J.has_noted key self.old self.new) }
    {
        model_laws();
        match self.stripe.next() {
            Next::Drop(_) => {
                self.drop_raise();
                Ok(())
            }
            Next::Open(_) => {
                self.open_page();
                Ok(())
            }
            Next::Read(_) => self.read_for(scratch, key),
            Next::Room => self.make_room(scratch),
            Next::Nothing => unreachable!(),
        }
    }

    /// Drops the stale fault that is next.
    pub(crate) fn drop_raise(&mut self)
        requires rest { IsAtRest self.old.core }
        requires few { self.old.core.events < 2 ^ 62 }
        requires next { (k : Key) × (next self.old.core ≡ serve.Drop k) }
        ensures rest { IsAtRest self.new.core }
        ensures made { J.made_with self.new.journal ≡ J.made_with self.old.journal }
        ensures steps { Drops self.old.core self.new.core }
        ensures went { (k : Key) × Went 0 J.has_noted (entry.Dropped k ∷ []) self.old self.new }
    {
        let key = self.stripe.drop_raise();
        self.journal.note(0, &Note::Dropped { key });
    }

    fn open_page(&mut self)
        requires rest { IsAtRest self.old.core }
        requires few { self.old.core.events < 2 ^ 62 }
        requires next { (k : Key) × (next self.old.core ≡ serve.Open k) }
        ensures rest { IsAtRest self.new.core }
        ensures made { J.made_with self.new.journal ≡ J.made_with self.old.journal }
        ensures steps { Opens self.old.core self.new.core }
        ensures went { (k : Key) × Went 0 J.has_noted (entry.Opened k ∷ []) self.old self.new }
    {
        let key = self.stripe.open_page();
        self.journal.note(0, &Note::Opened { key });
    }

    /// Reads in the page that is next. A fault of another page than `key` is nobody's now.
    fn read_for(&mut self, scratch: &mut [u8], key: Key) -> Result<(), PageFault>
        requires rest { IsAtRest self.old.core }
        requires few { self.old.core.events + 2 ≤ 2 ^ 62 }
        requires scratch { length scratch.old ≡ self.old.core.setup.page_size }
        requires next { (k : Key) × (next self.old.core ≡ serve.Read k) }
        ensures rest { IsAtRest self.new.core }
        ensures made { J.made_with self.new.journal ≡ J.made_with self.old.journal }
        ensures steps { OnOk result (Serves key self.old.core self.new.core) }
        ensures went { OnOk result (WentServing 0 J.has_noted key self.old self.new) }
        ensures few { self.new.core.events ≤ self.old.core.events + 2 }
        ensures ends { IfErr result (ServiceFails 0 J.has_noted key self.old self.new) }
    {
        match self.read_in(scratch) {
            Err(fault) if fault.key == key => Err(fault),
            _ => Ok(()),
        }
    }

    /// Reads in the page that is next.
    fn read_in(&mut self, scratch: &mut [u8]) -> Result<(), PageFault>
        requires rest { IsAtRest self.old.core }
        requires few { self.old.core.events + 2 ≤ 2 ^ 62 }
        requires scratch { length scratch.old ≡ self.old.core.setup.page_size }
        requires next { (k : Key) × (next self.old.core ≡ serve.Read k) }
        ensures rest { IsAtRest self.new.core }
        ensures made { J.made_with self.new.journal ≡ J.made_with self.old.journal }
        ensures steps { OnOk result (Fills self.old.core self.new.core) }
        ensures went { OnOk result (ReadsIn 0 J.has_noted self.old self.new) }
        ensures few { self.new.core.events ≤ self.old.core.events + 2 }
        ensures fault { IfErr result (Misses self.old.core self.new.core) }
        ensures ends { IfErr result (FailsToReadIn 0 J.has_noted self.old self.new) }
    {
        model_laws();
        let mut trip = self.stripe.start_read();
        let key = trip.key();
        self.journal.note(0, &Note::StartRead { key });
        let place = u64::from(key.page) * scratch.len() as u64;
        match trip.lane().read_from_store(scratch, place) {
            Ok(()) => {
                self.stripe.filled(trip, scratch);
                self.journal.note(0, &Note::Filled { key });
                Ok(())
            }
            Err(_) => {
                let faults = trip.faults();
                self.stripe.read_failed(trip);
                self.journal.note(0, &Note::ReadFailed { key, n: faults });
                Err(PageFault { key, faults })
            }
        }
    }

    /// Makes room for a read: writes the pick back where it is dirty, else evicts it.
    fn make_room(&mut self, scratch: &mut [u8]) -> Result<(), PageFault>
        requires rest { IsAtRest self.old.core }
        requires few { self.old.core.events + 2 ≤ 2 ^ 62 }
        requires scratch { length scratch.old ≡ self.old.core.setup.page_size }
        requires waits { 0 < length self.old.core.queue }
        requires next { next self.old.core ≡ serve.Room }
        ensures rest { IsAtRest self.new.core }
        ensures made { J.made_with self.new.journal ≡ J.made_with self.old.journal }
        ensures steps { OnOk result (Cleans self.old.core self.new.core ⊎ Evicts self.old.core self.new.core) }
        ensures went { OnOk result (WentServingAny 0 J.has_noted self.old self.new) }
        ensures few { self.new.core.events ≤ self.old.core.events + 2 }
        ensures ends { IfErr result (λ f. FailsToWriteOut 0 J.has_noted f.key Pressure self.old self.new f) }
    {
        model_laws();
        picks_know();
        match self.stripe.pick() {
            Some(pick) if pick.dirty => self.write_out(scratch, pick.key, Cause::Pressure),
            Some(pick) => {
                self.evict(pick.key, Cause::Pressure);
                Ok(())
            }
            None => unreachable!(),
        }
    }

    /// Writes a dirty page back.
    pub(crate) fn write_out(
        &mut self,
        scratch: &mut [u8],
        key: Key,
        why: Cause,
    ) -> Result<(), PageFault>
        requires rest { IsAtRest self.old.core }
        requires few { self.old.core.events + 2 ≤ 2 ^ 62 }
        requires scratch { length scratch.old ≡ self.old.core.setup.page_size }
        requires page { has_page self.old.core.setup key ≡ true }
        requires can { CanStartWrite self.old.core key why }
        ensures rest { IsAtRest self.new.core }
        ensures made { J.made_with self.new.journal ≡ J.made_with self.old.journal }
        ensures steps { OnOk result (Writes key self.old.core self.new.core) }
        ensures went { OnOk result (WritesOut 0 J.has_noted key why self.old self.new) }
        ensures few { self.new.core.events ≤ self.old.core.events + 2 }
        ensures fault { IfErr result (FailsToWrite key self.old.core self.new.core) }
        ensures ends { IfErr result (FailsToWriteOut 0 J.has_noted key why self.old self.new) }
    {
        model_laws();
        let mut trip = self.stripe.start_write(key, why, scratch);
        self.journal.note(0, &Note::StartWrite { key, why });
        let at = trip.at();
        let place = u64::from(key.page) * scratch.len() as u64;
        match trip.lane().write_to_store(scratch, place) {
            Ok(()) => {
                self.stripe.written(trip, scratch);
                self.journal.note(
                    0,
                    &Note::Written {
                        key,
                        at,
                        bytes: scratch,
                    },
                );
                Ok(())
            }
            Err(_) => {
                let faults = trip.faults();
                self.stripe.write_failed(trip);
                self.journal.note(0, &Note::WriteFailed { key, n: faults });
                Err(PageFault { key, faults })
            }
        }
    }

    /// Lets a clean page leave.
    pub(crate) fn evict(&mut self, key: Key, why: Cause)
        requires rest { IsAtRest self.old.core }
        requires few { self.old.core.events < 2 ^ 62 }
        requires page { has_page self.old.core.setup key ≡ true }
        requires can { CanEvict self.old.core key why }
        ensures rest { IsAtRest self.new.core }
        ensures made { J.made_with self.new.journal ≡ J.made_with self.old.journal }
        ensures step { self.new.core ≡ step.evict self.old.core key }
        ensures went { Went 0 J.has_noted (entry.Evicted key why ∷ []) self.old self.new }
    {
        self.stripe.evict(key, why);
        self.journal.note(0, &Note::Evicted { key, why });
    }
}
