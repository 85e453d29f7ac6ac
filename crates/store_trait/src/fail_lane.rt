//! A lane that fails at stated calls, to try what is written on stores.
ghost use Rattle.std.specs.Prelude.{◌≡◌, ◌-◌, ◌^◌, min, length, true, OnOk};
ghost use Rattle.store_trait.specs.FailLanes.{is_listed, one_more, fresh_lane, fail_seen, read_is_listed, write_is_listed, read_more, written_more, FailsWhereListed};
ghost use Rattle.store_trait.specs.Lanes.{IsPlace, GivesPageAt, TakesPageAt, ChangesOnlyAt, HasLaneCause};

use crate::{Store, StoreFault};
use page_base::List;
use std::marker::Model;

/// A lane whose reads and writes fail at stated numbers. Both are counted from 1, each on its own. A call that is listed
/// changes nothing of the lane inside; any other call is that lane's.
#[derive(Drop)]
pub struct FailLane<S> {
    inner: S,
    failing_reads: List<u64>,
    failing_writes: List<u64>,
    reads: u64,
    writes: u64,
    failed: u64,
}

impl<S> Model for FailLane<S> {
    ghost use Rattle.store_trait.specs.FailLanes.{FailSeen};

    ghost Value = { FailSeen S };

    ghost view = { λ l. record { inner = l.inner; failing_reads = l.failing_reads.items; failing_writes = l.failing_writes.items; reads = l.reads; writes = l.writes; failed = l.failed } };
}

// Whether the number is on the list.
fn lists(list: &List<u64>, number: u64) -> bool
    ensures { result ≡ is_listed number list.now.items }
{
    list.as_slice().contains(&number)
}

impl<S: Store> FailLane<S> {
    /// Neither list needs an order.
    pub fn new(inner: S, failing_reads: List<u64>, failing_writes: List<u64>) -> FailLane<S>
        ensures lane { result ≡ fresh_lane inner failing_reads.items failing_writes.items }
        ensures origin { (⟦<FailLane<S> as Store>⟧.seen result).origin ≡ (S.seen inner).origin }
        ensures told { (⟦<FailLane<S> as Store>⟧.seen result).told ≡ (S.seen inner).told }
        ensures count { (⟦<FailLane<S> as Store>⟧.seen result).count ≡ min (S.seen inner).count (2 ^ 64 - 1) }
    {
        FailLane {
            inner,
            failing_reads,
            failing_writes,
            reads: 0,
            writes: 0,
            failed: 0,
        }
    }

    /// Counts one more failed call.
    fn fail(&mut self) -> StoreFault
        ensures counted { self.new ≡ record self.old { failed = one_more self.old.failed } }
        ensures carried { result.faults ≡ (fail_seen S.seen self.new).count }
    {
        self.failed = self.failed.saturating_add(1);
        StoreFault {
            faults: self.faults(),
        }
    }
}

impl<S: Store> Store for FailLane<S> {
    ghost use Rattle.std.specs.Prelude.{◌+◌};
    ghost use Rattle.store_trait.specs.FailLanes.{fail_seen};
    ghost use Rattle.store_trait.specs.SmallCounts.{capped_is_small};

    ghost seen = { fail_seen S.seen };

    fn read_from_store(&mut self, buf: &mut [u8], off: u64) -> Result<(), StoreFault>
        requires place { IsPlace (S.seen self.old.inner).origin (length buf.old) off }
        ensures bytes { OnOk result (GivesPageAt (S.seen self.old.inner) off buf.new) }
        ensures same { (S.seen self.new.inner).told ≡ (S.seen self.old.inner).told }
        ensures origin { (S.seen self.new.inner).origin ≡ (S.seen self.old.inner).origin }
        ensures cause { HasLaneCause (fail_seen S.seen self.old) (fail_seen S.seen self.new) result }
        ensures lists { self.new ≡ read_more self.old self.new }
        ensures listed { FailsWhereListed S.seen (read_is_listed self.old self.new) self.old self.new result }
        ensures not_read { read_is_listed self.old self.new ≡ true → buf.new ≡ buf.old }
    {
        self.reads = self.reads.saturating_add(1);
        if lists(&self.failing_reads, self.reads) {
            return Err(self.fail());
        }
        match self.inner.read_from_store(buf, off) {
            Ok(()) => Ok(()),
            Err(_) => Err(StoreFault {
                faults: self.faults(),
            }),
        }
    }

    fn write_to_store(&mut self, buf: &[u8], off: u64) -> Result<(), StoreFault>
        requires place { IsPlace (S.seen self.old.inner).origin (length buf.now) off }
        ensures written { OnOk result (TakesPageAt (S.seen self.old.inner) (S.seen self.new.inner) off buf.now) }
        ensures others { ChangesOnlyAt (S.seen self.old.inner) (S.seen self.new.inner) off }
        ensures origin { (S.seen self.new.inner).origin ≡ (S.seen self.old.inner).origin }
        ensures cause { HasLaneCause (fail_seen S.seen self.old) (fail_seen S.seen self.new) result }
        ensures lists { self.new ≡ written_more self.old self.new }
        ensures listed { FailsWhereListed S.seen (write_is_listed self.old self.new) self.old self.new result }
    {
        self.writes = self.writes.saturating_add(1);
        if lists(&self.failing_writes, self.writes) {
            return Err(self.fail());
        }
        match self.inner.write_to_store(buf, off) {
            Ok(()) => Ok(()),
            Err(_) => Err(StoreFault {
                faults: self.faults(),
            }),
        }
    }

    fn faults(&self) -> u64 {
        self.failed.saturating_add(self.inner.faults())
    }

    ghost whole_pages = { λ s page. S.whole_pages s.inner page };

    ghost small_count = { λ s. capped_is_small (s.failed + (S.seen s.inner).count) };
}
