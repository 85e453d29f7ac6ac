//! The faults of a stripe that wait, with a count that bounds those whose protected page has left.
//!
//! While that count is zero, each fault for a protected page can be served, and no fault is stale but in a closing region.
ghost use Rattle.std.specs.Prelude.{◌≡◌, [], length, IsSome, Some, None, IsErr, OnOk, OnErr, IfOk, ◌↔◌, ◌≤◌, ◌<◌};
ghost use Rattle.fault_queue.specs.Queues.{pending_why, without, AreOnce};
ghost use Rattle.stripe_core.specs.InsideWaiting.{raised, with_lost, dropped};

use fault_queue::{FaultQueue, QueueFull};
use page_base::{Key, OutOfMemory, Why};
use std::alloc::Global;
use std::marker::Model;

/// The queue, and the count.
#[derive(Drop)]
pub(crate) struct WaitingFaults {
    faults: FaultQueue,
    lost: u32,
}

impl Model for WaitingFaults {
    ghost use Rattle.stripe_core.specs.InsideWaiting.{WaitingSeen};

    ghost Value = { WaitingSeen };

    ghost view = { λ w. record { raises = w.faults.raises; capacity = w.faults.capacity; lost = w.lost } };
}

impl WaitingFaults {
    /// No faults, with room for so many.
    pub(crate) fn new(alloc: Global, capacity: u32) -> Result<WaitingFaults, OutOfMemory>
        requires some { 1 ≤ capacity }
        ensures empty { IfOk result (λ w. w.raises ≡ []) }
        ensures capacity { IfOk result (λ w. w.capacity ≡ capacity) }
    {
        let faults = FaultQueue::new(alloc, capacity)?;
        Ok(WaitingFaults { faults, lost: 0 })
    }

    pub(crate) fn raise(&mut self, key: Key, why: Why) -> Result<(), QueueFull>
        requires fresh { pending_why self.old.raises key ≡ None }
        ensures ok { OnOk result (self.new ≡ raised self.old key why) }
        ensures room { OnOk result (length self.old.raises < self.old.capacity) }
        ensures full { IsErr result ↔ (length self.old.raises ≡ self.old.capacity) }
        ensures err { OnErr result (self.new ≡ self.old) }
    {
        self.faults.raise(key, why)
    }

    pub(crate) fn withdraw(&mut self, key: Key) -> Why
        requires pending { IsSome (pending_why self.old.raises key) }
        ensures why { pending_why self.old.raises key ≡ Some result }
        ensures others { self.new ≡ record self.old { raises = without key self.old.raises } }
    {
        self.faults.withdraw(key)
    }

    /// Withdraws a fault, and counts one less where it was for a protected page and `guarded` says that its page isn't.
    pub(crate) fn drop_out(&mut self, key: Key, guarded: bool)
        requires pending { IsSome (pending_why self.old.raises key) }
        ensures exact { self.new ≡ dropped self.old key guarded }
    {
        let why = self.faults.withdraw(key);
        if matches!(why, Why::Protected) && !guarded {
            self.lost = self.lost.saturating_sub(1);
        }
    }

    /// Counts one more where the page, which leaves, waits to be opened.
    pub(crate) fn lose(&mut self, key: Key)
        ensures exact { self.new ≡ with_lost self.old key }
        ensures once { AreOnce self.old.raises }
    {
        self.faults.sound();
        if matches!(self.faults.pending(key), Some(Why::Protected))
            && self.lost < self.faults.len()
        {
            self.lost += 1;
        }
    }

    pub(crate) fn pending(&self, key: Key) -> Option<Why>
        ensures exact { result ≡ pending_why self.now.raises key }
    {
        self.faults.pending(key)
    }

    pub(crate) fn lost(&self) -> u32
        ensures exact { result ≡ self.now.lost }
    {
        self.lost
    }

    /// The queue itself, to be searched.
    pub(crate) fn faults(&self) -> &FaultQueue
        ensures raises { result.now.raises ≡ self.now.raises }
    {
        &self.faults
    }
}
