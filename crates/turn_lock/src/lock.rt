//! The lock, and how it is made.
ghost use Rattle.std.specs.Prelude.{◌≡◌, ◌^◌, ◌<◌, ◌≤◌, [], IfOk, IfErr, OnOk};
ghost use Rattle.turn_lock.specs.Seen.{first_pass};
ghost use Rattle.turn_lock.specs.Faults.{IsRefusedFor};

use crate::faults::NewFault;
use crate::pass::{Pass, Seated};
use crate::rule::Turns;
use crate::stands::Stands;
use crate::view::{Terms, View};
use atomic_table::{Refused, Table};
use std::alloc::Global;
use std::marker::Model;
use std::snapshot::Snapshot;
use std::sync::atomic::AtomicU64;

/// The most passes of one lock.
pub const MOST_SEATS: u32 = 1_048_576;

/// A lock over one `T`. Contracts see which lock it is, the value that it was made with, and its limits.
#[derive(Drop)]
pub struct TurnLock<T: Stands> {
    pub(crate) table: Table<Option<T>, View<T, T::Entry>, Terms<T>, Turns<T>, Global>,
    pub(crate) terms: Terms<T>,
    /// How many holds sleep until their turn.
    pub(crate) sleepers: AtomicU64,
}

impl<T: Stands> Model for TurnLock<T> {
    ghost use Rattle.turn_lock.specs.Seen.{LockSeen};

    ghost Value = { LockSeen T };

    ghost use Rattle.std.specs.Prelude.{◌≡◌};
    ghost use Rattle.turn_lock.specs.Fields.{lock_seen};

    ghost view = { λ l. lock_seen l.table.shared.table_id l.table.shared.key };

    ghost invariant = { λ l. (l.table.shared.key ≡ l.terms) × (l.table.shared.table_id.words ≡ 2) × (l.table.shared.table_id.slots ≡ 1) };
}

impl<T: Stands> TurnLock<T> {
    /// A lock over `value` for so many passes, each of so many holds, and its first pass.
    pub fn new(
        alloc: Global,
        value: T,
        seats: u32,
        holds: u64,
    ) -> Result<(TurnLock<T>, Pass<T>), NewFault<T>>
        requires seats { 1 ≤ seats }
        requires holds { (2 ≤ holds) × (holds ≤ 2 ^ 40) }
        requires stands { T.stands [] value }
        ensures ok { OnOk result (seats ≤ MOST_SEATS) }
        ensures refused { IfErr result (IsRefusedFor value (MOST_SEATS < seats)) }
        ensures lock { IfOk result (λ r. (r.0.origin ≡ value) × (r.0.seats ≡ seats) × (r.0.holds ≡ holds)) }
        ensures pass { IfOk result (λ r. r.1 ≡ first_pass r.0) }
    {
        if seats > MOST_SEATS {
            return Err(NewFault::TooManySeats { value });
        }
        let terms = Terms {
            origin: Snapshot::of(&value),
            seats,
            holds,
        };
        let mut slots = match Vec::with_capacity(alloc, 1) {
            Ok(slots) => slots,
            Err(_) => return Err(NewFault::OutOfMemory { value }),
        };
        slots.push_reserved(Some(value));
        match Table::new(alloc, &[0, 0], slots, &terms) {
            Ok((table, seat)) => {
                let pass = Seated {
                    seat,
                    terms: Snapshot::of(&terms),
                    number: 0,
                    spare: seats - 1,
                    out: 0,
                    left: holds,
                };
                let lock = TurnLock {
                    table,
                    terms,
                    sleepers: AtomicU64::new(0),
                };
                Ok((lock, pass))
            }
            Err(Refused { mut slots }) => {
                let Some(Some(value)) = slots.pop() else {
                    unreachable!()
                };
                slots.destroy_empty();
                Err(NewFault::OutOfMemory { value })
            }
        }
    }
}
