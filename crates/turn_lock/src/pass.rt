//! A pass: the right to hold a lock so many times, and what its owner knows of the lock's history.
ghost use Rattle.std.specs.Prelude.{◌≡◌, ◌+◌, ◌<◌, IfOk, IsErr, OnErr, OnOk, IsTrue, ◌↔◌};
ghost use Rattle.histories.specs.Histories.{calls_of, GoesOn};
ghost use Rattle.turn_lock.specs.Seen.{IsPassOf, HaveTheirParts, newcomer, split_once, folded};

use crate::faults::NoSpare;
use crate::laws::history_laws;
use crate::lock::TurnLock;
use crate::rule::{Learn, Part, TICKETS};
use crate::stands::Stands;
use crate::view::{Terms, View};
use atomic_table::Seat;
use std::marker::Model;
use std::snapshot::Snapshot;

/// A pass of a lock over values `T`.
pub type Pass<T> = Seated<T, <T as Stands>::Entry>;

/// A pass of a lock over values `T` with entries `E`. Letting it go is harmless, but the first pass is then never alone.
/// While a hold of it is lent it has to be kept: the `Lent` is of use with this pass alone.
#[derive(Drop)]
pub struct Seated<T, E> {
    pub(crate) seat: Seat<Option<T>, View<T, E>>,
    pub(crate) terms: Snapshot<Terms<T>>,
    pub(crate) number: u32,
    pub(crate) spare: u32,
    pub(crate) out: u32,
    pub(crate) left: u64,
}

impl<T, E> Model for Seated<T, E> {
    ghost use Rattle.turn_lock.specs.Seen.{PassSeen};

    ghost Value = { PassSeen T E };

    ghost use Rattle.turn_lock.specs.Fields.{pass_seen};
    ghost use Rattle.turn_lock.specs.InsideFields.{IsSound};

    ghost view = { λ p. pass_seen p.seat.table_id p.terms.value p.out p.seat.me.0 };

    ghost invariant = { λ p. IsSound p.seat.me p.terms.value p.number p.spare p.out p.left };
}

impl<T, E> Seated<T, E> {
    /// The holds that it may still make.
    pub fn left(&self) -> u64
        ensures { result + self.now.holds ≡ self.now.lock.holds }
    {
        self.left
    }

    /// The further passes that it may split off.
    pub fn spare(&self) -> u32
        ensures { result ≡ self.now.spare }
    {
        self.spare
    }

    /// Its number, by which the history names its entries; 0 is the first pass's.
    pub fn number(&self) -> u32
        ensures { result ≡ self.now.number }
    {
        self.number
    }

    /// Whether every pass that it split off was folded back.
    pub fn alone(&self) -> bool
        ensures { IsTrue result ↔ (self.now.out ≡ 0) }
    {
        self.out == 0
    }

    /// A law: its own entries in what it has seen are those that it made.
    pub fn calls_are_mine(&self)
        ensures { calls_of self.now.number self.now.seen ≡ self.now.mine }
    {
        let _ = &self.number;
    }
}

impl<T: Stands> Seated<T, T::Entry> {
    /// A further pass, which has seen as much.
    pub fn split(&mut self, lock: &TurnLock<T>) -> Result<Pass<T>, NoSpare>
        requires own { IsPassOf lock.now self.old }
        ensures none { IsErr result ↔ (self.old.spare ≡ 0) }
        ensures err { OnErr result (self.new ≡ self.old) }
        ensures this { OnOk result (self.new ≡ split_once self.old) }
        ensures other { IfOk result (λ p. p ≡ newcomer self.old) }
    {
        if self.spare == 0 {
            return Err(NoSpare);
        }
        history_laws::<T::Entry>();
        let number = lock.terms.seats - self.spare;
        let mut seat = lock.table.shared.split_seat::<Part>(&mut self.seat);
        lock.table.shared.load::<Learn>(&mut seat, TICKETS);
        self.spare -= 1;
        self.out += 1;
        Ok(Seated {
            seat,
            terms: Snapshot::of(&lock.terms),
            number,
            spare: 0,
            out: 0,
            left: lock.terms.holds,
        })
    }

    /// Takes another pass of the lock back.
    pub fn fold(&mut self, lock: &TurnLock<T>, other: Pass<T>)
        requires own { IsPassOf lock.now self.old }
        requires first { self.old.number ≡ 0 }
        requires other { IsPassOf lock.now other }
        ensures some_out { 0 < self.old.out }
        ensures this { self.new ≡ folded self.old other }
        ensures grew { GoesOn self.old.seen self.new.seen × GoesOn other.seen self.new.seen }
        ensures parts { HaveTheirParts self.new.seen self.new.ended }
    {
        history_laws::<T::Entry>();
        let Seated {
            seat,
            terms: _,
            number: _,
            spare: _,
            out: _,
            left: _,
        } = other;
        lock.table.shared.join_seat::<Part>(&mut self.seat, seat);
        lock.table.shared.load::<Learn>(&mut self.seat, TICKETS);
        self.out -= 1;
    }
}
