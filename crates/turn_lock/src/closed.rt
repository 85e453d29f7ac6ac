//! The end of a lock: its value, and the history that it stands for.
ghost use Rattle.std.specs.Prelude.{◌≡◌, ℕ, ◌*◌, ◌≤◌, length, List};
ghost use Rattle.std.specs.Borrow.{ftrue};
ghost use Rattle.histories.specs.Histories.{History, calls_of};
ghost use Rattle.turn_lock.specs.Seen.{IsPassOf, HaveTheirCalls, HaveTheirParts, MadeAtMost, AreNumbered, OwnersAreKnown};
ghost use Rattle.turn_lock.specs.declared.view.Ended.{Ended};

use crate::lock::TurnLock;
use crate::pass::{Pass, Seated};
use crate::stands::Stands;
use crate::steps::close_table;
use std::marker::{Model, PhantomData};

/// What a lock's passes did: the whole history, the passes that were folded into the first one, and that one's holds.
/// It has no bytes.
#[derive(Drop)]
pub struct Closed<E> {
    of: PhantomData<E>,
    pub ghost history: { History E },
    pub ghost ended: { List (Ended E) },
    pub ghost holds: { ℕ },
}

impl<E> Model for Closed<E> {
    ghost also_owns = { λ _. ftrue };
}

impl<E> Closed<E> {
    fn of_pass<T>(pass: &Seated<T, E>) -> Closed<E>
        ensures { (result.history ≡ pass.now.seen) × (result.ended ≡ pass.now.ended) × (result.holds ≡ pass.now.holds) }
    {
        let _ = pass;
        Closed { of: PhantomData }
    }
}

impl<T: Stands> TurnLock<T> {
    /// Ends the lock. Every pass that was split off has to be folded back.
    pub fn close(self, pass: Pass<T>) -> (T, Closed<T::Entry>)
        requires own { IsPassOf self pass }
        requires first { pass.number ≡ 0 }
        requires alone { pass.out ≡ 0 }

        ensures stands { T.stands result.1.history result.0 }
        ensures fixed { T.fixed result.0 ≡ T.fixed self.origin }

        ensures history { result.1.history ≡ pass.seen }
        ensures ended { result.1.ended ≡ pass.ended }
        ensures holds { result.1.holds ≡ pass.holds }

        ensures mine { calls_of 0 result.1.history ≡ pass.mine }
        ensures calls { HaveTheirCalls result.1.history result.1.ended }
        ensures parts { HaveTheirParts result.1.history result.1.ended }
        ensures made { MadeAtMost self.holds result.1.ended }
        ensures numbers { AreNumbered result.1.ended }
        ensures owners { OwnersAreKnown result.1.history result.1.ended }
        ensures few { length result.1.history ≤ self.seats * self.holds }
    {
        let closed = Closed::of_pass(&pass);
        let TurnLock {
            table,
            terms: _,
            sleepers: _,
        } = self;
        let Seated {
            seat,
            terms: _,
            number: _,
            spare: _,
            out: _,
            left: _,
        } = pass;
        (close_table(table, seat), closed)
    }
}
