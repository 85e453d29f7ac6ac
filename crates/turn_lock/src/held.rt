//! A hold of the lock: from the turn of its ticket to the step that serves the next.
ghost use Rattle.std.specs.Prelude.{◌≡◌, ◌*◌, ◌^◌, ◌<◌, ◌∷◌, length, IfOk, IfErr, IsErr, ◌↔◌};
ghost use Rattle.histories.specs.Histories.{calls_of, GoesOn, Others};
ghost use Rattle.turn_lock.specs.Seen.{IsPassOf, IsInHold, holding, given, left_off};

use crate::faults::{Spent, SpentPass};
use crate::laws::history_laws;
use crate::lock::TurnLock;
use crate::pass::{Pass, Seated};
use crate::stands::{NoteFor, Stands};
use crate::steps::{draw, enter, finish};
use std::marker::{Brand, Model};
use std::snapshot::Snapshot;
use std::sync::Wait;

/// A hold of a lock over values `T`.
pub type Held<'a, T> = Holding<'a, T, <T as Stands>::Entry>;

/// A hold of a lock over values `T` with entries `E`: the value is out. It can't be let go: it ends by `give` or `leave`,
/// or it is lent, and then the `Lent` that comes in its place can't be let go.
pub struct Holding<'a, T: Stands, E> {
    lock: &'a TurnLock<T>,
    pass: &'a mut Seated<T, E>,
}

impl<'a, T: Stands, E> Model for Holding<'a, T, E> {
    ghost use Rattle.turn_lock.specs.Seen.{HeldSeen, IsInHold};

    ghost Value = { HeldSeen T E };

    ghost view = { λ h. record { lock = h.lock.now; pass = h.pass.now; name = h.pass.ghost_name } };

    ghost invariant = { λ h. IsInHold h.lock.now h.pass.now };
}

/// The pass of a lent hold, which is still in it. It can't be let go: `TurnLock::resume` takes it.
pub struct Lent<T, E> {
    pass: Snapshot<Seated<T, E>>,
}

impl<T, E> Model for Lent<T, E> {
    ghost use Rattle.turn_lock.specs.Seen.{PassSeen};

    ghost Value = { PassSeen T E };

    ghost view = { λ l. l.pass.value };
}

impl<T: Stands> TurnLock<T> {
    /// Waits for the pass's turn and hands the value out. It stands for the history that the pass has then seen. A pass that
    /// has made all its holds comes back as it was.
    pub fn hold<'a, R: Wait>(
        &'a self,
        rt: &R,
        pass: &'a mut Pass<T>,
    ) -> Result<(T, Held<'a, T>), Spent<'a, T>>
        requires own { IsPassOf self.now pass.old }
        ensures spent { IsErr result ↔ (pass.old.holds ≡ self.now.holds) }
        ensures as_it_was { IfErr result (λ e. (e.pass.now ≡ pass.old) × (e.pass.ghost_name ≡ pass.entry.ghost_name)) }

        // the value
        ensures stands { IfOk result (λ r. T.stands r.1.pass.seen r.0) }
        ensures fixed { IfOk result (λ r. T.fixed r.0 ≡ T.fixed self.now.origin) }

        // the history
        ensures calls { IfOk result (λ r. calls_of r.1.pass.number r.1.pass.seen ≡ r.1.pass.mine) }
        ensures seen { IfOk result (λ r. GoesOn pass.old.seen r.1.pass.seen) }
        ensures others { IfOk result (λ r. Others r.1.pass.number pass.old.seen r.1.pass.seen) }
        ensures few { IfOk result (λ r. length r.1.pass.seen < self.now.seats * self.now.holds) }
        ensures small { IfOk result (λ r. length r.1.pass.seen < 2 ^ 62) }

        // the hold
        ensures number { IfOk result (λ r. r.1.pass.number ≡ pass.old.number) }
        ensures pass { IfOk result (λ r. r.1.pass ≡ holding pass.old r.1.pass.seen) }
        ensures reference { IfOk result (λ r. r.1.name ≡ pass.entry.ghost_name) }
        ensures lock { IfOk result (λ r. r.1.lock ≡ self.now) }
        ensures held { IfOk result (λ r. IsInHold r.1.lock r.1.pass) }
    {
        if pass.left == 0 {
            return Err(SpentPass { pass });
        }
        history_laws::<T::Entry>();
        let table = &self.table.shared;
        let ticket = draw(table, &mut pass.seat);
        pass.left -= 1;
        let value = enter(rt, table, &self.sleepers, &mut pass.seat, ticket);
        Ok((value, Holding { lock: self, pass }))
    }

    /// Takes a lent hold up again.
    pub fn resume<'a>(&'a self, pass: &'a mut Pass<T>, lent: Lent<T, T::Entry>) -> Held<'a, T>
        requires held { IsInHold self.now pass.old }
        requires lent { lent ≡ pass.old }
        ensures pass { result.pass ≡ pass.old }
        ensures reference { result.name ≡ pass.entry.ghost_name }
        ensures lock { result.lock ≡ self.now }
    {
        let Lent { pass: _ } = lent;
        Holding { lock: self, pass }
    }
}

impl<'a, T: Stands> Holding<'a, T, T::Entry> {
    /// The number of its pass.
    pub fn number(&self) -> u32
        ensures { result ≡ self.now.pass.number }
    {
        self.pass.number()
    }

    /// Puts the value back with one entry of this pass more, which is what `note` says.
    pub fn give<N: NoteFor<T>>(self, value: T, note: &N) -> &'a mut Pass<T>
        requires stands { T.stands ((self.pass.number, N.entry note.now) ∷ self.pass.seen) value }
        requires fixed { T.fixed value ≡ T.fixed self.lock.origin }
        ensures reference { result.ghost_name ≡ self.entry.name }
        ensures pass { result.now ≡ given self.entry.pass (N.entry note.now) }
    {
        let Holding { lock, pass } = self;
        finish::<T, N, Brand>(
            &lock.table.shared,
            &lock.sleepers,
            &mut pass.seat,
            value,
            note,
        );
        pass
    }

    /// Puts the value back, with no entry.
    pub fn leave(self, value: T) -> &'a mut Pass<T>
        requires stands { T.stands self.pass.seen value }
        requires fixed { T.fixed value ≡ T.fixed self.lock.origin }
        ensures reference { result.ghost_name ≡ self.entry.name }
        ensures pass { result.now ≡ left_off self.entry.pass }
    {
        let Holding { lock, pass } = self;
        finish::<T, (), Brand>(
            &lock.table.shared,
            &lock.sleepers,
            &mut pass.seat,
            value,
            &(),
        );
        pass
    }

    /// Hands the pass back while it is in the hold, so that a caller may keep it with others. What comes with it takes
    /// the hold up again.
    pub fn lend(self) -> (&'a mut Pass<T>, Lent<T, T::Entry>)
        ensures reference { result.0.ghost_name ≡ self.entry.name }
        ensures pass { result.0.now ≡ self.entry.pass }
        ensures lent { result.1 ≡ self.entry.pass }
        ensures held { IsInHold self.entry.lock self.entry.pass }
    {
        let Holding { lock: _, pass } = self;
        let lent = Lent {
            pass: Snapshot::of(pass),
        };
        (pass, lent)
    }
}
