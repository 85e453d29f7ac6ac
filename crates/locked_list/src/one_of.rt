//! A hold of one of many locks, kept together with its owner's passes of all of them.
ghost use Rattle.std.specs.Prelude.{◌≡◌, ◌∷◌, ◌<◌, ◌↔◌, length, slice_get, Some, IfOk, IsErr, OnErr};
ghost use Rattle.std.specs.Option.{IfSome};
ghost use Rattle.locked_list.specs.Passes.{IsSetAt, HoldsAt};
ghost use Rattle.turn_lock.specs.Seen.{IsPassOf, IsInHold, holding, given, left_off};

use std::sync::Wait;
use turn_lock::{Lent, NoteFor, Pass, PassSpent, Seated, Stands, TurnLock};

/// The passes of one owner, of many locks.
#[derive(Drop)]
pub struct Passes<T, E> {
    pub passes: Vec<Seated<T, E>>,
}

/// One owner's hold of one of its locks, with all the owner's passes. It can't be let go.
pub struct OneOf<'a, T: Stands, E> {
    lock: &'a TurnLock<T>,
    passes: &'a mut Passes<T, E>,
    at: usize,
    lent: Lent<T, E>,
    ghost there: { slice_get passes.now.passes.items at ≡ Some lent },
    ghost held: { IsInHold lock.now lent },
}

// A hold whose pass goes back to its owner while it is in it.
fn lend<T: Stands, R: Wait>(
    rt: &R,
    lock: &TurnLock<T>,
    pass: &mut Pass<T>,
) -> Result<(T, Lent<T, T::Entry>), PassSpent>
    requires own { IsPassOf lock.now pass.old }
    ensures spent { IsErr result ↔ (pass.old.holds ≡ lock.now.holds) }
    ensures err { OnErr result (pass.new ≡ pass.old) }
    ensures stands { IfOk result (λ r. T.stands r.1.seen r.0) }
    ensures fixed { IfOk result (λ r. T.fixed r.0 ≡ T.fixed lock.now.origin) }
    ensures pass { IfOk result (λ r. r.1 ≡ holding pass.old r.1.seen) }
    ensures lent { IfOk result (λ r. pass.new ≡ r.1) }
{
    match lock.hold(rt, pass) {
        Ok((value, held)) => {
            let (back, lent) = held.lend();
            let _ = back;
            Ok((value, lent))
        }
        Err(spent) => Err(spent.fault()),
    }
}

// The end of such a hold, with no entry.
fn leave_off<T: Stands>(lock: &TurnLock<T>, pass: &mut Pass<T>, lent: Lent<T, T::Entry>, value: T)
    requires held { IsInHold lock.now pass.old }
    requires lent { lent ≡ pass.old }
    requires stands { T.stands pass.old.seen value }
    requires fixed { T.fixed value ≡ T.fixed lock.now.origin }
    ensures { pass.new ≡ left_off pass.old }
{
    lock.resume(pass, lent).leave(value);
}

// The end of such a hold, with an entry.
fn put_back<T: Stands, N: NoteFor<T>>(
    lock: &TurnLock<T>,
    pass: &mut Pass<T>,
    lent: Lent<T, T::Entry>,
    value: T,
    note: &N,
)
    requires held { IsInHold lock.now pass.old }
    requires lent { lent ≡ pass.old }
    requires stands { T.stands ((pass.old.number, N.entry note.now) ∷ pass.old.seen) value }
    requires fixed { T.fixed value ≡ T.fixed lock.now.origin }
    ensures { pass.new ≡ given pass.old (N.entry note.now) }
{
    lock.resume(pass, lent).give(value, note);
}

/// Holds a lock by the owner's pass at `at`, hands its value out, and keeps all passes. It answers PassSpent where that pass
/// has no hold left.
pub fn hold_one<'a, T: Stands, R: Wait>(
    rt: &R,
    lock: &'a TurnLock<T>,
    passes: &'a mut Passes<T, T::Entry>,
    at: usize,
) -> Result<(T, OneOf<'a, T, T::Entry>), PassSpent>
    requires at { at < length passes.old.passes.items }
    requires own { IfSome (slice_get passes.old.passes.items at) (λ p. IsPassOf lock.now p) }
    ensures spent { IsErr result ↔ IfSome (slice_get passes.old.passes.items at) (λ p. p.holds ≡ lock.now.holds) }
    ensures stands { IfOk result (λ r. T.stands r.1.lent.seen r.0) }
    ensures fixed { IfOk result (λ r. T.fixed r.0 ≡ T.fixed lock.now.origin) }
    ensures lock { IfOk result (λ r. r.1.lock.now ≡ lock.now) }
    ensures reference { IfOk result (λ r. r.1.passes.ghost_name ≡ passes.entry.ghost_name) }
    ensures pass { IfOk result (λ r. HoldsAt passes.old.passes.items at r.1.lent) }
    ensures others { IfOk result (λ r. IsSetAt passes.old.passes.items at r.1.lent r.1.passes.now.passes.items) }
{
    let (value, lent) = lend(rt, lock, &mut passes.passes[at])?;
    let one = OneOf {
        lock,
        passes,
        at,
        lent,
    };
    Ok((value, one))
}

impl<'a, T: Stands> OneOf<'a, T, T::Entry> {
    /// Puts the value back with one entry more, and hands the passes back.
    pub fn give<N: NoteFor<T>>(self, value: T, note: &N) -> &'a mut Passes<T, T::Entry>
        requires stands { T.stands ((self.lent.number, N.entry note.now) ∷ self.lent.seen) value }
        requires fixed { T.fixed value ≡ T.fixed self.lock.now.origin }
        ensures reference { result.ghost_name ≡ self.entry.passes.ghost_name }
        ensures passes { IsSetAt self.entry.passes.now.passes.items self.entry.at
            (given self.entry.lent (N.entry note.now)) result.now.passes.items }
    {
        let OneOf {
            lock,
            passes,
            at,
            lent,
        } = self;
        put_back(lock, &mut passes.passes[at], lent, value, note);
        passes
    }
    /// Puts the value back with no entry, and hands the passes back.
    pub fn leave(self, value: T) -> &'a mut Passes<T, T::Entry>
        requires stands { T.stands self.lent.seen value }
        requires fixed { T.fixed value ≡ T.fixed self.lock.now.origin }
        ensures reference { result.ghost_name ≡ self.entry.passes.ghost_name }
        ensures passes { IsSetAt self.entry.passes.now.passes.items self.entry.at
            (left_off self.entry.lent) result.now.passes.items }
    {
        let OneOf {
            lock,
            passes,
            at,
            lent,
        } = self;
        leave_off(lock, &mut passes.passes[at], lent, value);
        passes
    }
}
