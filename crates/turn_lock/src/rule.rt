//! The rule of the lock's table, and what each kind of atomic step tells the pass that makes it.
//!
//! The table has two words, the next ticket and the ticket that is served, and one slot, which has the value while nobody
//! is in a hold. Each step keeps the rule `Kept` of `specs/InsideRule.antt`; a new kind of step needs a lemma that says so.
use crate::stands::Stands;
use crate::view::{Terms, View};
use atomic_table::{Join, Play, Seat, Shared, Split, Table, TableRule};
use std::alloc::Global;
use std::marker::{Brand, PhantomData};

/// The word with the next ticket.
pub(crate) const TICKETS: usize = 0;

/// The word with the ticket that is served.
pub(crate) const SERVING: usize = 1;

pub struct Turns<T> {
    marker: PhantomData<T>,
}

impl<T: Stands> TableRule<Option<T>, View<T, T::Entry>, Terms<T>> for Turns<T> {
    ghost use Rattle.turn_lock.specs.InsideRule.{Kept};
    ghost use Rattle.turn_lock.specs.InsideViews.{opened};

    ghost holds = { Kept T.stands T.fixed };

    ghost first = { opened };
}

/// The table with its memory, the same as all passes share it, and a pass's seat at it.
pub(crate) type TurnTable<T> = Table<
    Option<T>,
    View<T, <T as Stands>::Entry>,
    Terms<T>,
    Turns<T>,
    Global,
>;

pub(crate) type Turnstile<T> = Shared<Option<T>, View<T, <T as Stands>::Entry>, Terms<T>, Turns<T>>;

pub(crate) type TurnSeat<T> = Seat<Option<T>, View<T, <T as Stands>::Entry>>;

/// Draws a ticket.
pub struct Draw;

impl<T, E> Play<Option<T>, View<T, E>> for Draw {
    ghost use Rattle.turn_lock.specs.InsidePlays.{drew};

    ghost then = { drew };
}

/// Looks which ticket is served, and takes the value where it is the pass's own.
pub struct Look<T> {
    marker: PhantomData<T>,
}

impl<T: Stands> Play<Option<T>, View<T, T::Entry>> for Look<T> {
    ghost use Rattle.turn_lock.specs.InsidePlays.{looked};

    ghost then = { looked T.stands T.fixed };
}

/// The entries that a step adds. The call that makes the step picks them.
pub trait Choice<E> {
    ghost use Rattle.std.specs.Prelude.{List};

    ghost entries: { List E };
}

impl<E> Choice<E> for Brand {
    ghost use Rattle.std.specs.Prelude.{[]};

    ghost entries = { [] };
}

/// Gives the value back with these entries, and serves the next ticket.
pub struct Give<G> {
    marker: PhantomData<G>,
}

impl<T, E, G: Choice<E>> Play<Option<T>, View<T, E>> for Give<G> {
    ghost use Rattle.turn_lock.specs.InsidePlays.{gave};

    ghost then = { gave G.entries };
}

/// Splits a pass off the first one, and folds one back into it.
pub struct Part;

impl<T, E> Split<View<T, E>> for Part {
    ghost use Rattle.turn_lock.specs.InsideViews.{less_spare, new_view};

    ghost left = { less_spare };

    ghost right = { new_view };
}

impl<T, E> Join<View<T, E>> for Part {
    ghost use Rattle.turn_lock.specs.InsideViews.{folded_view, spent_view};

    ghost both = { folded_view };

    ghost spent = { spent_view };
}

/// Changes nothing, and tells a pass what the rule says of it.
pub struct Learn;

impl<T, E> Play<Option<T>, View<T, E>> for Learn {
    ghost use Rattle.turn_lock.specs.InsidePlays.{learned};

    ghost then = { learned };
}
