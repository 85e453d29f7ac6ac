//! What the table's rule knows: the lock's terms, and one view for each pass.
//!
//! Only proofs have values of `View`, `Ended` and `Turn`. The rule over them is in `specs/InsideRule.antt`.
use std::collections::LinkedList;
use std::snapshot::Snapshot;

/// What a lock is told once: the value that it was made with, and how many passes and holds there may be.
#[derive(Drop)]
pub struct Terms<T> {
    pub origin: Snapshot<T>,
    /// Passes, the first one among them.
    pub seats: u32,
    /// Holds of one pass.
    pub holds: u64,
}

/// A pass that was folded back: its number, the entries that it made, the newest first, its holds, and
/// the history that it had seen.
pub struct Ended<E> {
    pub number: u32,
    pub mine: LinkedList<E>,
    pub holds: u64,
    pub seen: LinkedList<(u32, E)>,
}

/// Where a pass is: in no hold, waiting with a ticket, or in a hold by a ticket.
pub enum Turn {
    Out,
    Waits(u64),
    Inside(u64),
}

/// What is known of one pass. One that was folded back isn't live.
pub struct View<T, E> {
    pub live: bool,
    pub terms: Option<Terms<T>>,
    pub number: u32,
    /// Passes that it may still split off.
    pub spare: u32,
    /// Holds that it made.
    pub holds: u64,
    /// The history that it has seen, what it had seen of it before another pass was last folded in, and its own entries.
    pub seen: LinkedList<(u32, E)>,
    pub before: LinkedList<(u32, E)>,
    pub mine: LinkedList<E>,
    pub ended: LinkedList<Ended<E>>,
    pub turn: Turn,
}
