//! The tickets of an arena's frames that aren't torn out yet.
ghost use Rattle.std.specs.Prelude.{◌≡◌, ℕ, ◌+◌, ◌<◌, List, length, drop};
ghost use Rattle.frame_arena.specs.InsideOwnership.{rights};

use crate::ticket::Ticket;
use std::marker::Model;

/// A book of tickets, torn out by rising number. It takes no memory.
#[derive(Drop)]
pub(crate) struct Book {
    ghost names: { List ℕ },
    ghost next: { ℕ },
}

impl Model for Book {
    ghost also_owns = { λ book. rights (drop book.next book.names) };
}

unsafe impl Send for Book {}

impl Book {
    /// A book of `count` tickets.
    pub(crate) fn new(count: usize) -> Book
        ensures { (length result.names ≡ count) × (result.next ≡ 0) }
    {
        let _count = count;
        Book {}
    }

    /// The next ticket, and the book without it.
    pub(crate) fn tear(self) -> (Ticket, Book)
        requires { self.next < length self.names }
        ensures { (result.0.names ≡ self.names) × (result.0.number ≡ self.next)
            × (result.1.names ≡ self.names) × (result.1.next ≡ self.next + 1) }
    {
        let Book {} = self;
        (Ticket {}, Book {})
    }
}
