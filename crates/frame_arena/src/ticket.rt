//! Which frame a frame is. Each has one ticket of its arena's book, and no two have the same.
ghost use Rattle.std.specs.Prelude.{◌≡◌, ℕ, List, drop};
ghost use Rattle.frame_arena.specs.InsideOwnership.{first_right};

use std::marker::Model;

/// One ticket of a book. It takes no memory.
#[derive(Drop)]
pub(crate) struct Ticket {
    ghost names: { List ℕ },
    ghost number: { ℕ },
}

impl Model for Ticket {
    ghost also_owns = { λ ticket. first_right (drop ticket.number ticket.names) };
}

unsafe impl Send for Ticket {}

impl Ticket {
    /// Two tickets of one book have different numbers.
    pub(crate) fn differ(self, other: Ticket) -> (Ticket, Ticket)
        requires { self.names ≡ other.names }
        ensures { (self.number ≡ other.number → ⊥)
            × (result.0.names ≡ self.names) × (result.0.number ≡ self.number)
            × (result.1.names ≡ other.names) × (result.1.number ≡ other.number) }
    {
        let Ticket {} = self;
        let Ticket {} = other;
        (Ticket {}, Ticket {})
    }
}
