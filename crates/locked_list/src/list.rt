//! The list, whose history is itself.
ghost use Rattle.std.specs.Prelude.{◌≡◌};

use std::collections::VecDeque;
use turn_lock::{NoteFor, Stands};

/// What a list is kept beside. No entry changes it.
pub trait Shelf {
    ghost use Rattle.std.specs.Prelude.{ℕ};

    ghost label_of: { Self → ℕ };

    /// The label, which is the same as long as the shelf is there.
    fn label(&self) -> u64
        ensures { result ≡ label_of self.now };
}

/// Numbers, each with the pass that added it, the newest first.
#[derive(Drop)]
pub struct Lines<S: Shelf> {
    pub shelf: S,
    pub label: u64,
    pub items: VecDeque<(u32, u64)>,
    pub ghost labelled: { S.label_of shelf ≡ label },
}

impl<S: Shelf> Stands for Lines<S> {
    ghost use Rattle.std.specs.Prelude.{◌≡◌};

    type Entry = u64;

    type Fixed = u64;

    ghost stands = { λ h x. x.items.items ≡ h };

    ghost fixed = { λ x. x.label };
}

/// That a number was added.
#[derive(Clone, Copy)]
pub struct Noted {
    pub number: u64,
}

impl<S: Shelf> NoteFor<Lines<S>> for Noted {
    ghost entry = { λ n. n.number };
}
