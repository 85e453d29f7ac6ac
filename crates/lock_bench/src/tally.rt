//! The locked value: a struct of one box, which counts the entries of its history.
ghost use Rattle.std.specs.Prelude.{◌≡◌, ◌+◌, ◌^◌, ◌<◌};

use turn_lock::{NoteFor, Stands};

/// As large as the core of a pager is.
#[derive(Drop)]
pub struct Counts {
    pub visits: u64,
    pub others: [u64; 63],
}

#[derive(Drop)]
pub struct Tally {
    pub counts: Box<Counts>,
}

impl Tally {
    /// Counts one more visit, of fewer than 2^62.
    pub fn visit(&mut self)
        requires { self.old.counts.value.visits < 2 ^ 62 }
        ensures { self.new.counts.value.visits ≡ self.old.counts.value.visits + 1 }
    {
        self.counts.visits += 1;
    }
}

impl Stands for Tally {
    ghost use Rattle.std.specs.Prelude.{◌≡◌, length};

    type Entry = ();

    type Fixed = ();

    ghost stands = { λ h t. t.counts.value.visits ≡ length h };

    ghost fixed = { λ t. tt };
}

/// That a thread was there.
pub struct Visit;

impl NoteFor<Tally> for Visit {
    ghost entry = { λ v. tt };
}
