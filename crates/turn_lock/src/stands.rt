//! What proofs know of a value under a lock, and of a note of what was done to it.
ghost use Rattle.histories.specs.Histories.{History};

/// A value that stands for a history: what was done to it so far, by whom, the newest first.
pub trait Stands {
    /// What one hold may do.
    type Entry;

    /// What no entry changes.
    type Fixed;

    // The value stands for this history.
    ghost stands: { History Self.Entry → Self → Type 0 };

    // Plain data of the value that no entry changes.
    ghost fixed: { Self → Self.Fixed };
}

/// A note of what was done to a `T` in one hold: one entry.
pub trait NoteFor<T: Stands> {
    ghost entry: { Self → T.Entry };
}
