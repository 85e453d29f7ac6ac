//! Journals: what is told of a stripe's entries, one by one, and keeps them or not.
ghost use Rattle.std.specs.Prelude.{◌≡◌};
ghost use Rattle.histories.specs.Histories.{History};
ghost use Rattle.page_model.specs.declared.entry.Entry.{Entry};
ghost use Rattle.page_model.specs.Entries.{entry_of};
ghost use Rattle.page_model.specs.Journals.{NotesOnTop};

use crate::note::Note;

/// A journal is told each entry with its owner, in the order of the history.
pub trait Journal {
    /// What it was made with, which no entry changes.
    type Made;

    /// It has noted exactly these entries.
    ghost has_noted: { Self → History Entry → Type 0 };

    ghost made_with: { Self → Self.Made };

    /// Notes one more entry, made by this owner, on top of those that it has noted.
    fn note(&mut self, owner: u32, note: &Note<'_>)
        ensures noted { NotesOnTop has_noted owner (entry_of note.now) self.old self.new }
        ensures made { made_with self.new ≡ made_with self.old };
}

/// The journal that keeps nothing. It may stand for any history.
#[derive(Clone, Copy)]
pub struct NoJournal;

impl Journal for NoJournal {
    type Made = ();

    ghost has_noted = { λ j h. Unit {0} };

    ghost made_with = { λ j. record {} };

    fn note(&mut self, owner: u32, note: &Note<'_>) {}
}
