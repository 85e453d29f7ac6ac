//! What a stripe answers of itself.
ghost use Rattle.std.specs.Prelude.{◌≡◌, ◌+◌, ◌^◌, ◌<◌};
ghost use Rattle.page_model.specs.Entries.{entry_of};
ghost use Rattle.page_model.specs.Tallies.{no_counts, counted};

use crate::note::Note;
use page_base::Key;

/// What a stripe does next for its pending faults.
#[derive(Clone, Copy, Debug, PartialEq, Eq)]
pub enum Next {
    /// Withdraw the fault of this page.
    Drop(Key),
    /// Lift the write protection of this page.
    Open(Key),
    /// Read this page in.
    Read(Key),
    /// A read waits for a free frame alone.
    Room,
    /// No fault can be served now.
    Nothing,
}

/// A resident page that is picked out, and whether it has to be written back before it leaves.
#[derive(Clone, Copy, Debug, PartialEq, Eq)]
pub struct Pick {
    pub key: Key,
    pub dirty: bool,
}

/// How many pages were read in, written back and evicted, and how many store calls failed.
#[derive(Clone, Copy, Debug, PartialEq, Eq)]
pub struct Counts {
    pub fills: u64,
    pub writes: u64,
    pub evictions: u64,
    pub faults: u64,
}

impl Counts {
    /// The counts of no entry.
    pub fn none() -> Counts
        ensures { result ≡ no_counts }
    {
        Counts {
            fills: 0,
            writes: 0,
            evictions: 0,
            faults: 0,
        }
    }

    /// Counts one entry more.
    pub fn add(&mut self, note: &Note<'_>)
        requires fills { self.old.fills < 2 ^ 62 }
        requires writes { self.old.writes < 2 ^ 62 }
        requires evictions { self.old.evictions < 2 ^ 62 }
        requires faults { self.old.faults < 2 ^ 62 }
        ensures { self.new ≡ counted (entry_of note.now) self.old }
    {
        match note {
            Note::Filled { .. } => self.fills += 1,
            Note::Written { .. } => self.writes += 1,
            Note::Evicted { .. } => self.evictions += 1,
            Note::ReadFailed { .. } | Note::WriteFailed { .. } => self.faults += 1,
            _ => {}
        }
    }
}
