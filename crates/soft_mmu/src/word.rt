//! One word of a leaf: the entry of a page in eight bytes.
//!
//! Bits 0 to 31 are the frame, bit 32 says present, bit 33 protected, bit 34 dirty; the word of an absent page is 0. Contracts
//! see the entry, so nothing outside this file knows the bits.
ghost use Rattle.std.specs.Prelude.{◌≡◌};

use crate::entry::PageEntry;
use std::marker::Model;

const PRESENT: u64 = 1 << 32;

const PROTECTED: u64 = 1 << 33;

const DIRTY: u64 = 1 << 34;

const FRAME: u64 = u32::MAX as u64;

/// The entry of one page.
#[derive(Clone, Copy, Drop)]
pub(crate) struct Word(u64);

impl Model for Word {
    ghost use Rattle.soft_mmu.specs.declared.entry.PageEntry.{PageEntry};
    ghost use Rattle.soft_mmu.specs.InsideWords.{decoded, encoded, IsEncoded};
    ghost use Rattle.std.proofs.Common.{ap};

    ghost Value = { PageEntry };

    ghost view = { λ w. decoded w.0 };

    ghost invariant = { λ w. IsEncoded w.0 };

    ghost inverse = { λ e. record { 0 = encoded e } };

    ghost inverse_ok = { λ w h i. record { 0 = h i } };
}

// The table keeps eight bytes a page.
const _: () = prove!(size_of::<Word>() == 8);

impl Word {
    /// The word of an entry.
    pub(crate) fn of(entry: PageEntry) -> Word
        ensures { result ≡ entry }
    {
        match entry {
            PageEntry::Absent => Word(0),
            PageEntry::Present {
                protected,
                dirty,
                frame,
            } => {
                let protected = if protected { PROTECTED } else { 0 };
                let dirty = if dirty { DIRTY } else { 0 };
                Word(PRESENT | protected | dirty | u64::from(frame))
            }
        }
    }

    /// The entry of a word.
    pub(crate) fn entry(self) -> PageEntry
        ensures { result ≡ self }
    {
        if self.0 & PRESENT == 0 {
            return PageEntry::Absent;
        }
        PageEntry::Present {
            protected: self.0 & PROTECTED != 0,
            dirty: self.0 & DIRTY != 0,
            frame: (self.0 & FRAME) as u32,
        }
    }
}
