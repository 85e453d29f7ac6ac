//! The entry of one page, and what an access finds there.
//!
//! A page that isn't present has no bits and no frame. Protection and dirtiness change apart from each other but in
//! `opened`, since a page that is open to stores has to count as newer than the store.
ghost use Rattle.std.specs.Prelude.{◌≡◌};

/// The entry of one page: absent, or present in a frame with its bits.
#[derive(Clone, Copy, Debug, PartialEq, Eq)]
pub enum PageEntry {
    Absent,
    Present {
        protected: bool,
        dirty: bool,
        frame: u32,
    },
}

/// The bits of a page. All are false where it isn't present.
#[derive(Clone, Copy, Debug, PartialEq, Eq)]
pub struct Bits {
    pub present: bool,
    pub protected: bool,
    pub dirty: bool,
}

/// What an access is for.
#[derive(Clone, Copy, Debug, PartialEq, Eq)]
pub enum Wants {
    Read,
    Write,
}

/// What an access finds: the frame of the page, or the fault that it has to raise.
#[derive(Clone, Copy, Debug, PartialEq, Eq)]
pub enum Found {
    Hit(u32),
    Missing,
    Protected,
}

impl PageEntry {
    ghost use Rattle.soft_mmu.specs.Entries.{translation, bits_of, is_present, is_dirty, closed, opened, cleaned};

    /// What an access of the page finds.
    pub(crate) fn translate(self, wants: Wants) -> Found
        ensures { result ≡ translation self wants }
    {
        match self {
            PageEntry::Absent => Found::Missing,
            PageEntry::Present {
                protected: true,
                ..
            } if wants == Wants::Write => Found::Protected,
            PageEntry::Present { frame, .. } => Found::Hit(frame),
        }
    }

    /// The bits of the page.
    pub(crate) fn bits(self) -> Bits
        ensures { result ≡ bits_of self }
    {
        match self {
            PageEntry::Absent => Bits {
                present: false,
                protected: false,
                dirty: false,
            },
            PageEntry::Present {
                protected,
                dirty,
                ..
            } => Bits {
                present: true,
                protected,
                dirty,
            },
        }
    }

    /// The page is in memory.
    pub(crate) fn is_present(self) -> bool
        ensures { result ≡ is_present self }
    {
        self.bits().present
    }

    /// The page is in memory, and newer there than in the store.
    pub(crate) fn is_dirty(self) -> bool
        ensures { result ≡ is_dirty self }
    {
        self.bits().dirty
    }

    /// The entry, protected.
    pub(crate) fn closed(self) -> PageEntry
        ensures { result ≡ closed self }
    {
        match self {
            PageEntry::Absent => PageEntry::Absent,
            PageEntry::Present { dirty, frame, .. } => PageEntry::Present {
                protected: true,
                dirty,
                frame,
            },
        }
    }

    /// The entry, open to stores and dirty.
    pub(crate) fn opened(self) -> PageEntry
        ensures { result ≡ opened self }
    {
        match self {
            PageEntry::Absent => PageEntry::Absent,
            PageEntry::Present { frame, .. } => PageEntry::Present {
                protected: false,
                dirty: true,
                frame,
            },
        }
    }

    /// The entry, clean.
    pub(crate) fn cleaned(self) -> PageEntry
        ensures { result ≡ cleaned self }
    {
        match self {
            PageEntry::Absent => PageEntry::Absent,
            PageEntry::Present {
                protected,
                frame,
                ..
            } => PageEntry::Present {
                protected,
                dirty: false,
                frame,
            },
        }
    }
}
