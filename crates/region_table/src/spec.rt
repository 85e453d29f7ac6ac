//! What a region is asked to be, and why it can't be had.
use page_base::{Bytes, OutOfMemory};
use thiserror::Error;

/// Where a region's pages lie.
#[derive(Debug, Drop)]
pub enum Kind {
    /// In memory, all zeros at first.
    Memory,
    /// In the first bytes of one file.
    File { path: Bytes },
    /// In files of `file` bytes each, in the folder `path`.
    Sparse { path: Bytes, file: u64 },
}

/// A region: its name, where its pages lie, its length in bytes, and whether it may be stored to.
#[derive(Debug, Drop)]
pub struct RegionSpec {
    pub name: Bytes,
    pub kind: Kind,
    pub length: u64,
    pub writable: bool,
}

/// Why a region can't be added. The variants stand in the order in which the rules are tested.
#[derive(Clone, Copy, Debug, PartialEq, Eq, Error)]
pub enum RegionFault {
    /// An earlier region has this name.
    #[error("same name")]
    SameName,
    /// An earlier region has the same path, or one of the two lies in the other's folder.
    #[error("same store")]
    SameStore,
    /// The length, or that of one file, isn't made of whole pages, or the files don't fit the length.
    #[error("bad length")]
    BadLength,
    /// All regions together would have `pages` pages, which is above `MOST_PAGES`.
    #[error("too many pages")]
    TooManyPages { pages: u64 },
    #[error("out of memory")]
    OutOfMemory,
}

impl From<OutOfMemory> for RegionFault {
    ghost use Rattle.std.specs.Prelude.{◌≡◌};
    ghost use Rattle.region_table.specs.declared.spec.RegionFault.TheVariants.{OutOfMemory};

    ghost from_gives = { λ _ fault. fault ≡ OutOfMemory };

    fn from(_fault: OutOfMemory) -> RegionFault {
        RegionFault::OutOfMemory
    }
}
