//! Why a call of a sparse store is refused.
ghost use Rattle.std.specs.Prelude.{◌≡◌};

use crate::meta::BadMeta;
use file_store::FolderFault;
use page_base::OutOfMemory;
use thiserror::Error;

/// Why a store isn't created or opened. The lengths and sizes are in bytes.
#[derive(Clone, Copy, Debug, PartialEq, Eq, Error)]
pub enum SparseFault {
    /// The folder has a store already.
    #[error("exists")]
    Exists,
    /// The folder has no store.
    #[error("missing")]
    Missing,
    /// The metadata is none: `byte` is the first with which none goes on.
    #[error("bad metadata {byte}")]
    BadMeta { byte: u32 },
    /// The store's size is another, or where it isn't the length of its files is.
    #[error("size mismatch {kept} {asked}")]
    SizeMismatch { kept: u64, asked: u64 },
    #[error("too short {have} {need}")]
    TooShort { have: u64, need: u64 },
    /// A call of the folder failed. It carries the folder's count of faults after that call.
    #[error("failed {faults}")]
    Failed { faults: u64 },
    #[error("out of memory")]
    OutOfMemory,
}

impl From<FolderFault> for SparseFault {
    ghost use Rattle.sparse_store.specs.Openings.{of_folder};

    ghost from_gives = { λ folder fault. fault ≡ of_folder folder };

    fn from(fault: FolderFault) -> SparseFault {
        match fault {
            FolderFault::Missing => SparseFault::Missing,
            FolderFault::TooShort { have, need } => SparseFault::TooShort { have, need },
            FolderFault::Failed { faults } => SparseFault::Failed { faults },
            FolderFault::OutOfMemory => SparseFault::OutOfMemory,
        }
    }
}

impl From<BadMeta> for SparseFault {
    ghost use Rattle.sparse_store.specs.declared.fault.SparseFault.TheVariants.{BadMeta};

    ghost from_gives = { λ bad fault. fault ≡ BadMeta bad.byte };

    fn from(bad: BadMeta) -> SparseFault {
        SparseFault::BadMeta { byte: bad.byte }
    }
}

impl From<OutOfMemory> for SparseFault {
    ghost use Rattle.sparse_store.specs.declared.fault.SparseFault.TheVariants.{OutOfMemory};

    ghost from_gives = { λ _ fault. fault ≡ OutOfMemory };

    fn from(_: OutOfMemory) -> SparseFault {
        SparseFault::OutOfMemory
    }
}
