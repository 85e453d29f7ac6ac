//! The entries of a stripe's history: one variant per event.
//!
//! Definitions speak of `Entry`, whose bytes are its own. What runs is a `Note`, with its bytes by reference; the two have the
//! same variants in the same order.
ghost use Rattle.std.specs.Prelude.{◌≡◌, ℕ, List, IfOk};

use page_base::{Key, Why};
use std::alloc::{AllocError, Global};
use std::marker::Model;

/// Why a page is written back or evicted.
#[derive(Clone, Copy, Debug, PartialEq, Eq)]
pub enum Cause {
    /// The stripe is evicting, or has no free frame.
    Pressure,
    /// A flush, which writes pages back and leaves them resident.
    Flush,
    /// The page's region is closing.
    Unmap,
}

/// What a hint that a page will be wanted is answered.
#[derive(Clone, Copy, Debug, PartialEq, Eq)]
pub enum HintAnswer {
    Present,
    Pending,
    Raised,
    Full,
    Closed,
}

/// The bytes that an entry holds. Contracts see them as a list.
#[derive(Drop)]
pub struct EntryBytes {
    bytes: Vec<u8>,
}

impl Model for EntryBytes {
    ghost Value = { List ℕ };

    ghost view = { λ b. b.bytes.items };
}

impl EntryBytes {
    /// A copy of these bytes.
    pub fn copied(alloc: Global, bytes: &[u8]) -> Result<EntryBytes, AllocError>
        ensures { IfOk result (λ b. b ≡ bytes.now) }
    {
        Ok(EntryBytes {
            bytes: Vec::from_slice(alloc, bytes)?,
        })
    }

    /// The bytes.
    pub fn as_slice(&self) -> &[u8]
        ensures { result.now ≡ self.now }
    {
        &self.bytes
    }
}

/// One entry of a history. `place` is a byte's number in its page, `at` the place of the start entry in the history, and `n`
/// the lane's count of faults.
#[derive(Drop)]
pub enum Entry {
    Load {
        key: Key,
        place: u32,
        bytes: EntryBytes,
    },
    Save {
        key: Key,
        place: u32,
        bytes: EntryBytes,
    },
    Raised {
        key: Key,
        why: Why,
    },
    StartRead {
        key: Key,
    },
    Filled {
        key: Key,
    },
    Opened {
        key: Key,
    },
    Dropped {
        key: Key,
    },
    ReadFailed {
        key: Key,
        n: u64,
    },
    WriteFailed {
        key: Key,
        n: u64,
    },
    StartWrite {
        key: Key,
        why: Cause,
    },
    Evicted {
        key: Key,
        why: Cause,
    },
    Written {
        key: Key,
        at: u64,
        bytes: EntryBytes,
    },
    Hint {
        key: Key,
        answer: HintAnswer,
    },
    Closing {
        region: u16,
    },
    Unmapped {
        region: u16,
    },
}
