//! Notes: the running values of entries.
ghost use Rattle.std.specs.Prelude.{◌≡◌, IfOk, Option, Some, None};
ghost use Rattle.page_model.specs.Entries.{entry_of, key_of, is_access};

use crate::entry::{Cause, Entry, EntryBytes, HintAnswer};
use page_base::{Key, Why};
use std::alloc::{AllocError, Global};

/// The running value of an entry, with its bytes by reference. It has the variants of `Entry`.
#[derive(Drop)]
pub enum Note<'a> {
    Load {
        key: Key,
        place: u32,
        bytes: &'a [u8],
    },
    Save {
        key: Key,
        place: u32,
        bytes: &'a [u8],
    },
    Raised {
        key: Key,
        why: Why,
    },
    StartRead {
        key: Key,
    },
    Filled {
        key: Key,
    },
    Opened {
        key: Key,
    },
    Dropped {
        key: Key,
    },
    ReadFailed {
        key: Key,
        n: u64,
    },
    WriteFailed {
        key: Key,
        n: u64,
    },
    StartWrite {
        key: Key,
        why: Cause,
    },
    Evicted {
        key: Key,
        why: Cause,
    },
    Written {
        key: Key,
        at: u64,
        bytes: &'a [u8],
    },
    Hint {
        key: Key,
        answer: HintAnswer,
    },
    Closing {
        region: u16,
    },
    Unmapped {
        region: u16,
    },
}

impl<'a> Note<'a> {
    /// The page that the entry is of; none for Closing and Unmapped.
    pub fn key(&self) -> Option<Key>
        ensures { result ≡ key_of (entry_of self.now) }
    {
        match self {
            Note::Load { key, .. }
            | Note::Save { key, .. }
            | Note::Raised { key, .. }
            | Note::StartRead { key }
            | Note::Filled { key }
            | Note::Opened { key }
            | Note::Dropped { key }
            | Note::ReadFailed { key, .. }
            | Note::WriteFailed { key, .. }
            | Note::StartWrite { key, .. }
            | Note::Evicted { key, .. }
            | Note::Written { key, .. }
            | Note::Hint { key, .. } => Some(*key),
            Note::Closing { .. } | Note::Unmapped { .. } => None,
        }
    }

    /// The entry is a caller's access: a load, a store or a hint.
    pub fn is_access(&self) -> bool
        ensures { result ≡ is_access (entry_of self.now) }
    {
        match self {
            Note::Load { .. } | Note::Save { .. } | Note::Hint { .. } => true,
            _ => false,
        }
    }

    /// The entry, with bytes of its own.
    pub fn to_entry(&self, alloc: Global) -> Result<Entry, AllocError>
        ensures { IfOk result (λ e. e ≡ entry_of self.now) }
    {
        Ok(match self {
            Note::Load { key, place, bytes } => Entry::Load {
                key: *key,
                place: *place,
                bytes: EntryBytes::copied(alloc, bytes)?,
            },
            Note::Save { key, place, bytes } => Entry::Save {
                key: *key,
                place: *place,
                bytes: EntryBytes::copied(alloc, bytes)?,
            },
            Note::Raised { key, why } => Entry::Raised {
                key: *key,
                why: *why,
            },
            Note::StartRead { key } => Entry::StartRead { key: *key },
            Note::Filled { key } => Entry::Filled { key: *key },
            Note::Opened { key } => Entry::Opened { key: *key },
            Note::Dropped { key } => Entry::Dropped { key: *key },
            Note::ReadFailed { key, n } => Entry::ReadFailed { key: *key, n: *n },
            Note::WriteFailed { key, n } => Entry::WriteFailed { key: *key, n: *n },
            Note::StartWrite { key, why } => Entry::StartWrite {
                key: *key,
                why: *why,
            },
            Note::Evicted { key, why } => Entry::Evicted {
                key: *key,
                why: *why,
            },
            Note::Written { key, at, bytes } => Entry::Written {
                key: *key,
                at: *at,
                bytes: EntryBytes::copied(alloc, bytes)?,
            },
            Note::Hint { key, answer } => Entry::Hint {
                key: *key,
                answer: *answer,
            },
            Note::Closing { region } => Entry::Closing { region: *region },
            Note::Unmapped { region } => Entry::Unmapped { region: *region },
        })
    }
}
