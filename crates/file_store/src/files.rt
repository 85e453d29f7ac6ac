//! What a folder in memory is made of: its files, and the calls that are to fail.
ghost use Rattle.std.specs.Prelude.{◌≡◌};
ghost use Rattle.file_store.specs.FailingLists.{is_next, counted};

use crate::mem_part::Shape;
use page_base::Bytes;

/// A file in memory.
#[derive(Drop)]
pub struct MemFile {
    pub path: Bytes,
    pub bytes: Bytes,
}

/// A part that is out.
#[derive(Drop)]
pub(crate) struct OutPart {
    pub(crate) path: Bytes,
    pub(crate) shape: Shape,
}

/// The calls of a part that may fail.
#[derive(Clone, Copy, Debug, PartialEq, Eq)]
pub enum PartCall {
    Make,
    Read,
    Write,
}

/// The calls of a folder that may fail.
#[derive(Clone, Copy, Debug, PartialEq, Eq)]
pub enum FolderCall {
    Length,
    ReadHead,
    WriteNew,
    OpenStriped,
    OpenWhole,
}

/// The call of this kind and number, counted from 1 in each part of this path, fails.
#[derive(Drop)]
pub struct FailingPart {
    pub path: Bytes,
    pub call: PartCall,
    pub number: u64,
}

/// The folder's call of this kind and number for this path, counted from 1, fails.
#[derive(Drop)]
pub struct FailingFolder {
    pub path: Bytes,
    pub call: FolderCall,
    pub number: u64,
}

impl FailingFolder {
    // Whether the next call of this kind for this path fails.
    pub(crate) fn is_next(&self, call: FolderCall, path: &[u8]) -> bool
        ensures { result ≡ is_next call path.now self.now }
    {
        self.call == call && self.path.as_slice() == path && self.number == 1
    }

    // Counts a call of this kind for this path.
    pub(crate) fn count(&mut self, call: FolderCall, path: &[u8])
        ensures { self.new ≡ counted call path.now self.old }
    {
        if self.call == call && self.path.as_slice() == path {
            self.number = self.number.saturating_sub(1);
        }
    }
}
