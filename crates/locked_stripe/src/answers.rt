//! What the pager's calls answer.
use page_base::{Key, Why};
use thiserror::Error;

/// Why an access wasn't done, or not to its end.
#[derive(Clone, Copy, Debug, PartialEq, Eq, Error)]
pub enum Access {
    /// The range doesn't lie in the region. Nothing was done.
    #[error("the range ends behind the region")]
    OutOfRange,
    /// The region isn't writable. Nothing was done.
    #[error("the region is read-only")]
    ReadOnly,
    /// The caller's pass of a stripe has made all its holds.
    #[error("the pass has made all its holds")]
    PassSpent,
    /// The region is closing, or was unmapped.
    #[error("the region is unmapped")]
    Unmapped,
    /// A call of the store failed for this page. `faults` is the lane's count of faults then.
    #[error("store fault {faults}")]
    StoreFault { key: Key, faults: u64 },
}

/// What one step of service did.
#[derive(Clone, Copy, Debug, PartialEq, Eq)]
pub enum Served {
    /// No fault can be served now.
    Nothing,
    /// The fault that is next waits for a free frame.
    Room,
    /// The fault of this page was stale.
    Dropped(Key),
    /// The page was protected, and may be stored to now.
    Opened(Key),
    /// The page was read in, for a fault that was raised so.
    Filled(Key, Why),
    /// The page couldn't be read. The lane's count of faults then.
    ReadFailed(Key, u64),
}

/// What was done to make room.
#[derive(Clone, Copy, Debug, PartialEq, Eq)]
pub enum Back {
    /// No room is wanted, or no page may leave now.
    Nothing,
    /// The page left clean.
    Evicted(Key),
    /// The page was written back, and is resident.
    Written(Key),
    /// The page couldn't be written. The lane's count of faults then.
    WriteFailed(Key, u64),
}

/// What one look at a page found.
#[derive(Clone, Copy, Debug, PartialEq, Eq)]
pub(crate) enum Glance {
    /// The access is done.
    Done,
    /// The page's region is closing.
    Closed,
    /// Another read of the page failed since the first look. Its number.
    Failed(u64),
    /// The page has to be served. The number of its last failed read.
    Waits(u64),
}

/// Why a look of a flush began no write.
#[derive(Clone, Copy, Debug, PartialEq, Eq)]
pub(crate) enum FlushRest {
    /// No dirty page is left.
    Clean,
    /// The next dirty page's lane is out.
    Away,
}

/// What a turn of a flush did.
#[derive(Clone, Copy, Debug, PartialEq, Eq)]
pub(crate) enum FlushTurn {
    /// No dirty page was left.
    Done,
    /// It wrote the next dirty page, or waited for its lane. The page that it wrote last in all.
    Went(Option<Key>),
    /// The page couldn't be written. The lane's count of faults then.
    Failed(Key, u64),
}

/// What a hold of an unmapping did, where it began no write.
#[derive(Clone, Copy, Debug, PartialEq, Eq)]
pub(crate) enum UnmapStep {
    /// The region was unmapped before.
    Gone,
    /// Nothing of the region was left, and it is unmapped now.
    Done,
    /// It made one entry, or waits for the region's lane.
    Went,
}

/// What a turn of an unmapping did.
#[derive(Clone, Copy, Debug, PartialEq, Eq)]
pub(crate) enum UnmapTurn {
    /// The region was unmapped before.
    Gone,
    /// The region is unmapped now.
    Done,
    /// There is more to do.
    Went,
    /// The page couldn't be written. The lane's count of faults then.
    Failed(Key, u64),
}
