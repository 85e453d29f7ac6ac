//! What the events and readers of a stripe answer.
use page_base::Key;

/// What a load or a store finds.
#[derive(Clone, Copy, Debug, PartialEq, Eq)]
pub enum Look {
    /// It is done.
    Hit,
    /// The page isn't resident.
    Missing,
    /// The page is resident and write-protected.
    Protected,
    /// The page's region is closing.
    Closed,
}

/// What becomes of a fault.
#[derive(Clone, Copy, Debug, PartialEq, Eq)]
pub enum Raise {
    /// It waits now, at the end of the queue.
    Raised,
    /// The page waits already, or is being read.
    Pending,
    /// As many faults wait as may.
    QueueFull,
}

/// What a frame holds.
#[derive(Clone, Copy, Debug, PartialEq, Eq)]
pub enum FrameState {
    /// No resident page.
    Empty,
    Clean(Key),
    Dirty(Key),
    /// A dirty page whose region's lane is out.
    Away(Key),
}
