//! Why a call of a pager fails.
use page_base::Key;
use thiserror::Error;

/// A call of the store failed for this page. It carries the count of faults of the lane after the call.
#[derive(Clone, Copy, Debug, PartialEq, Eq, Error)]
#[error("store fault {faults}")]
pub struct PageFault {
    pub key: Key,
    pub faults: u64,
}

/// Why a region wasn't unmapped.
#[derive(Clone, Copy, Debug, PartialEq, Eq, Error)]
pub enum UnmapError {
    /// It is unmapped in every stripe.
    #[error("unmapped")]
    Unmapped,
    /// The write of one of its pages failed. The region goes on closing.
    #[error(transparent)]
    Fault(PageFault),
}
