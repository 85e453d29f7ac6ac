//! What a pager is made with, and why there is none.
use page_base::{Layout, List};
use store_trait::LaneSet;
use thiserror::Error;

/// What a pager is made with: the layout of the buffer, how many faults may wait in a stripe (1 to 4096), the watermarks in
/// percent of a stripe's frames, the passes of each stripe (1 to 1048576), and the holds of each pass (2 to 2^40).
#[derive(Clone, Copy, Debug)]
pub struct PagerConfig {
    pub layout: Layout,
    pub faults: u32,
    pub high: u32,
    pub low: u32,
    pub seats: u32,
    pub holds: u64,
}

/// There is no pager. The lanes and the journals come back.
#[derive(Drop)]
pub enum OpenFault<S, J> {
    OutOfMemory {
        lanes: LaneSet<S>,
        journals: List<J>,
    },
}

/// Why passes have none to split off. They are as they were.
#[derive(Clone, Copy, Debug, PartialEq, Eq, Error)]
pub enum SplitFault {
    /// A stripe's pass has no further pass to split off.
    #[error("a pass has no further pass to split off")]
    NoSpare,
    #[error("out of memory")]
    OutOfMemory,
}
