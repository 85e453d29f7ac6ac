//! What a stripe is made with.
use page_base::{Layout, List, RegionShape};

/// The layout and the stripe's number in it, how many faults may wait (1 to 4096), the watermarks in percent of the
/// stripe's frames, and the shape of each region, by its number.
#[derive(Debug, Drop)]
pub struct StripeConfig {
    pub layout: Layout,
    pub number: u32,
    pub faults: u32,
    pub high: u32,
    pub low: u32,
    pub shapes: List<RegionShape>,
}

/// No stripe was made. The lanes come back as they were.
pub enum NewStripe<S> {
    OutOfMemory { lanes: List<S> },
}
