//! A region in memory, and its lanes.
ghost use Rattle.std.specs.Prelude.{◌≡◌, ◌<◌, ◌*◌, ◌-◌, ◌/◌, length};

use crate::mem_lane::MemLane;
use page_base::{Bytes, List};

/// A region's bytes in memory, a positive number of whole pages.
#[derive(Drop)]
pub struct MemStore {
    pub contents: Bytes,
    pub page_size: u32,
    pub ghost sized: { 0 < page_size },
    pub ghost some: { 0 < length contents.items },
    pub ghost whole: { length contents.items ≡ length contents.items / page_size * page_size },
}

/// There was no memory for the lanes. It gives the store back.
#[derive(Drop)]
pub struct MemBack {
    pub store: MemStore,
}

/// There was no memory for the store. It gives the lanes back.
#[derive(Drop)]
pub struct JoinBack {
    pub lanes: List<MemLane>,
}

/// The lanes of all regions: for each stripe in order the list of its lanes, one per region in order of region.
#[derive(Drop)]
pub struct LaneSet<S> {
    pub stripes: List<List<S>>,
}

impl MemStore {
    /// A store of these bytes.
    pub fn new(contents: Bytes, page_size: u32) -> MemStore
        requires some { 0 < page_size }
        requires not_empty { 0 < length contents.items }
        requires whole { length contents.items ≡ length contents.items / page_size * page_size }
        ensures contents { result.contents ≡ contents }
        ensures page_size { result.page_size ≡ page_size }
    {
        MemStore {
            contents,
            page_size,
        }
    }
}
