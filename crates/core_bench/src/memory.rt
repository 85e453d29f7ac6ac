//! Lanes in memory for a stripe that is the only one.
ghost use Rattle.std.specs.Prelude.{◌≡◌, ◌≤◌, length, IfOk};
ghost use Rattle.page_base.specs.declared.limits.TheConstants.{MOST_PAGES};
ghost use Rattle.store_trait.specs.MemLanes.{lane_origin, lane_seen};
ghost use Rattle.store_trait.specs.Memory.{memory_origin};
ghost use Rattle.core_bench.specs.Hands.{AreMemoryLanes};

use page_base::{Bytes, Layout, List, OutOfMemory};
use std::alloc::Global;
use store_trait::{MemLane, MemStore};

/// So many pages of zeros, as the lane of a region.
pub fn zeros(
    alloc: Global,
    layout: &Layout,
    region: u16,
    pages: u32,
) -> Result<MemLane, OutOfMemory>
    requires one_stripe { layout.now.stripes ≡ 1 }
    requires some { 1 ≤ pages }
    requires few { pages ≤ MOST_PAGES }
    ensures { IfOk result (λ lane. lane_origin lane ≡ memory_origin region pages layout.now.page_size 1 0) }
{
    let length = pages as usize * layout.page_size() as usize;
    let contents = vec![in alloc; 0u8; length]?;
    let store = MemStore::new(Bytes::from_vec(contents), layout.page_size());
    let Ok(lanes) = store.split(layout, region) else {
        return Err(OutOfMemory);
    };
    match lanes.into_vec().pop() {
        Some(lane) => Ok(lane),
        None => unreachable!(),
    }
}

/// So many regions of so many pages of zeros.
pub fn zero_lanes(
    alloc: Global,
    layout: &Layout,
    regions: u16,
    pages: u32,
) -> Result<List<MemLane>, OutOfMemory>
    requires one_stripe { layout.now.stripes ≡ 1 }
    requires some { 1 ≤ pages }
    requires few { pages ≤ MOST_PAGES }
    ensures count { IfOk result (λ lanes. length lanes.items ≡ regions) }
    ensures lanes { IfOk result (λ lanes. AreMemoryLanes lane_seen pages layout.now.page_size lanes.items) }
{
    let mut lanes = List::new(alloc);
    lanes.reserve(regions as usize)?;
    for region in 0..regions {
        let lane = zeros(alloc, layout, region, pages)?;
        lanes.put(lane);
    }
    Ok(lanes)
}
