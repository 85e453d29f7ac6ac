//! Lanes of a region in memory for a stripe that is the only one, and lanes that fail.
ghost use Rattle.std.specs.Prelude.{◌≡◌, ◌≤◌, IfOk};
ghost use Rattle.page_base.specs.declared.limits.TheConstants.{MOST_PAGES};
ghost use Rattle.store_trait.specs.Memory.{memory_origin};

use page_base::{Bytes, Layout, List, OutOfMemory};
use std::alloc::{AllocError, Global};
use store_trait::{FailLane, MemLane, MemStore, Store};

/// The lane of a region of so many pages, of which each byte is this one.
pub fn filled_lane(
    alloc: Global,
    layout: &Layout,
    pages: u32,
    byte: u8,
) -> Result<MemLane, OutOfMemory>
    requires one_stripe { layout.now.stripes ≡ 1 }
    requires some { 1 ≤ pages }
    requires few { pages ≤ MOST_PAGES }
    ensures { IfOk result (λ lane. (⟦<MemLane as Store>⟧.seen lane).origin
        ≡ memory_origin 0 pages layout.now.page_size 1 0) }
{
    let length = pages as usize * layout.page_size() as usize;
    let contents = vec![in alloc; byte; length]?;
    let store = MemStore::new(Bytes::from_vec(contents), layout.page_size());
    let Ok(lanes) = store.split(layout, 0) else {
        return Err(OutOfMemory);
    };
    match lanes.into_vec().pop() {
        Some(lane) => Ok(lane),
        None => unreachable!(),
    }
}

/// The lane of a region of two pages of 64 bytes, which are all 7.
pub fn memory_lane(alloc: Global, layout: &Layout) -> Result<MemLane, OutOfMemory>
    requires page_size { layout.now.page_size ≡ 64 }
    requires stripes { layout.now.stripes ≡ 1 }
    ensures { IfOk result (λ lane. (⟦<MemLane as Store>⟧.seen lane).origin ≡ memory_origin 0 2 64 1 0) }
{
    filled_lane(alloc, layout, 2, 7)
}

/// The same lane, of which reads and writes of these numbers fail.
pub fn failing_memory_lane(
    alloc: Global,
    layout: &Layout,
    reads: &[u64],
    writes: &[u64],
) -> Result<FailLane<MemLane>, OutOfMemory>
    requires page_size { layout.now.page_size ≡ 64 }
    requires stripes { layout.now.stripes ≡ 1 }
    ensures { IfOk result (λ lane. (⟦<FailLane<MemLane> as Store>⟧.seen lane).origin ≡ memory_origin 0 2 64 1 0) }
{
    let lane = memory_lane(alloc, layout)?;
    Ok(failing_lane(alloc, lane, reads, writes)?)
}

/// The lane, of which reads and writes of these numbers fail.
pub fn failing_lane<S: Store + Drop>(
    alloc: Global,
    lane: S,
    reads: &[u64],
    writes: &[u64],
) -> Result<FailLane<S>, AllocError>
    ensures { IfOk result (λ l. (⟦<FailLane<S> as Store>⟧.seen l).origin ≡ (S.seen lane).origin) }
{
    let reads = List::from_vec(Vec::from_slice(alloc, reads)?);
    let writes = List::from_vec(Vec::from_slice(alloc, writes)?);
    Ok(FailLane::new(lane, reads, writes))
}
