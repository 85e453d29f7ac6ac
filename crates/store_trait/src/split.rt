//! A region in memory cut into lanes, one for each stripe, and the lanes joined to a region.
ghost use Rattle.std.specs.Prelude.{◌≡◌, ◌<◌, ◌≤◌, ◌*◌, ◌/◌, ◌^◌, length, IfOk, IfErr};
ghost use Rattle.page_base.specs.declared.limits.TheConstants.{MOST_STRIPES};
ghost use Rattle.store_trait.specs.MemLanes.{AreLanesOf, AreLanesOfStore, AreOfOneSplit, AreJoined, HavePageSize};

use crate::mem_lane::MemLane;
use crate::mem_store::{JoinBack, MemBack, MemStore};
use page_base::laws::lists_by_place;
use page_base::{Bytes, Layout, List, OutOfMemory};
use std::alloc::Global;

fn lanes_of(
    alloc: Global,
    contents: &[u8],
    page_size: u32,
    pages: u32,
    region: u16,
    stripes: u32,
) -> Result<List<MemLane>, OutOfMemory>
    requires some { 0 < page_size }
    requires stripes { 0 < stripes }
    requires few { stripes ≤ MOST_STRIPES }
    requires whole { pages * page_size ≤ length contents.now }
    ensures { IfOk result (λ lanes. AreLanesOf region pages page_size stripes contents.now lanes.items) }
{
    lists_by_place::<MemLane>();
    let mut lanes = List::new(alloc);
    lanes.reserve(stripes as usize)?;
    for stripe in 0..stripes {
        lanes.put(MemLane::share(alloc, contents, page_size, pages, region, stripes, stripe)?);
    }
    Ok(lanes)
}

/// The pages of all lanes, in order.
fn joined(alloc: Global, lanes: &List<MemLane>) -> Result<Bytes, OutOfMemory>
    requires { AreOfOneSplit lanes.now.items }
    ensures { IfOk result (λ bytes. AreJoined lanes.now.items bytes.items) }
{
    let first = lanes.get(0);
    let (region, pages, size) = (first.region(), first.pages(), first.page_size() as usize);
    let stripes = lanes.len() as u64;
    let mut bytes = match Vec::with_capacity(alloc, pages as usize * size) {
        Ok(bytes) => bytes,
        Err(_) => return Err(OutOfMemory),
    };
    for page in 0..pages {
        let stripe = (u64::from(region) + u64::from(page)) % stripes;
        let lane = lanes.get(stripe as usize);
        bytes.extend_from_slice(lane.page(page))?;
    }
    Ok(Bytes::from_vec(bytes))
}

impl MemStore {
    /// One lane for each stripe of the layout. The only refusal is want of memory.
    pub fn split(self, layout: &Layout, region: u16) -> Result<List<MemLane>, MemBack>
        requires page_size { layout.now.page_size ≡ self.page_size }
        requires few_pages { length self.contents.items / self.page_size < 2 ^ 32 }
        ensures one_split { IfOk result (λ lanes. AreOfOneSplit lanes.items) }
        ensures lanes { IfOk result (λ lanes. AreLanesOfStore self region layout.now.stripes lanes.items) }
        ensures err { IfErr result (λ back. back.store ≡ self) }
    {
        let contents = self.contents.as_slice();
        let pages = (contents.len() / layout.page_size() as usize) as u32;
        match lanes_of(
            self.contents.allocator(),
            contents,
            layout.page_size(),
            pages,
            region,
            layout.stripes(),
        ) {
            Ok(lanes) => Ok(lanes),
            Err(_) => Err(MemBack { store: self }),
        }
    }

    /// The store that was split into these lanes, with what was written to them since. The only refusal is want of memory.
    pub fn join(lanes: List<MemLane>) -> Result<MemStore, JoinBack>
        requires { AreOfOneSplit lanes.items }
        ensures page_size { IfOk result (λ store. HavePageSize store.page_size lanes.items) }
        ensures contents { IfOk result (λ store. AreJoined lanes.items store.contents.items) }
        ensures err { IfErr result (λ back. back.lanes ≡ lanes) }
    {
        let page_size = lanes.get(0).page_size();
        match joined(lanes.allocator(), &lanes) {
            Ok(contents) => Ok(MemStore {
                contents,
                page_size,
            }),
            Err(_) => Err(JoinBack { lanes }),
        }
    }
}
