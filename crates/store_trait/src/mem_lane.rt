//! A lane in memory.
//!
//! It keeps its own pages one after another: of a region whose pages go round n stripes, page p is the lane's page p / n.
ghost use Rattle.std.specs.Prelude.{◌≡◌, ◌<◌, ◌≤◌, ◌*◌, true, length, IfOk};
ghost use Rattle.store_trait.specs.Memory.{memory_origin};
ghost use Rattle.page_base.specs.declared.limits.TheConstants.{MOST_STRIPES};
ghost use Rattle.store_trait.specs.InsideMemory.{ReachesEach, TakesShare, LiesAmong, start_among};

use crate::{Store, StoreFault};
use page_base::{Bytes, OutOfMemory};
use std::alloc::Global;

/// One stripe's share of a region in memory. It never fails.
#[derive(Drop)]
pub struct MemLane {
    kept: Bytes,
    region: u16,
    pages: u32,
    page_size: u32,
    stripes: u32,
    stripe: u32,
    ghost sized: { 0 < page_size },
    ghost some_stripe: { 0 < stripes },
    ghost reaches: { ReachesEach (memory_origin region pages page_size stripes stripe) kept.items },
}

/// Copies, one after another, the pages whose number leaves `first` when it is divided by `stripes`.
fn share_of(
    alloc: Global,
    contents: &[u8],
    page_size: u32,
    pages: u32,
    first: u32,
    stripes: u32,
) -> Result<Bytes, OutOfMemory>
    requires some { 0 < stripes }
    requires first { first < stripes }
    requires few { stripes ≤ MOST_STRIPES }
    requires whole { pages * page_size ≤ length contents.now }
    ensures { IfOk result (λ own. TakesShare page_size pages stripes first contents.now own.items) }
{
    let size = page_size as usize;
    let rows = (u64::from(pages) + u64::from(stripes - 1 - first)) / u64::from(stripes);
    let mut own = match Vec::with_capacity(alloc, rows as usize * size) {
        Ok(own) => own,
        Err(_) => return Err(OutOfMemory),
    };
    let mut page = u64::from(first);
    while page < u64::from(pages) {
        let start = page as usize * size;
        own.extend_from_slice(&contents[start..start + size])?;
        page += u64::from(stripes);
    }
    Ok(Bytes::from_vec(own))
}

impl MemLane {
    ghost use Rattle.std.specs.Prelude.{Some};
    ghost use Rattle.page_base.specs.Lanes.{has_page, told_at};
    ghost use Rattle.store_trait.specs.MemLanes.{lane_origin, lane_seen, IsShareOf};

    pub(crate) fn share(
        alloc: Global,
        contents: &[u8],
        page_size: u32,
        pages: u32,
        region: u16,
        stripes: u32,
        stripe: u32,
    ) -> Result<MemLane, OutOfMemory>
        requires some { 0 < page_size }
        requires stripe { stripe < stripes }
        requires few { stripes ≤ MOST_STRIPES }
        requires whole { pages * page_size ≤ length contents.now }
        ensures { IfOk result (λ lane. IsShareOf region pages page_size stripes stripe contents.now lane) }
    {
        let first = (stripe + stripes - u32::from(region) % stripes) % stripes;
        let kept = share_of(alloc, contents, page_size, pages, first, stripes)?;
        Ok(MemLane {
            kept,
            region,
            pages,
            page_size,
            stripes,
            stripe,
        })
    }

    pub(crate) fn region(&self) -> u16
        ensures { result ≡ self.now.region }
    {
        self.region
    }

    pub(crate) fn pages(&self) -> u32
        ensures { result ≡ self.now.pages }
    {
        self.pages
    }

    pub(crate) fn page_size(&self) -> u32
        ensures { result ≡ self.now.page_size }
    {
        self.page_size
    }

    pub(crate) fn page(&self, page: u32) -> &[u8]
        requires { has_page (lane_origin self.now) page ≡ true }
        ensures bytes { told_at (lane_seen self.now).told page ≡ Some result.now }
        ensures len { length result.now ≡ self.now.page_size }
    {
        let start = (page / self.stripes) as usize * self.page_size as usize;
        &self.kept.as_slice()[start..start + self.page_size as usize]
    }

    /// Where a page lies among the lane's own.
    fn start_of(&self, off: u64) -> usize
        requires fits { LiesAmong self.now.page_size self.now.stripes off self.now.kept.items }
        ensures start { result ≡ start_among self.now.page_size self.now.stripes off }
    {
        let page = off / u64::from(self.page_size);
        (page / u64::from(self.stripes)) as usize * self.page_size as usize
    }
}

impl Store for MemLane {
    ghost use Rattle.store_trait.specs.MemLanes.{lane_origin, lane_seen};
    ghost use Rattle.store_trait.specs.WholePages.{memory_pages_whole};
    ghost use Rattle.store_trait.specs.SmallCounts.{none_is_small};

    ghost seen = { lane_seen };

    fn read_from_store(&mut self, buf: &mut [u8], off: u64) -> Result<(), StoreFault> {
        let start = self.start_of(off);
        buf.copy_from_slice(&self.kept.as_slice()[start..start + self.page_size as usize]);
        Ok(())
    }

    fn write_to_store(&mut self, buf: &[u8], off: u64) -> Result<(), StoreFault> {
        let start = self.start_of(off);
        self.kept.write_at(start, buf);
        Ok(())
    }

    fn faults(&self) -> u64 {
        0
    }

    ghost whole_pages = { λ s page. memory_pages_whole (lane_origin s) s.kept.items s.reaches page };

    ghost small_count = { λ s. none_is_small };
}
