//! The oldest page that may leave: that which is the oldest of its region, or of its region's clean pages, for the region
//! whose is the oldest. It looks at one page or two of each region, however many are resident.
ghost use Rattle.std.specs.Prelude.{◌≡◌, ◌<◌, ◌≤◌, length, find};
ghost use Rattle.page_base.specs.declared.limits.TheConstants.{MOST_REGIONS};
ghost use Rattle.stripe_core.specs.InsideOldest.{goes_of, may_go};
ghost use Rattle.stripe_core.specs.Parts.{place_of};

use crate::region::{Lane, Region};
use page_buffer::PageBuffer;
use store_trait::Store;

/// The frame of the oldest page of a region that may leave, where the region's lane is this.
fn leaving_of<S: Store>(buffer: &PageBuffer, lane: &Lane<S>, region: u16) -> Option<u32>
    ensures exact { result ≡ find (goes_of buffer.now (place_of S.seen lane.now) region) buffer.now.order }
{
    match lane {
        Lane::Home(_) => buffer.oldest_of(region),
        Lane::Reading { .. } => buffer.oldest_clean(region, None),
        Lane::Writing { key, .. } => buffer.oldest_clean(region, Some(*key)),
    }
}

/// The frame of the oldest page that may leave.
pub(crate) fn oldest_leaving<S: Store>(buffer: &PageBuffer, regions: &Vec<Region<S>>) -> Option<u32>
    requires few { length regions.now.items ≤ MOST_REGIONS }
    ensures exact { result ≡ find (may_go S.seen buffer.now regions.now.items) buffer.now.order }
{
    buffer.ordered();
    let mut oldest = None;
    for number in 0..regions.len() {
        let of_region = leaving_of(buffer, &regions[number].lane, number as u16);
        oldest = buffer.older(oldest, of_region);
    }
    oldest
}
