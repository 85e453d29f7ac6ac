//! A lane's pages by their numbers.
ghost use Rattle.std.specs.Prelude.{◌≡◌, ◌*◌, ◌^◌, ◌<◌, true, length, OnOk};
ghost use Rattle.page_base.specs.Lanes.{has_page};
ghost use Rattle.store_trait.specs.Lanes.{IsPageOf, TakesPage, ChangesOnly, HasLaneCause};

use crate::laws::pages_have_places;
use crate::{Store, StoreFault};

/// Reads a page of the lane. `buf` is as long as a page. After a fault it holds any bytes.
pub fn read_page<S: Store>(lane: &mut S, page: u32, buf: &mut [u8]) -> Result<(), StoreFault>
    requires page { has_page (S.seen lane.old).origin page ≡ true }
    requires some { 0 < (S.seen lane.old).origin.page_size }
    requires size { length buf.old ≡ (S.seen lane.old).origin.page_size }
    requires fits { page * length buf.old < 2 ^ 64 }
    ensures bytes { OnOk result (IsPageOf (S.seen lane.old).told page buf.new) }
    ensures same { (S.seen lane.new).told ≡ (S.seen lane.old).told }
    ensures origin { (S.seen lane.new).origin ≡ (S.seen lane.old).origin }
    ensures cause { HasLaneCause (S.seen lane.old) (S.seen lane.new) result }
{
    pages_have_places();
    let off = u64::from(page) * buf.len() as u64;
    lane.read_from_store(buf, off)
}

/// Writes a page of the lane. `buf` is as long as a page. After a fault that page may hold any bytes.
pub fn write_page<S: Store>(lane: &mut S, page: u32, buf: &[u8]) -> Result<(), StoreFault>
    requires page { has_page (S.seen lane.old).origin page ≡ true }
    requires some { 0 < (S.seen lane.old).origin.page_size }
    requires size { length buf.now ≡ (S.seen lane.old).origin.page_size }
    requires fits { page * length buf.now < 2 ^ 64 }
    ensures written { OnOk result (TakesPage (S.seen lane.old) (S.seen lane.new) page buf.now) }
    ensures others { ChangesOnly page (S.seen lane.old).told (S.seen lane.new).told }
    ensures origin { (S.seen lane.new).origin ≡ (S.seen lane.old).origin }
    ensures cause { HasLaneCause (S.seen lane.old) (S.seen lane.new) result }
{
    pages_have_places();
    let off = u64::from(page) * buf.len() as u64;
    lane.write_to_store(buf, off)
}
