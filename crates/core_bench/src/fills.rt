//! What a page's way into a full buffer takes: an access that misses, the fault, room made by an eviction, the fill, and the
//! access again.
ghost use Rattle.std.specs.Prelude.{◌*◌, ◌≤◌};
ghost use Rattle.page_base.specs.declared.limits.TheConstants.{MOST_PAGES};

use crate::hand::Hand;
use crate::meanwhile::PLACE;
use crate::memory::zeros;
use anyhow::{Result, ensure};
use page_base::{Key, Layout, Why};
use page_model::Next;
use std::alloc::Global;
use std::rt::Clock;
use std::time::Instant;
use store_trait::{MemLane, Store};
use stripe_core::Look;

/// The least size of a page, so that little is copied.
pub const PAGE_SIZE: u32 = 64;

/// A few services bring a page in: the oldest page is written, is evicted, and the page is read.
const SERVICES: u32 = 3;

/// The nanoseconds of so many fills, each behind the eviction of a clean page, and of as many behind that of a dirty one.
#[derive(Drop)]
pub struct Times {
    pub clean: u128,
    pub dirty: u128,
}

/// The byte that a page is stored to, never 0.
pub fn byte_of(page: u32) -> u8 {
    (page % 251) as u8 + 1
}

/// Serves until the page is read in, or opened.
fn bring_in<S: Store>(hand: &mut Hand<S>) {
    for _ in 0..SERVICES {
        match hand.serve() {
            Some(Next::Room) => {
                let _ = hand.make_room();
            }
            _ => return,
        }
    }
}

/// Loads a byte of a page, which comes in where it is missing. It tells whether the byte was there in the end.
fn touch<S: Store>(hand: &mut Hand<S>, key: Key) -> bool {
    if matches!(hand.load(key, PLACE), Some((Look::Hit, _))) {
        return true;
    }
    let _ = hand.raise(key, Why::Read);
    bring_in(hand);
    matches!(hand.load(key, PLACE), Some((Look::Hit, _)))
}

/// Stores the page's byte to it, which comes in where it is missing and is opened where it is protected.
pub fn stain<S: Store>(hand: &mut Hand<S>, key: Key) -> bool {
    let byte = byte_of(key.page);
    let why = match hand.save(key, PLACE, byte) {
        Some(Look::Hit) => return true,
        Some(Look::Protected) => Why::Protected,
        _ => Why::Write,
    };
    let _ = hand.raise(key, why);
    bring_in(hand);
    matches!(hand.save(key, PLACE, byte), Some(Look::Hit))
}

/// The page behind this one, round and round.
fn following(page: u32, pages: u32) -> u32 {
    if page >= pages || page == pages - 1 {
        0
    } else {
        page + 1
    }
}

/// Goes on through the pages of the first region from `from`, round and round, so many times, and loads from each, or stores to
/// it. It counts the accesses that went well.
pub fn go_round<S: Store>(
    hand: &mut Hand<S>,
    pages: u32,
    from: u32,
    times: u32,
    stores: bool,
) -> u32 {
    let mut page = from;
    let mut well: u32 = 0;
    for _ in 0..times {
        let key = Key { region: 0, page };
        let went = if stores {
            stain(hand, key)
        } else {
            touch(hand, key)
        };
        if went {
            well = well.saturating_add(1);
        }
        page = following(page, pages);
    }
    well
}

/// Times fills, and counts on it that as many pages were evicted, and as many written as are stored to.
fn time_round<R: Clock>(
    rt: &R,
    hand: &mut Hand<MemLane>,
    pages: u32,
    fills: u32,
    stores: bool,
) -> Result<u128> {
    let warm = go_round(hand, pages, 0, pages, stores);
    let before = hand.stripe().counts();
    let start = Instant::now(rt)?;
    let well = go_round(hand, pages, 0, fills, stores);
    let took = start.elapsed(rt)?.as_nanos();
    let after = hand.stripe().counts();
    ensure!(warm == pages && well == fills, "an access went wrong");
    let fills = u64::from(fills);
    let writes = if stores { fills } else { 0 };
    ensure!(
        after.evictions == before.evictions.saturating_add(fills)
            && after.writes == before.writes.saturating_add(writes),
        "other pages left than were to leave"
    );
    Ok(took)
}

fn time_both<R: Clock>(rt: &R, hand: &mut Hand<MemLane>, pages: u32, fills: u32) -> Result<Times> {
    let clean = time_round(rt, hand, pages, fills, false)?;
    let dirty = time_round(rt, hand, pages, fills, true)?;
    Ok(Times { clean, dirty })
}

/// Times so many fills of a buffer of these frames. Twice as many pages take turns in them.
pub fn time_fills<R: Clock>(rt: &R, alloc: Global, frames: u32, fills: u32) -> Result<Times>
    requires some { 1 ≤ frames }
    requires few { 2 * frames ≤ MOST_PAGES }
{
    let pages = 2 * frames;
    let layout = Layout::new(PAGE_SIZE, 1, frames)?;
    let lane = zeros(alloc, &layout, 0, pages)?;
    let mut hand = Hand::new(alloc, layout, pages, 1, lane)?;
    let times = time_both(rt, &mut hand, pages, fills);
    let _ = hand.into_lanes();
    times
}
