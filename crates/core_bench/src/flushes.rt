//! What the last writes of dirty pages take, one by one in the order of their keys, as a flush makes them.
ghost use Rattle.std.specs.Prelude.{◌≤◌};
ghost use Rattle.page_base.specs.declared.limits.TheConstants.{MOST_PAGES};

use crate::fills::{PAGE_SIZE, stain};
use crate::hand::Hand;
use crate::memory::zeros;
use anyhow::{Result, ensure};
use page_base::{Key, Layout};
use page_model::Cause;
use std::alloc::Global;
use std::rt::Clock;
use std::time::Instant;
use store_trait::{MemLane, Store};

/// No number of pages up to the most has it for a factor, so its multiples go through all of them.
const STRIDE: u64 = 1_048_583;

/// The nanoseconds of the writes of as many pages, filled in the order of their numbers, and filled in a scattered order.
#[derive(Drop)]
pub struct Times {
    pub in_order: u128,
    pub scattered: u128,
}

/// The `i`-th page to be filled.
fn page_at(i: u32, pages: u32, scattered: bool) -> u32
    requires some { 1 ≤ pages }
{
    if scattered {
        (u64::from(i) * STRIDE % u64::from(pages)) as u32
    } else {
        i
    }
}

/// Writes the dirty pages in the order of their keys, at most so many, and counts them.
pub fn write_dirty<S: Store>(hand: &mut Hand<S>, most: u32) -> u32 {
    let mut after = None;
    let mut written: u32 = 0;
    for _ in 0..most {
        let Some(key) = hand.stripe().next_dirty(after) else {
            return written;
        };
        if hand.write(key, Cause::Flush, None).is_some() {
            written = written.saturating_add(1);
        }
        after = Some(key);
    }
    written
}

/// Makes all pages dirty, and times their writes.
fn time_writes<R: Clock>(
    rt: &R,
    hand: &mut Hand<MemLane>,
    pages: u32,
    scattered: bool,
) -> Result<u128>
    requires some { 1 ≤ pages }
{
    for i in 0..pages {
        let page = page_at(i, pages, scattered);
        ensure!(stain(hand, Key { region: 0, page }), "a store went wrong");
    }
    let start = Instant::now(rt)?;
    let written = write_dirty(hand, pages);
    let took = start.elapsed(rt)?.as_nanos();
    ensure!(
        written == pages && hand.stripe().next_dirty(None).is_none(),
        "not each page was dirty once"
    );
    Ok(took)
}

/// Times the last writes of a buffer in which all of so many pages are dirty.
fn time_filled<R: Clock>(rt: &R, alloc: Global, pages: u32, scattered: bool) -> Result<u128>
    requires some { 1 ≤ pages }
    requires few { pages ≤ MOST_PAGES }
{
    let layout = Layout::new(PAGE_SIZE, 1, pages)?;
    let lane = zeros(alloc, &layout, 0, pages)?;
    let mut hand = Hand::new(alloc, layout, pages, 1, lane)?;
    let took = time_writes(rt, &mut hand, pages, scattered);
    let _ = hand.into_lanes();
    took
}

/// Times the last writes of so many dirty pages.
pub fn time_flushes<R: Clock>(rt: &R, alloc: Global, pages: u32) -> Result<Times>
    requires some { 1 ≤ pages }
    requires few { pages ≤ MOST_PAGES }
{
    let in_order = time_filled(rt, alloc, pages, false)?;
    let scattered = time_filled(rt, alloc, pages, true)?;
    Ok(Times {
        in_order,
        scattered,
    })
}
