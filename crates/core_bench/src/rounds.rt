//! What loads and stores of resident pages take.
use crate::hand::Hand;
use crate::memory::zeros;
use anyhow::{Result, ensure};
use page_base::{Key, Layout, Why};
use std::alloc::Global;
use std::rt::Clock;
use std::time::Instant;
use store_trait::MemLane;

const PAGES: u32 = 64;

/// The nanoseconds of so many rounds, each of which loads, or stores to, each page.
#[derive(Drop)]
pub struct Times {
    pub loads: u128,
    pub saves: u128,
}

/// A stripe with a frame for each page, all pages resident and open to stores.
fn filled(alloc: Global, page_size: u32) -> Result<Hand<MemLane>> {
    let layout = Layout::new(page_size, 1, PAGES)?;
    let lane = zeros(alloc, &layout, 0, PAGES)?;
    let mut hand = Hand::new(alloc, layout, PAGES, PAGES, lane)?;
    for page in 0..PAGES {
        let _ = hand.raise(Key { region: 0, page }, Why::Write);
        let _ = hand.serve();
    }
    Ok(hand)
}

/// Times loads, and then stores, of the hand's pages. Each has to hit.
fn time_both<R: Clock>(
    rt: &R,
    hand: &mut Hand<MemLane>,
    rounds: u64,
    spread: bool,
    buf: &mut [u8],
) -> Result<Times> {
    let start = Instant::now(rt)?;
    let loaded = hand.load_rounds(rounds, spread, buf);
    let loads = start.elapsed(rt)?.as_nanos();
    let start = Instant::now(rt)?;
    let saved = hand.save_rounds(rounds, spread, buf);
    let saves = start.elapsed(rt)?.as_nanos();
    let wanted = rounds.saturating_mul(u64::from(PAGES));
    ensure!(loaded == wanted && saved == wanted, "an access did not hit");
    Ok(Times { loads, saves })
}

/// Times accesses of so many bytes, at spread places of the pages or at one place.
pub fn time_accesses<R: Clock>(
    rt: &R,
    alloc: Global,
    page_size: u32,
    bytes: u32,
    rounds: u64,
    spread: bool,
) -> Result<Times> {
    let mut buf = vec![in alloc; 7u8; bytes as usize]?;
    let mut hand = filled(alloc, page_size)?;
    let times = time_both(rt, &mut hand, rounds, spread, buf.as_mut_slice());
    let _ = hand.into_lanes();
    times
}
