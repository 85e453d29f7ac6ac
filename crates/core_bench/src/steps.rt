//! What the steps that look for a page or a fault take in a crowded stripe: 64 regions whose pages came in by turns, all of
//! them dirty, with as many faults pending as may be, and the lane of one region out.
ghost use Rattle.std.specs.Prelude.{◌≤◌};
ghost use Rattle.core_bench.specs.declared.steps.TheConstants.{MOST_EACH};

use crate::calls::raise_at;
use crate::fills::{PAGE_SIZE, stain};
use crate::hand::Hand;
use crate::meanwhile::Meanwhile;
use crate::memory::zero_lanes;
use crate::unmaps::unmap_below;
use anyhow::{Context, Result, ensure};
use page_base::{Key, Layout, MOST_FAULTS, Why};
use page_model::{Cause, Next};
use std::alloc::Global;
use std::rt::Clock;
use std::time::Instant;
use store_trait::{MemLane, Store};
use stripe_core::Stripe;

/// As many as a stripe may have.
pub const REGIONS: u16 = 64;

/// Pages of each region that are pending, so that the faults of all regions together are the most that may be.
pub const PENDING: u32 = 64;

/// The most resident pages of a region, so that all regions together have few enough pages.
pub const MOST_EACH: u32 = 16_320;

/// The lane of this region is out while the regions below it are unmapped.
const HALF: u16 = REGIONS / 2;

/// Calls of one kind, and the nanoseconds of all of them.
#[derive(Clone, Copy, Drop)]
pub struct Timed {
    pub calls: u64,
    pub nanos: u128,
}

impl Timed {
    fn add(&mut self, other: Timed) {
        self.calls = self.calls.saturating_add(other.calls);
        self.nanos = self.nanos.saturating_add(other.nanos);
    }
}

/// The calls of each kind.
#[derive(Drop)]
pub struct Times {
    /// `pick`, with all pages dirty and a lane out.
    pub picks: Timed,
    /// `next`, where the last of the faults is the first that can be served.
    pub nexts: Timed,
    /// `next`, where the last of the faults is of a page that has left, and waits to be opened.
    pub lost: Timed,
    /// `oldest_of` of a closing region and an eviction, with a lane out.
    pub unmaps: Timed,
}

impl Times {
    fn add(&mut self, other: &Times) {
        self.picks.add(other.picks);
        self.nexts.add(other.nexts);
        self.lost.add(other.lost);
        self.unmaps.add(other.unmaps);
    }
}

/// Raises a fault of the page that is being written, which is protected then, and times `pick` and `next`.
#[derive(Drop)]
struct Looks<'a, R: Clock> {
    rt: &'a R,
    calls: u32,
    times: Option<(u128, u128)>,
}

impl<'a, S: Store, R: Clock> Meanwhile<S> for Looks<'a, R> {
    fn act(&mut self, stripe: &mut Stripe<S>, key: Key) {
        let _ = raise_at(stripe, key, Why::Protected);
        self.times = look(self.rt, stripe, key, self.calls);
    }
}

/// Times `pick`, which has to give another page, and `next`, which has to give this one.
fn look<S: Store, R: Clock>(
    rt: &R,
    stripe: &Stripe<S>,
    key: Key,
    calls: u32,
) -> Option<(u128, u128)> {
    let mut right: u64 = 0;
    let start = Instant::now(rt).ok()?;
    for _ in 0..calls {
        match stripe.pick() {
            Some(pick) if pick.key != key => right = right.saturating_add(1),
            _ => {}
        }
    }
    let picks = start.elapsed(rt).ok()?.as_nanos();
    let start = Instant::now(rt).ok()?;
    for _ in 0..calls {
        if stripe.next() == Next::Open(key) {
            right = right.saturating_add(1);
        }
    }
    let nexts = start.elapsed(rt).ok()?.as_nanos();
    if right == 2 * u64::from(calls) {
        Some((picks, nexts))
    } else {
        None
    }
}

/// Lets the pages of the closing regions below the page's leave.
#[derive(Drop)]
pub struct Unmaps<'a, R: Clock> {
    rt: &'a R,
    each: u32,
    pub left: u64,
    pub nanos: Option<u128>,
}

impl<'a, R: Clock> Unmaps<'a, R> {
    /// At most so many pages of each region.
    pub fn new(rt: &'a R, each: u32) -> Unmaps<'a, R> {
        Unmaps {
            rt,
            each,
            left: 0,
            nanos: None,
        }
    }
}

impl<'a, S: Store, R: Clock> Meanwhile<S> for Unmaps<'a, R> {
    fn act(&mut self, stripe: &mut Stripe<S>, key: Key) {
        let Ok(start) = Instant::now(self.rt) else {
            return;
        };
        self.left = unmap_below(stripe, key.region, self.each);
        if let Ok(took) = start.elapsed(self.rt) {
            self.nanos = Some(took.as_nanos());
        }
    }
}

/// Fills the frames, `each` of each region by turns, with pages that are stored to, and lets the most faults but one wait for
/// room.
fn crowd<S: Store>(hand: &mut Hand<S>, each: u32) -> bool
    requires few { each ≤ MOST_EACH }
{
    let mut well = true;
    for page in 0..each {
        for region in 0..REGIONS {
            well &= stain(hand, Key { region, page });
        }
    }
    for i in 0..MOST_FAULTS - 1 {
        let key = Key {
            region: (i % u32::from(REGIONS)) as u16,
            page: each + i / u32::from(REGIONS),
        };
        let _ = hand.raise(key, Why::Read);
    }
    well
}

/// Times `next` where a page has left that waits to be opened: the oldest, of which the last fault is.
fn time_lost<R: Clock>(rt: &R, hand: &mut Hand<MemLane>, oldest: Key, calls: u32) -> Result<Timed> {
    ensure!(hand.evict(oldest, Cause::Pressure), "the oldest page stays");
    let mut right: u64 = 0;
    let start = Instant::now(rt)?;
    for _ in 0..calls {
        if hand.stripe().next() == Next::Drop(oldest) {
            right = right.saturating_add(1);
        }
    }
    let nanos = start.elapsed(rt)?.as_nanos();
    ensure!(right == u64::from(calls), "another fault is next");
    ensure!(
        hand.serve() == Some(Next::Drop(oldest)),
        "another fault is next"
    );
    Ok(Timed {
        calls: right,
        nanos,
    })
}

/// Times the unmapping of half of the regions, whose pages are written first.
fn time_unmaps<R: Clock>(rt: &R, hand: &mut Hand<MemLane>, each: u32) -> Result<Timed> {
    for region in 0..HALF {
        for page in 0..each {
            let _ = hand.write(Key { region, page }, Cause::Flush, None);
        }
        ensure!(hand.close(region), "a region can't be closed");
    }
    let mut unmaps = Unmaps::new(rt, each);
    let key = Key {
        region: HALF,
        page: 0,
    };
    ensure!(
        hand.write_while(key, Cause::Flush, &mut unmaps),
        "a page isn't dirty"
    );
    let nanos = unmaps.nanos.context("the clock")?;
    Ok(Timed {
        calls: unmaps.left,
        nanos,
    })
}

/// Times all kinds on one stripe, with `each` resident pages of each region.
fn time_crowd<R: Clock>(rt: &R, hand: &mut Hand<MemLane>, each: u32, calls: u32) -> Result<Times>
    requires few { each ≤ MOST_EACH }
{
    ensure!(crowd(hand, each), "a page didn't come in");
    let mut looks = Looks {
        rt,
        calls,
        times: None,
    };
    let oldest = Key { region: 0, page: 0 };
    ensure!(
        hand.write_while(oldest, Cause::Flush, &mut looks),
        "a page isn't dirty"
    );
    let (picks, nexts) = looks
        .times
        .context("another page was picked, or another fault next")?;
    let lost = time_lost(rt, hand, oldest, calls / 100 + 1)?;
    let unmaps = time_unmaps(rt, hand, each)?;
    let calls = u64::from(calls);
    Ok(Times {
        picks: Timed {
            calls,
            nanos: picks,
        },
        nexts: Timed {
            calls,
            nanos: nexts,
        },
        lost,
        unmaps,
    })
}

/// Times the steps in one stripe of so many frames for each of 64 regions.
fn time_stripe<R: Clock>(rt: &R, alloc: Global, each: u32, calls: u32) -> Result<Times>
    requires some { 1 ≤ each }
    requires few { each ≤ MOST_EACH }
{
    let pages = each + PENDING;
    let layout = Layout::new(PAGE_SIZE, 1, u32::from(REGIONS) * each)?;
    let lanes = zero_lanes(alloc, &layout, REGIONS, pages)?;
    let mut hand = Hand::with_regions(alloc, layout, REGIONS, pages, MOST_FAULTS, lanes)?;
    let times = time_crowd(rt, &mut hand, each, calls);
    let _ = hand.into_lanes();
    times
}

/// Times the steps in so many stripes of so many frames for each of 64 regions, with so many calls of each reader a stripe.
pub fn time_steps<R: Clock>(
    rt: &R,
    alloc: Global,
    each: u32,
    stripes: u32,
    calls: u32,
) -> Result<Times>
    requires some { 1 ≤ each }
    requires few { each ≤ MOST_EACH }
{
    let mut times = time_stripe(rt, alloc, each, calls)?;
    for _ in 1..stripes {
        times.add(&time_stripe(rt, alloc, each, calls)?);
    }
    Ok(times)
}
