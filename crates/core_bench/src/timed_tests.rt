//! What is timed does what it says, at a small size.
ghost use Rattle.std.specs.Prelude.{◌≤◌, ◌*◌};
ghost use Rattle.page_base.specs.declared.limits.TheConstants.{MOST_PAGES, MOST_REGIONS};
ghost use Rattle.store_trait.specs.declared.mem_lane.MemLane.{MemLane};

use crate::fills::{byte_of, go_round, stain, time_fills};
use crate::flushes::{time_flushes, write_dirty};
use crate::hand::Hand;
use crate::meanwhile::PLACE;
use crate::memory::{zero_lanes, zeros};
use crate::rounds::time_accesses;
use crate::steps::{Unmaps, time_steps};
use page_base::{Key, Layout};
use page_model::{Cause, Counts};
use std::test::Fail;
use store_trait::MemLane;
use stripe_core::Look;

const fn page(region: u16, n: u32) -> Key {
    Key { region, page: n }
}

/// A stripe of two frames with four pages, which take turns in them.
fn crowded(rt: &HostRuntime) -> Result<Hand<MemLane>, Fail> {
    let layout = Layout::new(64, 1, 2)?;
    let lane = zeros(rt.alloc(), &layout, 0, 4)?;
    Ok(Hand::new(rt.alloc(), layout, 4, 1, lane)?)
}

#[test]
fn pages_that_left_dirty_are_in_the_store(rt: HostRuntime) -> Result<(), Fail> {
    let mut hand = crowded(&rt)?;
    assert_eq!(rt; go_round(&mut hand, 4, 0, 6, true), 6);
    let counts = Counts {
        fills: 6,
        writes: 4,
        evictions: 4,
        faults: 0,
    };
    assert_eq!(rt; hand.stripe().counts(), counts);
    for n in 2..4 {
        assert!(rt; hand.shown(page(0, n)).is_some_and(|shown| !shown.present));
        assert_eq!(rt; go_round(&mut hand, 4, n, 1, false), 1);
        assert_eq!(rt; hand.load(page(0, n), PLACE), Some((Look::Hit, byte_of(n))));
    }
    assert_eq!(rt; hand.into_lanes().len(), 1);
    Ok(())
}

#[test]
fn pages_that_left_clean_are_not_written(rt: HostRuntime) -> Result<(), Fail> {
    let mut hand = crowded(&rt)?;
    assert_eq!(rt; go_round(&mut hand, 4, 3, 6, false), 6);
    let counts = Counts {
        fills: 6,
        writes: 0,
        evictions: 4,
        faults: 0,
    };
    assert_eq!(rt; hand.stripe().counts(), counts);
    assert_eq!(rt; hand.load(page(0, 0), PLACE), Some((Look::Hit, 0)));
    assert_eq!(rt; hand.into_lanes().len(), 1);
    Ok(())
}

#[test]
fn last_writes_write_each_dirty_page_once(rt: HostRuntime) -> Result<(), Fail> {
    let layout = Layout::new(64, 1, 4)?;
    let lane = zeros(rt.alloc(), &layout, 0, 4)?;
    let mut hand = Hand::new(rt.alloc(), layout, 4, 1, lane)?;
    assert!(rt; stain(&mut hand, page(0, 3)));
    assert!(rt; stain(&mut hand, page(0, 0)));
    assert_eq!(rt; go_round(&mut hand, 4, 1, 1, false), 1);
    assert_eq!(rt; write_dirty(&mut hand, 9), 2);
    assert_eq!(rt; hand.stripe().counts().writes, 2);
    assert_eq!(rt; hand.stripe().next_dirty(None), None);
    assert_eq!(rt; write_dirty(&mut hand, 9), 0);
    assert_eq!(rt; hand.into_lanes().len(), 1);
    Ok(())
}

#[test]
fn clean_pages_of_closing_regions_leave(rt: HostRuntime) -> Result<(), Fail> {
    let layout = Layout::new(64, 1, 8)?;
    let lanes = zero_lanes(rt.alloc(), &layout, 4, 2)?;
    let mut hand = Hand::with_regions(rt.alloc(), layout, 4, 2, 1, lanes)?;
    for region in 0..4 {
        assert!(rt; stain(&mut hand, page(region, 1)));
        assert!(rt; stain(&mut hand, page(region, 0)));
    }
    assert!(rt; hand.write(page(0, 0), Cause::Flush, None).is_some());
    assert!(rt; hand.write(page(0, 1), Cause::Flush, None).is_some());
    assert!(rt; hand.write(page(2, 0), Cause::Flush, None).is_some());
    assert!(rt; hand.close(0));
    assert!(rt; hand.close(1));
    let mut unmaps = Unmaps::new(&rt, 2);
    assert!(rt; hand.write_while(page(3, 0), Cause::Flush, &mut unmaps));
    assert_eq!(rt; unmaps.left, 2);
    assert!(rt; unmaps.nanos.is_some());
    assert_eq!(rt; hand.stripe().resident(), 6);
    assert!(rt; hand.unmap(0));
    assert!(rt; !hand.unmap(1));
    assert_eq!(rt; hand.into_lanes().len(), 4);
    Ok(())
}

#[test]
fn as_many_calls_are_timed_as_are_said(rt: HostRuntime) -> Result<(), Fail> {
    assert!(rt; time_accesses(&rt, rt.alloc(), 4096, 64, 2, false).is_ok());
    assert!(rt; time_fills(&rt, rt.alloc(), 2, 5).is_ok());
    assert!(rt; time_flushes(&rt, rt.alloc(), 5).is_ok());
    let times = time_steps(&rt, rt.alloc(), 2, 2, 3)?;
    assert_eq!(rt; times.picks.calls, 6);
    assert_eq!(rt; times.nexts.calls, 6);
    assert_eq!(rt; times.lost.calls, 2);
    // Half of the regions have two pages each, of which the oldest left for another measurement.
    assert_eq!(rt; times.unmaps.calls, 126);
    Ok(())
}
