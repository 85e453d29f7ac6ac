//! Loads, stores and services of one thread, by their answers and by the entries that they make.
ghost use Rattle.std.specs.Prelude.{◌≡◌, ◌≤◌, ◌^◌};
ghost use Rattle.store_trait.specs.Memory.{memory_origin};

use case_tools::{Row, Rows, Shared, failing_memory_lane, memory_lane, open_shared};
use page_base::{Key, Layout};
use region_table::RegionFault;
use std::alloc::Global;
use std::process::Abort;
use std::test::Fail;
use store_trait::Store;
use umap_pager::{Access, Back, Served};

fn page(page: u32) -> Key {
    Key { region: 0, page }
}

/// A pager over a lane of two pages, whose pass may make so many holds.
fn shared<S: Store + Drop>(
    alloc: Global,
    layout: Layout,
    lane: S,
    writable: bool,
    holds: u64,
) -> Result<Shared<S, Rows>, RegionFault>
    requires page_size { layout.page_size ≡ 64 }
    requires stripes { layout.stripes ≡ 1 }
    requires lane { (S.seen lane).origin ≡ memory_origin 0 2 64 1 0 }
    requires holds { (2 ≤ holds) × (holds ≤ 2 ^ 40) }
{
    open_shared(alloc, layout, 2, lane, Rows::new(alloc), writable, holds)
}

/// Closes the pager, and compares what its stripe's journal has noted.
fn ends_with<S: Store + Drop>(
    rt: &impl Abort,
    pager: Shared<S, Rows>,
    entries: &[Row],
) -> Result<(), Fail> {
    let (_lanes, journals) = pager.end();
    let journal = journals.into_vec().pop().ok_or("no journal")?;
    assert_eq!(rt; journal.as_slice(), entries);
    Ok(())
}

#[test]
fn two_pages_take_turns_in_one_frame(rt: HostRuntime) -> Result<(), Fail> {
    let layout = Layout::new(64, 1, 1)?;
    let lane = memory_lane(rt.alloc(), &layout)?;
    let mut pager = shared(rt.alloc(), layout, lane, true, 1000)?;
    assert_eq!(rt; pager.byte(&rt, 5), Ok(7));
    assert_eq!(rt; pager.store(&rt, 5, &[9]), Ok(()));
    assert_eq!(rt; pager.byte(&rt, 64), Ok(7));
    assert_eq!(rt; pager.byte(&rt, 5), Ok(9));
    let entries = [
        Row::of("raised", 0),
        Row::of("start read", 0),
        Row::of("filled", 0),
        Row::of("load", 0).number(5).last(7),
        Row::of("raised", 0),
        Row::of("opened", 0),
        Row::of("save", 0).number(5).last(9),
        Row::of("raised", 1),
        Row::of("start write", 0),
        Row::of("written", 0).number(8).last(7),
        Row::of("evicted", 0),
        Row::of("start read", 1),
        Row::of("filled", 1),
        Row::of("load", 1).last(7),
        Row::of("raised", 0),
        Row::of("evicted", 1),
        Row::of("start read", 0),
        Row::of("filled", 0),
        Row::of("load", 0).number(5).last(9),
    ];
    ends_with(&rt, pager, &entries)
}

#[test]
fn an_access_over_a_page_border_is_done_piece_by_piece(rt: HostRuntime) -> Result<(), Fail> {
    let layout = Layout::new(64, 1, 1)?;
    let lane = memory_lane(rt.alloc(), &layout)?;
    let mut pager = shared(rt.alloc(), layout, lane, true, 1000)?;
    let mut buf = [0u8; 4];
    assert_eq!(rt; pager.store(&rt, 62, &[1, 2, 3, 4]), Ok(()));
    assert_eq!(rt; pager.load(&rt, 62, &mut buf), Ok(()));
    assert_eq!(rt; buf, [1, 2, 3, 4]);
    let (_lanes, _journals) = pager.end();
    Ok(())
}

#[test]
fn a_read_that_fails_is_told_once(rt: HostRuntime) -> Result<(), Fail> {
    let layout = Layout::new(64, 1, 1)?;
    let lane = failing_memory_lane(rt.alloc(), &layout, &[1], &[])?;
    let mut pager = shared(rt.alloc(), layout, lane, true, 1000)?;
    let fault = Access::StoreFault {
        key: page(0),
        faults: 1,
    };
    assert_eq!(rt; pager.byte(&rt, 0), Err(fault));
    assert_eq!(rt; pager.byte(&rt, 0), Ok(7));
    let (_lanes, _journals) = pager.end();
    Ok(())
}

#[test]
fn writes_that_fail_leave_both_pages(rt: HostRuntime) -> Result<(), Fail> {
    let layout = Layout::new(64, 1, 1)?;
    let lane = failing_memory_lane(rt.alloc(), &layout, &[], &[1, 2])?;
    let mut pager = shared(rt.alloc(), layout, lane, true, 1000)?;
    let fault = Access::StoreFault {
        key: page(0),
        faults: 1,
    };
    assert_eq!(rt; pager.store(&rt, 0, &[9]), Ok(()));
    assert_eq!(rt; pager.byte(&rt, 64), Err(fault));
    assert_eq!(rt; pager.byte(&rt, 0), Ok(9));
    assert_eq!(rt; pager.make_room(&rt), Some(Back::WriteFailed(page(0), 2)));
    assert_eq!(rt; pager.make_room(&rt), Some(Back::Written(page(0))));
    assert_eq!(rt; pager.make_room(&rt), Some(Back::Evicted(page(0))));
    assert_eq!(rt; pager.make_room(&rt), Some(Back::Nothing));
    let (_lanes, _journals) = pager.end();
    Ok(())
}

#[test]
fn ranges_and_read_only_regions_are_refused_first(rt: HostRuntime) -> Result<(), Fail> {
    let layout = Layout::new(64, 1, 1)?;
    let lane = memory_lane(rt.alloc(), &layout)?;
    let mut pager = shared(rt.alloc(), layout, lane, false, 1000)?;
    let mut buf = [5u8; 128];
    let none: [u8; 0] = [];
    assert_eq!(rt; pager.load(&rt, 128, &mut buf), Err(Access::OutOfRange));
    assert_eq!(rt; pager.load(&rt, 1, &mut buf), Err(Access::OutOfRange));
    assert_eq!(rt; pager.byte(&rt, u64::MAX), Err(Access::OutOfRange));
    assert_eq!(rt; buf[0], 5);
    assert_eq!(rt; pager.load(&rt, 128, &mut []), Ok(()));
    assert_eq!(rt; pager.store(&rt, 127, &[1, 2]), Err(Access::OutOfRange));
    assert_eq!(rt; pager.store(&rt, 127, &[1]), Err(Access::ReadOnly));
    assert_eq!(rt; pager.store(&rt, 128, &none), Err(Access::ReadOnly));
    assert_eq!(rt; pager.left(), 1000);
    ends_with(&rt, pager, &[])
}

#[test]
fn a_pass_is_spent_before_two_holds_are_left(rt: HostRuntime) -> Result<(), Fail> {
    let all = [
        Row::of("raised", 0),
        Row::of("start read", 0),
        Row::of("filled", 0),
        Row::of("load", 0).last(7),
    ];
    let rows = [
        (2, Err(Access::PassSpent), 1, &all[..1]),
        (3, Err(Access::PassSpent), 0, &all[..3]),
        (4, Err(Access::PassSpent), 1, &all[..3]),
        (5, Ok(7), 1, &all[..4]),
    ];
    for (holds, answer, left, entries) in rows {
        let layout = Layout::new(64, 1, 1)?;
        let lane = memory_lane(rt.alloc(), &layout)?;
        let mut pager = shared(rt.alloc(), layout, lane, true, holds)?;
        assert_eq!(rt; pager.byte(&rt, 0), answer);
        assert_eq!(rt; pager.left(), left);
        ends_with(&rt, pager, entries)?;
    }
    Ok(())
}

#[test]
fn a_spent_pass_serves_nothing(rt: HostRuntime) -> Result<(), Fail> {
    let layout = Layout::new(64, 1, 1)?;
    let lane = memory_lane(rt.alloc(), &layout)?;
    let mut pager = shared(rt.alloc(), layout, lane, true, 3)?;
    assert_eq!(rt; pager.serve(&rt), Some(Served::Nothing));
    assert_eq!(rt; pager.make_room(&rt), Some(Back::Nothing));
    assert_eq!(rt; (pager.serve(&rt), pager.make_room(&rt)), (None, None));
    let (_lanes, _journals) = pager.end();
    Ok(())
}
