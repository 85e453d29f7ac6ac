//! Worked histories of one stripe of three pages of 64 bytes, as tables: each call, and what it answers.
ghost use Rattle.page_base.specs.declared.limits.TheConstants.{MOST_FAULTS};
ghost use Rattle.std.specs.Prelude.{◌≤◌};
ghost use Rattle.store_trait.specs.declared.mem_lane.MemLane.{MemLane};

use crate::hand::{Hand, Shown};
use crate::meanwhile::PLACE;
use crate::memory::zeros;
use page_base::{Key, Layout, List, OutOfMemory, Why};
use page_model::{Cause, Counts, HintAnswer, Next, Pick};
use std::process::Abort;
use std::test::Fail;
use store_trait::{FailLane, MemLane, Store};
use stripe_core::{FrameState, Look, Raise};

/// A call of a hand.
#[derive(Clone, Copy, Debug)]
enum Do {
    Load(u32),
    Save(u32, u8),
    Raise(u32, Why),
    Hint(u32),
    Serve,
    Write(u32, Cause),
    /// A store of this byte comes while the write is out; what it finds is answered.
    WriteAround(u32, u8),
    Evict(u32, Cause),
    Close,
    Unmap,
    Page(u32),
    Frame(u32),
    Pick,
    Oldest,
    Pressure,
    Evicting,
    Quiet,
    Counts,
    Events,
}

/// What is answered.
#[derive(Clone, Copy, Debug, PartialEq, Eq)]
enum Said {
    /// The call may not be made now.
    Refused,
    Done,
    Byte(u8),
    Look(Look),
    Raise(Raise),
    Hint(HintAnswer),
    Next(Next),
    Page(Shown),
    Frame(FrameState),
    Pick(Option<Pick>),
    Bool(bool),
    Counts(Counts),
    Events(u64),
}

const fn page(n: u32) -> Key {
    Key { region: 0, page: n }
}

const MISSING: Said = Said::Page(Shown {
    present: false,
    protected: false,
    dirty: false,
    fault: 0,
});

const MISSING_AFTER_A_FAULT: Said = Said::Page(Shown {
    present: false,
    protected: false,
    dirty: false,
    fault: 1,
});

const CLEAN: Said = Said::Page(Shown {
    present: true,
    protected: true,
    dirty: false,
    fault: 0,
});

const OPEN: Said = Said::Page(Shown {
    present: true,
    protected: false,
    dirty: true,
    fault: 0,
});

const DIRTY: Said = Said::Page(Shown {
    present: true,
    protected: true,
    dirty: true,
    fault: 0,
});

fn done(so: bool) -> Said {
    if so { Said::Done } else { Said::Refused }
}

fn loaded(found: Option<(Look, u8)>) -> Said {
    match found {
        Some((Look::Hit, byte)) => Said::Byte(byte),
        Some((look, _)) => Said::Look(look),
        None => Said::Refused,
    }
}

/// Makes an access or raises a fault.
fn access<S: Store>(hand: &mut Hand<S>, call: Do) -> Option<Said> {
    match call {
        Do::Load(n) => Some(loaded(hand.load(page(n), PLACE))),
        Do::Save(n, byte) => hand.save(page(n), PLACE, byte).map(Said::Look),
        Do::Raise(n, why) => hand.raise(page(n), why).map(Said::Raise),
        Do::Hint(n) => hand.hint(page(n)).map(Said::Hint),
        Do::Serve => hand.serve().map(Said::Next),
        Do::Write(n, why) => Some(done(hand.write(page(n), why, None).is_some())),
        Do::WriteAround(n, byte) => hand
            .write(page(n), Cause::Flush, Some(byte))?
            .map(Said::Look),
        Do::Evict(n, why) => Some(done(hand.evict(page(n), why))),
        Do::Close => Some(done(hand.close(0))),
        Do::Unmap => Some(done(hand.unmap(0))),
        _ => None,
    }
}

/// Reads what the stripe answers of itself.
fn read<S: Store>(hand: &Hand<S>, call: Do) -> Option<Said> {
    match call {
        Do::Page(n) => hand.shown(page(n)).map(Said::Page),
        Do::Frame(i) => hand.frame(i).map(Said::Frame),
        Do::Pick => Some(Said::Pick(hand.stripe().pick())),
        Do::Oldest => Some(Said::Pick(hand.stripe().oldest_of(0))),
        Do::Pressure => Some(Said::Bool(hand.stripe().pressure())),
        Do::Evicting => Some(Said::Bool(hand.stripe().evicting())),
        Do::Quiet => Some(Said::Bool(hand.quiet(0))),
        Do::Counts => Some(Said::Counts(hand.stripe().counts())),
        Do::Events => Some(Said::Events(hand.stripe().events())),
        _ => None,
    }
}

fn answer_to<S: Store>(hand: &mut Hand<S>, call: Do) -> Said {
    if let Some(said) = read(hand, call) {
        return said;
    }
    access(hand, call).unwrap_or(Said::Refused)
}

/// Makes the calls in order. Each must be answered as its row says.
fn play<S: Store>(rt: &impl Abort, hand: &mut Hand<S>, rows: &[(Do, Said)]) {
    for (call, want) in rows {
        assert_eq!(rt; answer_to(hand, *call), *want, "{call:?}");
    }
}

/// A stripe of so many frames, over a lane in memory.
fn in_memory(rt: &HostRuntime, frames: u32, faults: u32) -> Result<Hand<MemLane>, Fail>
    requires some_frame { 1 ≤ frames }
    requires some_fault { 1 ≤ faults }
    requires few_faults { faults ≤ MOST_FAULTS }
{
    let layout = Layout::new(64, 1, frames)?;
    let lane = zeros(rt.alloc(), &layout, 0, 3)?;
    Ok(Hand::new(rt.alloc(), layout, 3, faults, lane)?)
}

#[test]
fn pages_wait_are_read_in_and_are_stored_to(rt: HostRuntime) -> Result<(), Fail> {
    let mut hand = in_memory(&rt, 2, 2)?;
    let rows = [
        (Do::Load(0), Said::Look(Look::Missing)),
        (Do::Save(0, 9), Said::Look(Look::Missing)),
        (Do::Raise(0, Why::Write), Said::Raise(Raise::Raised)),
        (Do::Raise(0, Why::Read), Said::Raise(Raise::Pending)),
        (Do::Raise(1, Why::Read), Said::Raise(Raise::Raised)),
        (Do::Raise(2, Why::Read), Said::Raise(Raise::QueueFull)),
        (Do::Raise(0, Why::Read), Said::Raise(Raise::Pending)),
        (Do::Hint(0), Said::Hint(HintAnswer::Pending)),
        (Do::Hint(2), Said::Hint(HintAnswer::Full)),
        (Do::Serve, Said::Next(Next::Read(page(0)))),
        (Do::Page(0), OPEN),
        (Do::Save(0, 7), Said::Look(Look::Hit)),
        (Do::Load(0), Said::Byte(7)),
        (Do::Hint(0), Said::Hint(HintAnswer::Present)),
        (Do::Hint(2), Said::Hint(HintAnswer::Raised)),
        (Do::Evicting, Said::Bool(false)),
        (Do::Serve, Said::Next(Next::Read(page(1)))),
        (Do::Page(1), CLEAN),
        (Do::Evicting, Said::Bool(true)),
        (Do::Load(1), Said::Byte(0)),
        (Do::Save(1, 5), Said::Look(Look::Protected)),
        (Do::Page(2), MISSING),
        (Do::Serve, Said::Next(Next::Room)),
        (Do::Raise(1, Why::Protected), Said::Raise(Raise::Raised)),
        (Do::Serve, Said::Next(Next::Open(page(1)))),
        (Do::Page(1), OPEN),
        (Do::Save(1, 5), Said::Look(Look::Hit)),
        (Do::Load(0), Said::Byte(7)),
        (Do::Close, Said::Done),
        (Do::Load(0), Said::Look(Look::Closed)),
        (Do::Hint(0), Said::Hint(HintAnswer::Closed)),
    ];
    play(&rt, &mut hand, &rows);
    assert_eq!(rt; hand.into_lanes().len(), 1);
    Ok(())
}

#[test]
fn two_pages_take_turns_in_one_frame(rt: HostRuntime) -> Result<(), Fail> {
    let mut hand = in_memory(&rt, 1, 2)?;
    let dirty = Pick {
        key: page(0),
        dirty: true,
    };
    let rows = [
        (Do::Frame(0), Said::Frame(FrameState::Empty)),
        (Do::Pressure, Said::Bool(false)),
        (Do::Raise(0, Why::Write), Said::Raise(Raise::Raised)),
        (Do::Serve, Said::Next(Next::Read(page(0)))),
        (Do::Save(0, 170), Said::Look(Look::Hit)),
        (Do::Frame(0), Said::Frame(FrameState::Dirty(page(0)))),
        (Do::Raise(1, Why::Read), Said::Raise(Raise::Raised)),
        (Do::Serve, Said::Next(Next::Room)),
        (Do::Pressure, Said::Bool(true)),
        (Do::Pick, Said::Pick(Some(dirty))),
        (Do::Oldest, Said::Pick(Some(dirty))),
        (Do::Evict(0, Cause::Pressure), Said::Refused),
        (Do::Write(0, Cause::Pressure), Said::Done),
        (Do::Frame(0), Said::Frame(FrameState::Clean(page(0)))),
        (Do::Evict(0, Cause::Pressure), Said::Done),
        (Do::Pressure, Said::Bool(false)),
        (Do::Pick, Said::Pick(None)),
        (Do::Serve, Said::Next(Next::Read(page(1)))),
        (Do::Load(1), Said::Byte(0)),
        (Do::Raise(0, Why::Read), Said::Raise(Raise::Raised)),
        (Do::Evict(1, Cause::Pressure), Said::Done),
        (Do::Serve, Said::Next(Next::Read(page(0)))),
        (Do::Load(0), Said::Byte(170)),
        (Do::Events, Said::Events(16)),
        (
            Do::Counts,
            Said::Counts(Counts {
                fills: 3,
                writes: 1,
                evictions: 2,
                faults: 0,
            }),
        ),
    ];
    play(&rt, &mut hand, &rows);
    assert_eq!(rt; hand.into_lanes().len(), 1);
    Ok(())
}

#[test]
fn a_store_that_comes_while_a_write_is_out_isnt_lost(rt: HostRuntime) -> Result<(), Fail> {
    let mut hand = in_memory(&rt, 1, 2)?;
    let rows = [
        (Do::Raise(0, Why::Write), Said::Raise(Raise::Raised)),
        (Do::Serve, Said::Next(Next::Read(page(0)))),
        (Do::Save(0, 1), Said::Look(Look::Hit)),
        (Do::WriteAround(0, 2), Said::Look(Look::Protected)),
        (Do::Page(0), OPEN),
        (Do::Load(0), Said::Byte(2)),
        (Do::Write(0, Cause::Flush), Said::Done),
        (Do::Page(0), CLEAN),
        (Do::Evict(0, Cause::Pressure), Said::Done),
        (Do::Raise(0, Why::Read), Said::Raise(Raise::Raised)),
        (Do::Serve, Said::Next(Next::Read(page(0)))),
        (Do::Load(0), Said::Byte(2)),
    ];
    play(&rt, &mut hand, &rows);
    assert_eq!(rt; hand.into_lanes().len(), 1);
    Ok(())
}

#[test]
fn a_failed_call_of_the_store_loses_nothing(rt: HostRuntime) -> Result<(), Fail> {
    let layout = Layout::new(64, 1, 2)?;
    let lane = zeros(rt.alloc(), &layout, 0, 3)?;
    let first_read = List::from_vec(vec![in rt.alloc(); 1]?);
    let first_write = List::from_vec(vec![in rt.alloc(); 1]?);
    let lane = FailLane::new(lane, first_read, first_write);
    let mut hand = Hand::new(rt.alloc(), layout, 3, 2, lane)?;
    let rows = [
        (Do::Raise(1, Why::Read), Said::Raise(Raise::Raised)),
        (Do::Serve, Said::Next(Next::Read(page(1)))),
        (Do::Page(1), MISSING_AFTER_A_FAULT),
        (Do::Serve, Said::Next(Next::Nothing)),
        (Do::Raise(0, Why::Write), Said::Raise(Raise::Raised)),
        (Do::Serve, Said::Next(Next::Read(page(0)))),
        (Do::Save(0, 6), Said::Look(Look::Hit)),
        (Do::Write(0, Cause::Flush), Said::Done),
        (Do::Page(0), DIRTY),
        (Do::Load(0), Said::Byte(6)),
        (
            Do::Counts,
            Said::Counts(Counts {
                fills: 1,
                writes: 0,
                evictions: 0,
                faults: 2,
            }),
        ),
        (Do::Write(0, Cause::Flush), Said::Done),
        (Do::Page(0), CLEAN),
    ];
    play(&rt, &mut hand, &rows);
    assert_eq!(rt; hand.into_lanes().len(), 1);
    Ok(())
}

#[test]
fn a_closed_region_is_unmapped_once_nothing_of_it_is_left(rt: HostRuntime) -> Result<(), Fail> {
    let mut hand = in_memory(&rt, 3, 2)?;
    let rows = [
        (Do::Raise(0, Why::Write), Said::Raise(Raise::Raised)),
        (Do::Serve, Said::Next(Next::Read(page(0)))),
        (Do::Raise(1, Why::Read), Said::Raise(Raise::Raised)),
        (Do::Serve, Said::Next(Next::Read(page(1)))),
        (Do::Raise(2, Why::Read), Said::Raise(Raise::Raised)),
        (Do::Unmap, Said::Refused),
        (Do::Close, Said::Done),
        (Do::Close, Said::Refused),
        (Do::Serve, Said::Next(Next::Drop(page(2)))),
        (Do::Serve, Said::Next(Next::Nothing)),
        (Do::Quiet, Said::Bool(false)),
        (Do::Unmap, Said::Refused),
        (Do::Write(0, Cause::Unmap), Said::Done),
        (Do::Evict(1, Cause::Unmap), Said::Done),
        (Do::Quiet, Said::Bool(false)),
        (Do::Evict(0, Cause::Unmap), Said::Done),
        (Do::Quiet, Said::Bool(true)),
        (Do::Unmap, Said::Done),
        (Do::Unmap, Said::Refused),
    ];
    play(&rt, &mut hand, &rows);
    assert_eq!(rt; hand.into_lanes().len(), 1);
    Ok(())
}
