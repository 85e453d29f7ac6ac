//! A lane of a region in memory or in a file.
ghost use Rattle.std.specs.Prelude.{◌≡◌, ◌≤◌, IfSome};
ghost use Rattle.region_lanes.specs.InsideClosed.{IsOutOf, IsClosed, FaultShows};

use file_store::{FileLane, Folder, Part};
use store_trait::{MemLane, Store, StoreFault};

/// One stripe's share of a region, wherever the region lies.
#[derive(Drop)]
pub enum AnyLane<P: Part> {
    Memory(MemLane),
    File(FileLane<P>),
}

impl<P: Part> Store for AnyLane<P> {
    ghost use Rattle.std.specs.Prelude.{◌<◌, ◌^◌, length};
    ghost use Rattle.page_base.specs.Lanes.{LaneSeen, told_at};
    ghost use Rattle.store_trait.specs.MemLanes.{lane_origin};
    ghost use Rattle.store_trait.specs.WholePages.{memory_pages_whole};
    ghost use Rattle.store_trait.specs.SmallCounts.{none_is_small};
    ghost use Rattle.file_store.specs.FileLanes.{lane_pages_whole};
    ghost use Rattle.region_lanes.specs.declared.any_lane.AnyLane.TheVariants.{Memory, File};

    ghost seen = { λ s. elim s [ Memory m ↦ ⟦<MemLane as Store>⟧.seen m | File f ↦ ⟦<FileLane<P> as Store>⟧.seen f ] };

    fn read_from_store(&mut self, buf: &mut [u8], off: u64) -> Result<(), StoreFault> {
        match self {
            AnyLane::Memory(lane) => lane.read_from_store(buf, off),
            AnyLane::File(lane) => lane.read_from_store(buf, off),
        }
    }

    fn write_to_store(&mut self, buf: &[u8], off: u64) -> Result<(), StoreFault> {
        match self {
            AnyLane::Memory(lane) => lane.write_to_store(buf, off),
            AnyLane::File(lane) => lane.write_to_store(buf, off),
        }
    }

    fn faults(&self) -> u64 {
        match self {
            AnyLane::Memory(lane) => lane.faults(),
            AnyLane::File(lane) => lane.faults(),
        }
    }

    ghost whole_pages = { λ s page. elim s as (λ k. let l : LaneSeen = elim k [ Memory m ↦ ⟦<MemLane as Store>⟧.seen m | File f ↦ ⟦<FileLane<P> as Store>⟧.seen f ] in IfSome (told_at l.told page) (λ bytes. length bytes ≡ l.origin.page_size)) [ Memory m ↦ memory_pages_whole (lane_origin m) m.kept.items m.reaches page | File f ↦ lane_pages_whole (P.seen f.part) f.striped page (P.whole_pieces f.part page) ] };

    ghost small_count = { λ s. elim s as (λ k. let l : LaneSeen = elim k [ Memory m ↦ ⟦<MemLane as Store>⟧.seen m | File f ↦ ⟦<FileLane<P> as Store>⟧.seen f ] in l.count < 2 ^ 64) [ Memory m ↦ none_is_small | File f ↦ P.small_count f.part ] };
}

/// Closes a lane. It takes no memory.
pub(crate) fn close_lane<F: Folder>(folder: &mut F, lane: AnyLane<F::Part>)
    requires out { IsOutOf (⟦<AnyLane<F::Part> as Store>⟧.seen lane) (F.seen folder.old) }
    ensures closed { IsClosed F.seen folder.old folder.new (⟦<AnyLane<F::Part> as Store>⟧.seen lane) }
    ensures later { (F.seen folder.old).count ≤ (F.seen folder.new).count }
    ensures faults { FaultShows F.seen folder.old folder.new (⟦<AnyLane<F::Part> as Store>⟧.seen lane) }
{
    match lane {
        AnyLane::Memory(_) => {}
        AnyLane::File(lane) => folder.close_part(lane.into_part()),
    }
}
