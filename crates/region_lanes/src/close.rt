//! All lanes closed. It takes no memory.
ghost use Rattle.std.specs.Prelude.{◌≤◌, map};
ghost use Rattle.region_lanes.specs.Closings.{AreAllOut, AreClosed, FaultsShow, flat_lanes};
ghost use Rattle.region_lanes.specs.InsideClosed.{flat_rows};

use crate::any_lane::{AnyLane, close_lane};
use file_store::Folder;
use page_base::List;
use store_trait::{LaneSet, Store};

fn close_row<F: Folder>(folder: &mut F, mut lanes: Vec<AnyLane<F::Part>>)
    requires out { AreAllOut (map ⟦<AnyLane<F::Part> as Store>⟧.seen lanes.items) (F.seen folder.old) }
    ensures closed { AreClosed F.seen folder.old folder.new (map ⟦<AnyLane<F::Part> as Store>⟧.seen lanes.items) }
    ensures later { (F.seen folder.old).count ≤ (F.seen folder.new).count }
    ensures faults { FaultsShow F.seen folder.old folder.new (map ⟦<AnyLane<F::Part> as Store>⟧.seen lanes.items) }
{
    'lanes: while !lanes.is_empty() {
        let lane = lanes.remove(0);
        close_lane(folder, lane);
    }
}

fn close_list<F: Folder>(folder: &mut F, lanes: List<AnyLane<F::Part>>)
    requires out { AreAllOut (map ⟦<AnyLane<F::Part> as Store>⟧.seen lanes.items) (F.seen folder.old) }
    ensures closed { AreClosed F.seen folder.old folder.new (map ⟦<AnyLane<F::Part> as Store>⟧.seen lanes.items) }
    ensures later { (F.seen folder.old).count ≤ (F.seen folder.new).count }
    ensures faults { FaultsShow F.seen folder.old folder.new (map ⟦<AnyLane<F::Part> as Store>⟧.seen lanes.items) }
{
    close_row(folder, lanes.into_vec());
}

/// Closes the lanes of some stripes, one stripe after another.
pub(crate) fn close_rows<F: Folder>(folder: &mut F, mut rows: Vec<List<AnyLane<F::Part>>>)
    requires out { AreAllOut (flat_rows ⟦<AnyLane<F::Part> as Store>⟧.seen rows.items) (F.seen folder.old) }
    ensures closed { AreClosed F.seen folder.old folder.new (flat_rows ⟦<AnyLane<F::Part> as Store>⟧.seen rows.items) }
    ensures later { (F.seen folder.old).count ≤ (F.seen folder.new).count }
    ensures faults { FaultsShow F.seen folder.old folder.new (flat_rows ⟦<AnyLane<F::Part> as Store>⟧.seen rows.items) }
{
    'rows: while !rows.is_empty() {
        let row = rows.remove(0);
        close_list(folder, row);
    }
}

/// Closes the lanes of all stripes: each told file holds then what its lanes told. The folder's count rises where a call of
/// a lane failed. It takes no memory.
pub fn close_lanes<F: Folder>(folder: &mut F, lanes: LaneSet<AnyLane<F::Part>>)
    requires out { AreAllOut (flat_lanes ⟦<AnyLane<F::Part> as Store>⟧.seen lanes) (F.seen folder.old) }
    ensures closed { AreClosed F.seen folder.old folder.new (flat_lanes ⟦<AnyLane<F::Part> as Store>⟧.seen lanes) }
    ensures later { (F.seen folder.old).count ≤ (F.seen folder.new).count }
    ensures faults { FaultsShow F.seen folder.old folder.new (flat_lanes ⟦<AnyLane<F::Part> as Store>⟧.seen lanes) }
{
    close_rows(folder, lanes.stripes.into_vec());
}
