//! The lanes of all regions of a workload, opened in order.
ghost use Rattle.std.specs.Prelude.{◌≡◌, ◌+◌, ◌≤◌, ℕ, [], true, length, map, replicate, IfOk, IfErr, OnErr};
ghost use Rattle.page_base.specs.declared.limits.TheConstants.{MOST_REGIONS};
ghost use Rattle.file_store.specs.Parts.{WhereTold};
ghost use Rattle.serial_pager.specs.Pagers.{rows_by};
ghost use Rattle.workload_text.specs.View.{lines_of};
ghost use Rattle.script_run.specs.Fits.{LanesFit};
ghost use Rattle.script_run.specs.RegionRules.{named_region};
ghost use Rattle.script_run.specs.Tables.{regions_seen};
ghost use Rattle.region_lanes.specs.Laws.{AreApart};
ghost use Rattle.region_lanes.specs.Regions.{CanBeOpened, NoPartIsOut, AreOpenedFor, AreTakenOut, OfLanes, StopsRightly};
ghost use Rattle.region_lanes.specs.Regions.{HasStopCause, IsAsBefore};
ghost use Rattle.region_lanes.specs.InsideOpened.{AreGood, HaveRoom, PutsRegionLanes, OfRows, OpensSome, StopsOn};

use crate::any_lane::AnyLane;
use crate::close::close_rows;
use crate::region::open_region;
use file_store::{Folder, FolderFault, Part};
use page_base::{Layout, List, OutOfMemory};
use script_run::Settings;
use script_run::laws::regions_are_maps;
use std::alloc::Global;
use store_trait::{LaneSet, Store};
use thiserror::Error;
use workload_text::{MapLine, Workload};

/// The first region in order whose opening was refused, and that refusal. A refusal for want of memory is tied to no region.
#[derive(Clone, Copy, Debug, PartialEq, Eq, Error)]
#[error("region {region}: {fault}")]
pub struct LaneStop {
    pub region: u16,
    pub fault: FolderFault,
}

/// A stripe without a lane, with room for so many.
fn empty_row<S: Store + Drop>(alloc: Global, regions: usize) -> Result<List<S>, OutOfMemory>
    ensures empty { IfOk result (λ row. row.items ≡ []) }
    ensures room { IfOk result (λ row. regions ≤ row.spare) }
{
    let mut row = List::new(alloc);
    row.reserve(regions)?;
    Ok(row)
}

/// So many stripes without a lane, each with room for so many.
fn empty_rows<S: Store + Drop>(
    alloc: Global,
    stripes: usize,
    regions: usize,
) -> Result<Vec<List<S>>, OutOfMemory>
    ensures empty { IfOk result (λ rows. rows_by S.seen rows.items ≡ replicate stripes []) }
    ensures room { IfOk result (λ rows. HaveRoom regions rows.items) }
{
    let mut rows = List::new(alloc);
    rows.reserve(stripes)?;
    'stripes: while rows.len() < stripes {
        let row = empty_row(alloc, regions)?;
        rows.put(row);
    }
    Ok(rows.into_vec())
}

/// Puts each stripe's lane of one more region behind the stripe's lanes, which have room for it.
fn put_lanes<S: Store + Drop>(rows: &mut [List<S>], mut lanes: Vec<S>)
    requires each { length lanes.items ≡ length rows.old }
    requires room { HaveRoom 1 rows.old }
    ensures puts { PutsRegionLanes (map S.seen lanes.items) (rows_by S.seen rows.old) (rows_by S.seen rows.new) }
    ensures room { (more : ℕ) → HaveRoom (more + 1) rows.old → HaveRoom more rows.new }
{
    'lanes: while let Some(lane) = lanes.pop() {
        let row = &mut rows[lanes.len()];
        row.put(lane);
    }
}

/// Opens the regions in order and puts their lanes into rows without a lane, up to the first region that refuses.
fn open_regions<F: Folder>(
    alloc: Global,
    layout: &Layout,
    lines: &[MapLine],
    folder: &mut F,
    rows: &mut [List<AnyLane<F::Part>>],
) -> Result<(), LaneStop>
    requires few { length lines.now ≤ MOST_REGIONS }
    requires good { AreGood layout.now.page_size (map named_region lines.now) }
    requires none_out { NoPartIsOut (F.seen folder.old) }
    requires empty { rows_by ⟦<AnyLane<F::Part> as Store>⟧.seen rows.old ≡ replicate layout.now.stripes [] }
    requires room { HaveRoom (length lines.now) rows.old }
    ensures opens { OfRows ⟦<AnyLane<F::Part> as Store>⟧.seen
        (OpensSome layout.now lines.now result (F.seen folder.old) (F.seen folder.new)) rows.new }
    ensures later { (F.seen folder.old).count ≤ (F.seen folder.new).count }
    ensures stop { IfErr result (StopsOn lines.now (F.seen folder.old) (F.seen folder.new)) }
{
    for i in 0..lines.len() {
        match open_region(alloc, folder, layout, i as u16, &lines[i]) {
            Ok(lanes) => put_lanes(rows, lanes.into_vec()),
            Err(fault) => {
                return Err(LaneStop {
                    region: i as u16,
                    fault,
                });
            }
        }
    }
    Ok(())
}

/// Opens the lanes of a workload's regions, in order: for each stripe one lane a region, over zeros in memory or over the
/// first bytes of the region's file. The first region that refuses stops it; then no part of the folder is out, and each file
/// is as before.
pub fn open_lanes<F: Folder>(
    alloc: Global,
    settings: &Settings,
    workload: &Workload,
    folder: &mut F,
) -> Result<LaneSet<AnyLane<F::Part>>, LaneStop>
    requires regions { CanBeOpened settings.now.layout.page_size (lines_of workload.now) }
    requires none_out { NoPartIsOut (F.seen folder.old) }
    ensures fit { IfOk result (OfLanes ⟦<AnyLane<F::Part> as Store>⟧.seen
        (LanesFit settings.now (lines_of workload.now))) }
    ensures opened { IfOk result (OfLanes ⟦<AnyLane<F::Part> as Store>⟧.seen
        (AreOpenedFor (F.seen folder.old) settings.now (lines_of workload.now))) }
    ensures out { IfOk result (OfLanes ⟦<AnyLane<F::Part> as Store>⟧.seen
        (AreTakenOut (F.seen folder.old) (F.seen folder.new))) }
    ensures later { (F.seen folder.old).count ≤ (F.seen folder.new).count }
    ensures stop { IfErr result (StopsRightly (F.seen folder.old) (lines_of workload.now)) }
    ensures cause { IfErr result (HasStopCause (F.seen folder.old) (F.seen folder.new)) }
    ensures back { OnErr result (IsAsBefore (F.seen folder.old) (F.seen folder.new)) }
{
    regions_are_maps();
    let lines = workload.maps.as_slice();
    let stripes = settings.layout.stripes() as usize;
    let Ok(mut rows) = empty_rows(alloc, stripes, lines.len()) else {
        return Err(LaneStop {
            region: 0,
            fault: FolderFault::OutOfMemory,
        });
    };
    match open_regions(alloc, &settings.layout, lines, folder, rows.as_mut_slice()) {
        Ok(()) => Ok(LaneSet {
            stripes: List::from_vec(rows),
        }),
        Err(stop) => {
            close_rows(folder, rows);
            Err(stop)
        }
    }
}
