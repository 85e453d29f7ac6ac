//! The lanes of a workload whose regions are kept in memory, all zeros at first.
ghost use Rattle.std.specs.Prelude.{◌≡◌, ◌<◌, ◌≤◌, ◌*◌, ◌/◌, [], true, map, length, replicate, IfOk, OnOk};
ghost use Rattle.page_base.specs.declared.limits.TheConstants.{MOST_REGIONS};
ghost use Rattle.store_trait.specs.MemLanes.{lane_seen};
ghost use Rattle.workload_text.specs.declared.limits.TheConstants.{MOST_MEMORY_BYTES};
ghost use Rattle.workload_text.specs.View.{region, lines_of};
ghost use Rattle.workload_text.specs.Built.{is_in_memory};
ghost use Rattle.workload_text.specs.Accepted.{IsRunnable, regions_of};
ghost use Rattle.script_run.specs.Serial.{zeros_of};
ghost use Rattle.script_run.specs.Contents.{rows_in, rows_seen, contents_of};
ghost use Rattle.script_run.specs.Fits.{LanesFit, has_whole_pages};
ghost use Rattle.script_run.specs.InsideZeros.{AreSmall, PutsLanes, AreZeroLanes, AreZeroRowsOf};

use crate::settings::Settings;
use page_base::{Bytes, Layout, List, OutOfMemory};
use std::alloc::Global;
use store_trait::{LaneSet, MemLane, MemStore};
use workload_text::{MapLine, Workload};

/// So many stripes without a lane.
fn empty_rows(alloc: Global, stripes: usize) -> Result<Vec<List<MemLane>>, OutOfMemory>
    ensures { IfOk result (λ rows. rows_in rows.items ≡ replicate stripes []) }
{
    let mut rows = List::new(alloc);
    rows.reserve(stripes)?;
    'stripes: while rows.len() < stripes {
        rows.put(List::new(alloc));
    }
    Ok(rows.into_vec())
}

/// Puts each stripe's lane of one more region behind the stripe's lanes.
fn put_lanes(rows: &mut [List<MemLane>], mut lanes: Vec<MemLane>) -> Result<(), OutOfMemory>
    requires { length lanes.items ≡ length rows.old }
    ensures { OnOk result (PutsLanes (map lane_seen lanes.items) (rows_in rows.old) (rows_in rows.new)) }
{
    'lanes: while let Some(lane) = lanes.pop() {
        let row = &mut rows[lanes.len()];
        row.reserve(1)?;
        row.put(lane);
    }
    Ok(())
}

/// The lanes of one region of so many zeros.
fn zero_lanes(
    alloc: Global,
    layout: &Layout,
    region: u16,
    bytes: usize,
) -> Result<List<MemLane>, OutOfMemory>
    requires some { 0 < bytes }
    requires whole { bytes ≡ bytes / layout.now.page_size * layout.now.page_size }
    requires small { bytes ≤ MOST_MEMORY_BYTES }
    ensures { IfOk result (λ lanes. AreZeroLanes layout.now region bytes lanes.items) }
{
    let Ok(zeros) = vec![in alloc; 0u8; bytes] else {
        return Err(OutOfMemory);
    };
    let store = MemStore::new(Bytes::from_vec(zeros), layout.page_size());
    match store.split(layout, region) {
        Ok(lanes) => Ok(lanes),
        Err(_) => Err(OutOfMemory),
    }
}

/// Puts the lanes of the regions into rows without a lane, region by region.
fn put_regions(
    alloc: Global,
    layout: &Layout,
    maps: &[MapLine],
    rows: &mut [List<MemLane>],
) -> Result<(), OutOfMemory>
    requires few { length maps.now ≤ MOST_REGIONS }
    requires small { AreSmall layout.now.page_size (map region maps.now) }
    requires empty { rows_in rows.old ≡ replicate layout.now.stripes [] }
    ensures { OnOk result (AreZeroRowsOf layout.now maps.now rows.new) }
{
    for i in 0..maps.len() {
        let lanes = zero_lanes(alloc, layout, i as u16, maps[i].length as usize)?;
        put_lanes(rows, lanes.into_vec())?;
    }
    Ok(())
}

/// For each stripe its lanes, one for each region.
fn zero_rows(
    alloc: Global,
    layout: &Layout,
    maps: &[MapLine],
) -> Result<Vec<List<MemLane>>, OutOfMemory>
    requires few { length maps.now ≤ MOST_REGIONS }
    requires small { AreSmall layout.now.page_size (map region maps.now) }
    ensures { IfOk result (λ rows. AreZeroRowsOf layout.now maps.now rows.items) }
{
    let mut rows = empty_rows(alloc, layout.stripes() as usize)?;
    put_regions(alloc, layout, maps, rows.as_mut_slice())?;
    Ok(rows)
}

/// One lane for each stripe and region of a workload, over zeros.
pub fn memory_lanes(
    alloc: Global,
    settings: &Settings,
    workload: &Workload,
) -> Result<LaneSet<MemLane>, OutOfMemory>
    requires runnable { IsRunnable (lines_of workload.now) }
    requires memory { is_in_memory (lines_of workload.now) ≡ true }
    requires whole { has_whole_pages settings.now.layout.page_size (regions_of (lines_of workload.now)) ≡ true }
    ensures fit { IfOk result (λ lanes. LanesFit settings.now (lines_of workload.now) (rows_seen lanes)) }
    ensures zeros { IfOk result (λ lanes. contents_of (rows_seen lanes) ≡ zeros_of (lines_of workload.now)) }
{
    let rows = zero_rows(alloc, &settings.layout, workload.maps.as_slice())?;
    Ok(LaneSet {
        stripes: List::from_vec(rows),
    })
}
