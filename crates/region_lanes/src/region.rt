//! The lanes of one region, just opened.
ghost use Rattle.std.specs.Prelude.{◌≡◌, ◌≤◌, ◌*◌, ◌/◌, ◌<◌, false, [], map, vec_len, IfSome, IfOk, OnOk, OnErr, All};
ghost use Rattle.page_base.specs.declared.limits.TheConstants.{MOST_PAGES};
ghost use Rattle.file_store.specs.Shelves.{any_out};
ghost use Rattle.file_store.specs.FileLanes.{lane_of};
ghost use Rattle.file_store.specs.Folders.{AreOut, OfFile, TellsMissing, HasFolderCause, need_of, stripe_names};
ghost use Rattle.script_run.specs.RegionRules.{named_region};
ghost use Rattle.region_lanes.specs.Regions.{is_folder};
ghost use Rattle.region_lanes.specs.InsideOpened.{IsStriped, AreFileLanes, AreZeroShares, AreOpenedHere, HasGoodSize};
ghost use Rattle.region_lanes.specs.InsideOpened.{cut_of, names_of, NoneOutOf, ShowsOpening, OfRow, seen_in};

use crate::any_lane::AnyLane;
use file_store::{Cut, FileLane, Folder, FolderFault, Part};
use page_base::{Bytes, Layout, List, OutOfMemory};
use std::alloc::Global;
use store_trait::{MemLane, MemStore, Store};
use workload_text::{MapLine, StoreKind};

/// Lanes over the parts, in order. `lanes` is an empty list with room for them.
fn lanes_over<P: Part + Drop>(mut lanes: List<AnyLane<P>>, mut parts: Vec<P>) -> List<AnyLane<P>>
    requires empty { lanes.items ≡ [] }
    requires room { vec_len parts ≤ lanes.spare }
    requires striped { All (λ p. IsStriped (P.seen p)) parts.items }
    ensures { seen_in ⟦<AnyLane<P> as Store>⟧.seen result ≡ map (λ p. lane_of (P.seen p)) parts.items }
{
    'parts: while !parts.is_empty() {
        let part = parts.remove(0);
        lanes.put(AnyLane::File(FileLane::new(part)));
    }
    lanes
}

/// Opens the lanes of a region that lies in one file, one for each stripe. After a refusal no part of the file is out.
fn open_file<F: Folder>(
    alloc: Global,
    folder: &mut F,
    path: &Bytes,
    cut: &Cut,
) -> Result<List<AnyLane<F::Part>>, FolderFault>
    requires none_out { IfSome (F.seen folder.old).told (λ s. any_out path.now.items s.out ≡ false) }
    ensures lanes { IfOk result (OfRow ⟦<AnyLane<F::Part> as Store>⟧.seen
        (AreFileLanes (F.seen folder.old) path.now.items cut.now)) }
    ensures out { OnOk result (AreOut (stripe_names path.now.items cut.now) (F.seen folder.old) (F.seen folder.new)) }
    ensures err { OnErr result ((F.seen folder.new).told ≡ (F.seen folder.old).told) }
    ensures missing { OfFile (F.seen folder.old) path.now.items (λ file. TellsMissing file (need_of cut.now) result) }
    ensures cause { HasFolderCause (F.seen folder.old).count (F.seen folder.new).count result }
{
    let mut lanes = List::new(alloc);
    if lanes.reserve(cut.layout.stripes() as usize).is_err() {
        return Err(FolderFault::OutOfMemory);
    }
    match folder.open_striped(path, cut) {
        Ok(parts) => Ok(lanes_over(lanes, parts.into_vec())),
        Err(fault) => Err(fault),
    }
}

/// So many zeros in memory, cut into lanes.
fn zero_lanes(
    alloc: Global,
    layout: &Layout,
    region: u16,
    bytes: usize,
) -> Result<List<MemLane>, OutOfMemory>
    requires some { 0 < bytes }
    requires whole { bytes ≡ bytes / layout.now.page_size * layout.now.page_size }
    requires few { bytes / layout.now.page_size ≤ MOST_PAGES }
    ensures { IfOk result (OfRow ⟦<MemLane as Store>⟧.seen (AreZeroShares layout.now region bytes)) }
{
    let Ok(zeros) = vec![in alloc; 0u8; bytes] else {
        return Err(OutOfMemory);
    };
    let store = MemStore::new(Bytes::from_vec(zeros), layout.page_size());
    match store.split(layout, region) {
        Ok(lanes) => Ok(lanes),
        Err(_) => Err(OutOfMemory),
    }
}

/// The same lanes, as lanes of any region. `lanes` is an empty list with room for them.
fn lanes_in_memory<P: Part>(mut lanes: List<AnyLane<P>>, mut own: Vec<MemLane>) -> List<AnyLane<P>>
    requires empty { lanes.items ≡ [] }
    requires room { vec_len own ≤ lanes.spare }
    ensures { seen_in ⟦<AnyLane<P> as Store>⟧.seen result ≡ map ⟦<MemLane as Store>⟧.seen own.items }
{
    'own: while !own.is_empty() {
        let lane = own.remove(0);
        lanes.put(AnyLane::Memory(lane));
    }
    lanes
}

/// The lanes of a region of so many zeros in memory, one for each stripe.
fn open_memory<P: Part + Drop>(
    alloc: Global,
    layout: &Layout,
    region: u16,
    bytes: usize,
) -> Result<List<AnyLane<P>>, OutOfMemory>
    requires some { 0 < bytes }
    requires whole { bytes ≡ bytes / layout.now.page_size * layout.now.page_size }
    requires few { bytes / layout.now.page_size ≤ MOST_PAGES }
    ensures { IfOk result (OfRow ⟦<AnyLane<P> as Store>⟧.seen (AreZeroShares layout.now region bytes)) }
{
    let mut lanes = List::new(alloc);
    lanes.reserve(layout.stripes() as usize)?;
    let own = zero_lanes(alloc, layout, region, bytes)?;
    Ok(lanes_in_memory(lanes, own.into_vec()))
}

/// How a region's file is shared out.
fn cut_of(layout: &Layout, region: u16, line: &MapLine) -> Cut
    requires size { HasGoodSize layout.now.page_size (named_region line.now) }
    ensures { result ≡ cut_of layout.now region (named_region line.now) }
{
    Cut {
        region,
        pages: (line.length / u64::from(layout.page_size())) as u32,
        layout: *layout,
        writable: line.writable,
    }
}

/// Opens the lanes of a region, one for each stripe. After a refusal no part of its file is out.
pub(crate) fn open_region<F: Folder>(
    alloc: Global,
    folder: &mut F,
    layout: &Layout,
    region: u16,
    line: &MapLine,
) -> Result<List<AnyLane<F::Part>>, FolderFault>
    requires size { HasGoodSize layout.now.page_size (named_region line.now) }
    requires built { is_folder (named_region line.now).backing ≡ false }
    requires none_out { NoneOutOf (named_region line.now) (F.seen folder.old) }
    ensures lanes { IfOk result (OfRow ⟦<AnyLane<F::Part> as Store>⟧.seen
        (AreOpenedHere (F.seen folder.old) layout.now region line.now)) }
    ensures out { OnOk result (AreOut (names_of layout.now region line.now) (F.seen folder.old) (F.seen folder.new)) }
    ensures err { OnErr result ((F.seen folder.new).told ≡ (F.seen folder.old).told) }
    ensures shows { ShowsOpening (F.seen folder.old) (named_region line.now) result }
    ensures cause { HasFolderCause (F.seen folder.old).count (F.seen folder.new).count result }
{
    match &line.kind {
        StoreKind::Memory => match open_memory(alloc, layout, region, line.length as usize) {
            Ok(lanes) => Ok(lanes),
            Err(_) => Err(FolderFault::OutOfMemory),
        },
        StoreKind::File { path } => {
            let cut = cut_of(layout, region, line);
            open_file(alloc, folder, path, &cut)
        }
        // No region lies in a folder of files yet.
        StoreKind::Sparse { path: _, file: _ } => unreachable!(),
    }
}
