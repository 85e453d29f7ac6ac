//! A pager of one stripe in one hand: a region over one lane, and the first passes.
ghost use Rattle.std.specs.Prelude.{◌≡◌, ◌≤◌, ◌^◌, [], true, IfOk};
ghost use Rattle.page_base.specs.Layouts.{is_page_size};
ghost use Rattle.store_trait.specs.Memory.{memory_origin};
ghost use Rattle.case_tools.specs.InsideHands.{HasOneRegion};

use page_base::{Bytes, Layout, List};
use page_model::Journal;
use region_table::{Kind, RegionFault, RegionSpec, RegionTable};
use std::alloc::Global;
use std::marker::Model;
use std::sync::Wait;
use store_trait::{LaneSet, Store};
use umap_pager::{
    Access, Back, OpenFault, Pager, PagerConfig, PagerEnd, Passes, Served, calls_end_trips,
};

/// A pager of one region and one stripe, and its first passes.
pub struct Shared<S: Store, J: Journal> {
    pager: Pager<S, J>,
    passes: Passes<S, J>,
}

impl<S: Store, J: Journal> Model for Shared<S, J> {
    ghost use Rattle.std.specs.Prelude.{◌≡◌, ℕ, length};
    ghost use Rattle.umap_pager.specs.Ended.{AllMayClose};
    ghost use Rattle.umap_pager.specs.Passes.{FitTo};

    ghost Value = { ℕ };

    ghost view = { λ s. length s.pager.locks };

    ghost invariant = { λ s. record { fit : FitTo s.pager s.passes; may : AllMayClose s.passes; region : length s.pager.table.regions ≡ 1; stripe : s.pager.layout.stripes ≡ 1; lock : length s.pager.locks ≡ 1 } };
}

impl<S: Store, J: Journal> Shared<S, J> {
    /// Loads from the region's byte `off` on.
    pub fn load<R: Wait>(&mut self, rt: &R, off: u64, buf: &mut [u8]) -> Result<(), Access> {
        calls_end_trips::<S, J>();
        self.pager.load(rt, &mut self.passes, 0, off, buf)
    }

    /// Stores to it.
    pub fn store<R: Wait>(&mut self, rt: &R, off: u64, bytes: &[u8]) -> Result<(), Access> {
        calls_end_trips::<S, J>();
        self.pager.store(rt, &mut self.passes, 0, off, bytes)
    }

    /// Loads one byte.
    pub fn byte<R: Wait>(&mut self, rt: &R, off: u64) -> Result<u8, Access> {
        let mut byte = [0u8];
        match self.load(rt, off, &mut byte) {
            Ok(()) => Ok(byte[0]),
            Err(why) => Err(why),
        }
    }

    /// One step of service; none where the pass is spent.
    pub fn serve<R: Wait>(&mut self, rt: &R) -> Option<Served> {
        calls_end_trips::<S, J>();
        match self.pager.serve_one(rt, &mut self.passes, 0) {
            Ok(served) => Some(served),
            Err(_) => None,
        }
    }

    /// Makes room; none where the pass is spent.
    pub fn make_room<R: Wait>(&mut self, rt: &R) -> Option<Back> {
        calls_end_trips::<S, J>();
        match self.pager.write_back(rt, &mut self.passes, 0) {
            Ok(back) => Some(back),
            Err(_) => None,
        }
    }

    /// The holds that are left.
    pub fn left(&self) -> u64 {
        self.passes.left(0)
    }

    /// Closes the pager. What is left of it: the lanes and the journal of its stripe.
    pub fn end(self) -> (LaneSet<S>, List<J>) {
        let Shared { pager, passes } = self;
        let PagerEnd {
            lanes,
            journals,
            stripes: _,
            counts: _,
        } = pager.close(passes);
        (lanes, journals)
    }
}

/// A table of one region of so many bytes.
fn one_region(
    alloc: Global,
    page_size: u32,
    length: u64,
    writable: bool,
) -> Result<RegionTable, RegionFault>
    requires { is_page_size page_size ≡ true }
    ensures { IfOk result (HasOneRegion page_size length writable) }
{
    let mut table = RegionTable::new(alloc, page_size)?;
    let spec = RegionSpec {
        name: Bytes::from_slice(alloc, b"A")?,
        kind: Kind::Memory,
        length,
        writable,
    };
    table.add(&spec)?;
    Ok(table)
}

/// A pager over the lane of a region of so many pages, whose one pass may make so many holds.
pub fn open_shared<S: Store + Drop, J: Journal + Drop>(
    alloc: Global,
    layout: Layout,
    pages: u32,
    lane: S,
    journal: J,
    writable: bool,
    holds: u64,
) -> Result<Shared<S, J>, RegionFault>
    requires stripes { layout.stripes ≡ 1 }
    requires lane { (S.seen lane).origin ≡ memory_origin 0 pages layout.page_size 1 0 }
    requires noted { J.has_noted journal [] }
    requires holds { (2 ≤ holds) × (holds ≤ 2 ^ 40) }
{
    calls_end_trips::<S, J>();
    let page_size = layout.page_size();
    let table = one_region(
        alloc,
        page_size,
        u64::from(pages) * u64::from(page_size),
        writable,
    )?;
    let config = PagerConfig {
        layout,
        faults: 2,
        high: 90,
        low: 70,
        seats: 1,
        holds,
    };
    let mut row = List::new(alloc);
    row.reserve(1)?;
    row.put(lane);
    let mut rows = List::new(alloc);
    rows.reserve(1)?;
    rows.put(row);
    let mut journals = List::new(alloc);
    journals.reserve(1)?;
    journals.put(journal);
    let lanes = LaneSet { stripes: rows };
    match Pager::open(alloc, &config, table, lanes, journals) {
        Ok((pager, passes)) => Ok(Shared { pager, passes }),
        Err(
            OpenFault::OutOfMemory {
                lanes: _,
                journals: _,
            },
        ) => Err(RegionFault::OutOfMemory),
    }
}
