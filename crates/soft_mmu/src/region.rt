//! The pages of one region: a directory of leaves, and the numbers of present and of dirty pages.
//!
//! Each leaf has 512 pages but the last, which has the rest, so the leaf of a page and its place there are a quotient and a
//! remainder by a power of two.
ghost use Rattle.std.specs.Prelude.{◌≡◌, ◌<◌, ◌≤◌, length, replicate, slice_index_or, slice_set, count_by, IfOk, IfSome, IfNone};
ghost use Rattle.page_base.specs.declared.limits.TheConstants.{MOST_PAGES};
ghost use Rattle.soft_mmu.specs.declared.entry.PageEntry.TheVariants.{Absent};
ghost use Rattle.soft_mmu.specs.Entries.{is_present, is_dirty};
ghost use Rattle.soft_mmu.specs.InsideLeaves.{IsFirstDirty, NoneDirtyFrom};

use crate::entry::PageEntry;
use crate::leaf::Leaf;
use page_base::OutOfMemory;
use std::alloc::Global;
use std::marker::Model;

/// The entries of one region, in order of page.
#[derive(Drop)]
pub(crate) struct RegionPages {
    leaves: Vec<Leaf>,
    present: u32,
    dirty: u32,
}

impl Model for RegionPages {
    ghost use Rattle.std.specs.Prelude.{List};
    ghost use Rattle.soft_mmu.specs.declared.entry.PageEntry.{PageEntry};
    ghost use Rattle.soft_mmu.specs.InsideLeaves.{entries_of, IsRegion};

    ghost Value = { List PageEntry };

    ghost view = { λ r. entries_of r.leaves.items };

    ghost invariant = { λ r. IsRegion r.leaves.items r.present r.dirty };
}

impl RegionPages {
    /// A region in which no page is present.
    pub(crate) fn absent(alloc: Global, pages: u32) -> Result<RegionPages, OutOfMemory>
        requires { pages ≤ MOST_PAGES }
        ensures { IfOk result (λ r. r ≡ replicate pages Absent) }
    {
        let full = pages as usize / Leaf::PAGES;
        let rest = pages as usize % Leaf::PAGES;
        let mut leaves = Vec::with_capacity(alloc, full + 1)?;
        for _ in 0..full {
            let leaf = Leaf::absent(alloc, Leaf::PAGES)?;
            leaves.push_reserved(leaf);
        }
        if rest > 0 {
            let leaf = Leaf::absent(alloc, rest)?;
            leaves.push_reserved(leaf);
        }
        Ok(RegionPages {
            leaves,
            present: 0,
            dirty: 0,
        })
    }

    /// The number of present pages.
    pub(crate) fn present(&self) -> u32
        ensures { result ≡ count_by is_present self.now }
    {
        self.present
    }

    /// The number of dirty pages.
    pub(crate) fn dirty(&self) -> u32
        ensures { result ≡ count_by is_dirty self.now }
    {
        self.dirty
    }

    /// The entry of a page.
    pub(crate) fn entry(&self, page: u32) -> PageEntry
        requires { page < length self.now }
        ensures { result ≡ slice_index_or self.now page Absent }
    {
        let page = page as usize;
        let leaf = &self.leaves[page / Leaf::PAGES];
        leaf.entry(page % Leaf::PAGES)
    }

    /// Sets the entry of a page.
    pub(crate) fn set(&mut self, page: u32, entry: PageEntry)
        requires { page < length self.old }
        ensures { self.new ≡ slice_set self.old page entry }
    {
        let page = page as usize;
        let leaf = &mut self.leaves[page / Leaf::PAGES];
        let old = leaf.replace(page % Leaf::PAGES, entry);
        self.present -= u32::from(old.is_present());
        self.present += u32::from(entry.is_present());
        self.dirty -= u32::from(old.is_dirty());
        self.dirty += u32::from(entry.is_dirty());
    }

    /// The first dirty page from a page on. It passes over a region and over leaves in which no page is dirty.
    pub(crate) fn next_dirty(&self, from: usize) -> Option<u32>
        ensures first { IfSome result (λ p. IsFirstDirty self.now from p) }
        ensures none { IfNone result (NoneDirtyFrom self.now from) }
    {
        if self.dirty == 0 {
            return None;
        }
        let mut place = from % Leaf::PAGES;
        for at in from / Leaf::PAGES..self.leaves.len() {
            let leaf = &self.leaves[at];
            if let Some(found) = leaf.next_dirty(place) {
                return Some((Leaf::PAGES * at + found) as u32);
            }
            place = 0;
        }
        None
    }
}
