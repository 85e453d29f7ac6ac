//! One leaf of a region: up to 512 words, and the number of those that are dirty.
ghost use Rattle.std.specs.Prelude.{◌≡◌, ◌<◌, ◌≤◌, length, replicate, slice_index_or, slice_set, IfOk, IfSome, IfNone};
ghost use Rattle.soft_mmu.specs.declared.entry.PageEntry.TheVariants.{Absent};
ghost use Rattle.soft_mmu.specs.InsideLeaves.{IsFirstDirty, NoneDirtyFrom};

use crate::entry::PageEntry;
use crate::word::Word;
use page_base::OutOfMemory;
use std::alloc::Global;
use std::marker::Model;

/// The words of neighbouring pages, in order.
#[derive(Drop)]
pub(crate) struct Leaf {
    words: Vec<Word>,
    dirty: u32,
}

impl Model for Leaf {
    ghost use Rattle.std.specs.Prelude.{List};
    ghost use Rattle.soft_mmu.specs.declared.entry.PageEntry.{PageEntry};
    ghost use Rattle.soft_mmu.specs.InsideLeaves.{IsLeaf};

    ghost Value = { List PageEntry };

    ghost view = { λ l. l.words.items };

    ghost invariant = { λ l. IsLeaf l.words.items l.dirty };
}

// What a leaf takes in the directory of its region.
const _: () = prove!(size_of::<Leaf>() == 32);

impl Leaf {
    /// The most pages of a leaf.
    pub(crate) const PAGES: usize = 512;

    /// A leaf in which no page is present.
    pub(crate) fn absent(alloc: Global, pages: usize) -> Result<Leaf, OutOfMemory>
        requires { pages ≤ 512 }
        ensures { IfOk result (λ l. l ≡ replicate pages Absent) }
    {
        let words = vec![in alloc; Word::of(PageEntry::Absent); pages]?;
        Ok(Leaf { words, dirty: 0 })
    }

    /// The entry of a page.
    pub(crate) fn entry(&self, place: usize) -> PageEntry
        requires { place < length self.now }
        ensures { result ≡ slice_index_or self.now place Absent }
    {
        self.words[place].entry()
    }

    /// Sets the entry of a page, and gives the one that was there.
    pub(crate) fn replace(&mut self, place: usize, entry: PageEntry) -> PageEntry
        requires { place < length self.old }
        ensures old { result ≡ slice_index_or self.old place Absent }
        ensures new { self.new ≡ slice_set self.old place entry }
    {
        let old = self.words[place].entry();
        self.words[place] = Word::of(entry);
        self.dirty -= u32::from(old.is_dirty());
        self.dirty += u32::from(entry.is_dirty());
        old
    }

    /// The first dirty page from a place on.
    pub(crate) fn next_dirty(&self, from: usize) -> Option<usize>
        ensures first { IfSome result (λ p. IsFirstDirty self.now from p) }
        ensures none { IfNone result (NoneDirtyFrom self.now from) }
    {
        if self.dirty == 0 {
            return None;
        }
        for place in from..self.words.len() {
            if self.words[place].entry().is_dirty() {
                return Some(place);
            }
        }
        None
    }
}
