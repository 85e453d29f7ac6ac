//! The page table: for each region a directory of leaves.
//!
//! Contracts see the list of lists of entries alone, so that the levels can change without a change of a clause.
ghost use Rattle.std.specs.Prelude.{◌≡◌, ◌<◌, ◌≤◌, IsTrue, IfOk, IfSome, IfNone, length, sum_by, count_by};
ghost use Rattle.page_base.specs.declared.limits.TheConstants.{MOST_PAGES};
ghost use Rattle.soft_mmu.specs.declared.entry.PageEntry.TheVariants.{Absent, Present};
ghost use Rattle.soft_mmu.specs.InsideLeaves.{place_behind};
ghost use Rattle.soft_mmu.specs.Entries.{translation, bits_of, is_present, is_protected, is_dirty, closed, opened, cleaned, region_entries, table_entry, HasPage, with_entry, no_pages, IsNextDirty, NoneDirty};

use crate::entry::{Bits, Found, PageEntry, Wants};
use crate::region::RegionPages;
use page_base::{Key, List, OutOfMemory, RegionShape};
use std::alloc::Global;
use std::marker::Model;

/// As many regions as a key can number.
const REGION_NUMBERS: usize = 65536;

/// The entries of all pages of a stripe's regions.
#[derive(Drop)]
pub struct PageTable {
    regions: Vec<RegionPages>,
}

impl Model for PageTable {
    ghost use Rattle.std.specs.Prelude.{◌≤◌, List, length};
    ghost use Rattle.soft_mmu.specs.declared.entry.PageEntry.{PageEntry};
    ghost use Rattle.soft_mmu.specs.declared.table.TheConstants.{REGION_NUMBERS};

    ghost Value = { List (List PageEntry) };

    ghost view = { λ t. t.regions.items };

    ghost invariant = { λ t. length t.regions.items ≤ REGION_NUMBERS };
}

impl PageTable {
    /// A table of the regions' pages. It takes 8 bytes a page, and all memory that the table ever takes.
    pub fn new(alloc: Global, shapes: &List<RegionShape>) -> Result<PageTable, OutOfMemory>
        requires few { sum_by (λ s. s.pages) shapes.now.items ≤ MOST_PAGES }
        ensures absent { IfOk result (λ t. t ≡ no_pages shapes.now.items) }
    {
        if shapes.len() > REGION_NUMBERS {
            return Err(OutOfMemory);
        }
        let mut regions = Vec::with_capacity(alloc, shapes.len())?;
        for shape in shapes.as_slice() {
            let region = RegionPages::absent(alloc, shape.pages)?;
            regions.push_reserved(region);
        }
        Ok(PageTable { regions })
    }

    /// What an access of a page finds.
    pub fn translate(&self, key: Key, wants: Wants) -> Found
        requires page { HasPage self.now key }
        ensures exact { result ≡ translation (table_entry self.now key) wants }
    {
        self.entry(key).translate(wants)
    }

    /// The bits of a page.
    pub fn bits(&self, key: Key) -> Bits
        requires page { HasPage self.now key }
        ensures exact { result ≡ bits_of (table_entry self.now key) }
    {
        self.entry(key).bits()
    }

    /// Makes an absent page present in a frame.
    pub fn install(&mut self, key: Key, frame: u32, protected: bool, dirty: bool)
        requires page { HasPage self.old key }
        requires absent { table_entry self.old key ≡ Absent }
        ensures entry { self.new ≡ with_entry self.old key (Present protected dirty frame) }
    {
        self.set(
            key,
            PageEntry::Present {
                protected,
                dirty,
                frame,
            },
        );
    }

    /// Protects a page, so that the next store to it faults.
    pub fn protect(&mut self, key: Key)
        requires page { HasPage self.old key }
        requires present { IsTrue (is_present (table_entry self.old key)) }
        ensures entry { self.new ≡ with_entry self.old key (closed (table_entry self.old key)) }
    {
        self.set(key, self.entry(key).closed());
    }

    /// Opens a protected page to stores. It is dirty from then on.
    pub fn open_page(&mut self, key: Key)
        requires page { HasPage self.old key }
        requires present { IsTrue (is_present (table_entry self.old key)) }
        requires protected { IsTrue (is_protected (table_entry self.old key)) }
        ensures entry { self.new ≡ with_entry self.old key (opened (table_entry self.old key)) }
    {
        self.set(key, self.entry(key).opened());
    }

    /// Takes the dirty bit of a page, after a good write. Protection stays as it is.
    pub fn mark_clean(&mut self, key: Key)
        requires page { HasPage self.old key }
        requires present { IsTrue (is_present (table_entry self.old key)) }
        ensures entry { self.new ≡ with_entry self.old key (cleaned (table_entry self.old key)) }
    {
        self.set(key, self.entry(key).cleaned());
    }

    /// Takes a page from the table.
    pub fn remove(&mut self, key: Key)
        requires page { HasPage self.old key }
        requires present { IsTrue (is_present (table_entry self.old key)) }
        ensures entry { self.new ≡ with_entry self.old key Absent }
    {
        self.set(key, PageEntry::Absent);
    }

    /// The number of a region's present pages.
    pub fn present_in(&self, region: u16) -> u32
        requires region { region < length self.now }
        ensures exact { result ≡ count_by is_present (region_entries self.now region) }
    {
        let pages = &self.regions[region as usize];
        pages.present()
    }

    /// The number of a region's dirty pages.
    pub fn dirty_in(&self, region: u16) -> u32
        requires region { region < length self.now }
        ensures exact { result ≡ count_by is_dirty (region_entries self.now region) }
    {
        let pages = &self.regions[region as usize];
        pages.dirty()
    }

    /// The least dirty page above a key, of all where none is given. It walks on from behind the key and passes over leaves
    /// and regions in which no page is dirty, so that going from each dirty page to the next walks the table once.
    pub fn next_dirty(&self, after: Option<Key>) -> Option<Key>
        ensures next { IfSome result (λ k. IsNextDirty self.now after k) }
        ensures none { IfNone result (NoneDirty self.now after) }
    {
        let (first, mut from) = behind(after);
        for region in first..self.regions.len() {
            let pages = &self.regions[region];
            if let Some(page) = pages.next_dirty(from) {
                return Some(Key {
                    region: region as u16,
                    page,
                });
            }
            from = 0;
        }
        None
    }

    fn entry(&self, key: Key) -> PageEntry
        requires page { HasPage self.now key }
        ensures exact { result ≡ table_entry self.now key }
    {
        let pages = &self.regions[key.region as usize];
        pages.entry(key.page)
    }

    fn set(&mut self, key: Key, entry: PageEntry)
        requires page { HasPage self.old key }
        ensures entry { self.new ≡ with_entry self.old key entry }
    {
        let pages = &mut self.regions[key.region as usize];
        pages.set(key.page, entry);
    }
}

/// Where a walk past a key begins: a region, and a page there.
fn behind(after: Option<Key>) -> (usize, usize)
    ensures { result ≡ place_behind after }
{
    match after {
        None => (0, 0),
        Some(key) => (key.region as usize, key.page as usize + 1),
    }
}

#[cfg(test)]
mod tests {
    use super::*;
    use std::test::Fail;

    /// What a load and a store find after each change of one page, from its installation to its removal.
    #[test]
    fn a_page_goes_round_its_bits(rt: HostRuntime) -> Result<(), Fail> {
        let mut shapes = List::new(rt.alloc());
        shapes.reserve(1)?;
        shapes.put(RegionShape {
            pages: 2,
            group: 1,
            writable: true,
        });
        let mut table = PageTable::new(rt.alloc(), &shapes)?;
        let key = Key { region: 0, page: 1 };
        assert_eq!(rt; table.translate(key, Wants::Read), Found::Missing);
        table.install(key, 7, true, false);
        assert_eq!(rt; table.translate(key, Wants::Read), Found::Hit(7));
        assert_eq!(rt; table.translate(key, Wants::Write), Found::Protected);
        table.open_page(key);
        assert_eq!(rt; table.translate(key, Wants::Write), Found::Hit(7));
        table.protect(key);
        assert_eq!(rt;
            table.bits(key),
            Bits {
                present: true,
                protected: true,
                dirty: true
            }
        );
        table.mark_clean(key);
        assert_eq!(rt;
            table.bits(key),
            Bits {
                present: true,
                protected: true,
                dirty: false
            }
        );
        table.remove(key);
        assert_eq!(rt;
            table.bits(key),
            Bits {
                present: false,
                protected: false,
                dirty: false
            }
        );
        Ok(())
    }

    /// The last page of a first leaf, the one page of a second, and a page of the next region: found, counted, and dirty in
    /// order of key.
    #[test]
    fn a_second_leaf_is_used(rt: HostRuntime) -> Result<(), Fail> {
        let mut shapes = List::new(rt.alloc());
        shapes.reserve(2)?;
        shapes.put(RegionShape {
            pages: 513,
            group: 1,
            writable: true,
        });
        shapes.put(RegionShape {
            pages: 1,
            group: 1,
            writable: true,
        });
        let mut table = PageTable::new(rt.alloc(), &shapes)?;
        let last = Key {
            region: 0,
            page: 511,
        };
        let beyond = Key {
            region: 0,
            page: 512,
        };
        let other = Key { region: 1, page: 0 };
        assert_eq!(rt; table.next_dirty(None), None);
        table.install(other, 3, false, true);
        table.install(beyond, 2, false, true);
        table.install(last, 1, false, true);
        assert_eq!(rt; table.translate(last, Wants::Write), Found::Hit(1));
        assert_eq!(rt; table.translate(beyond, Wants::Write), Found::Hit(2));
        assert_eq!(rt; table.translate(other, Wants::Write), Found::Hit(3));
        assert_eq!(rt; table.present_in(0), 2);
        assert_eq!(rt; table.next_dirty(None), Some(last));
        assert_eq!(rt; table.next_dirty(Some(last)), Some(beyond));
        assert_eq!(rt; table.next_dirty(Some(beyond)), Some(other));
        assert_eq!(rt; table.next_dirty(Some(other)), None);
        table.mark_clean(beyond);
        assert_eq!(rt; table.dirty_in(0), 1);
        assert_eq!(rt; table.next_dirty(Some(last)), Some(other));
        table.remove(last);
        assert_eq!(rt; table.present_in(0), 1);
        Ok(())
    }
}
