//! One stripe's files of a store, as a lane.
//!
//! The files go round the stripes: of n stripes, file k is its lane's file k / n.
ghost use Rattle.std.specs.Prelude.{◌≡◌, ◌<◌, ◌≤◌, ◌/◌, true, map, length};
ghost use Rattle.page_base.specs.Lanes.{Rose, has_page};
ghost use Rattle.file_store.specs.Parts.{WhereTold};
ghost use Rattle.sparse_store.specs.Closings.{ArePartsOut, ClosesEach};
ghost use Rattle.sparse_store.specs.Files.{IsShape};
ghost use Rattle.sparse_store.specs.InsideLaneFiles.{AreLaneFiles, IsPagePlace};
ghost use Rattle.sparse_store.specs.SparseLanes.{HasWholePages};

use crate::close::close_parts;
use crate::file::{read, write};
use crate::meta::Meta;
use file_store::{Folder, Part};
use page_base::{Bytes, Layout, List};
use std::snapshot::Snapshot;
use store_trait::{Store, StoreFault};

/// One stripe's files of a store.
#[derive(Drop)]
pub struct SparseLane<P: Part> {
    pub(crate) dir: Bytes,
    pub(crate) shape: Meta,
    pub(crate) layout: Layout,
    pub(crate) region: u16,
    pub(crate) stripe: u32,
    pub(crate) parts: List<P>,
    /// The parts of all the store's files, as they were split.
    pub(crate) first: Snapshot<List<P>>,
    pub(crate) ghost shaped: { IsShape shape },
    pub(crate) ghost whole: { HasWholePages shape layout },
    pub(crate) ghost files: { AreLaneFiles dir.items shape layout region stripe (map P.seen parts.items) },
}

/// Where a page lies: in which of the lane's files, and from which of its bytes on.
#[derive(Clone, Copy)]
struct PagePlace {
    file: usize,
    start: u64,
}

impl<P: Part> SparseLane<P> {
    fn place_of(&self, off: u64) -> PagePlace
        requires of_lane { has_page (⟦<SparseLane<P> as Store>⟧.seen self.now).origin
            (off / self.now.layout.page_size) ≡ true }
        ensures { IsPagePlace (⟦<SparseLane<P> as Store>⟧.seen self.now).origin self.now.shape
            (length self.now.parts.items) off result.file result.start }
    {
        let page_size = u64::from(self.layout.page_size());
        let group = self.shape.file / page_size;
        let page = off / page_size;
        PagePlace {
            file: (page / group / u64::from(self.layout.stripes())) as usize,
            start: page % group * page_size,
        }
    }

    /// The faults of all parts, up to the type's last value.
    fn count(&self) -> u64
        ensures { result ≡ (⟦<SparseLane<P> as Store>⟧.seen self.now).count }
    {
        let mut count = 0u64;
        for part in self.parts.as_slice() {
            count = count.saturating_add(part.faults());
        }
        count
    }

    fn fault(&self) -> StoreFault
        ensures { result.faults ≡ (⟦<SparseLane<P> as Store>⟧.seen self.now).count }
    {
        StoreFault {
            faults: self.count(),
        }
    }
}

impl<P: Part + Drop> SparseLane<P> {
    pub(crate) fn into_parts(self) -> Vec<P>
        ensures { result.items ≡ self.parts.items }
    {
        let SparseLane {
            dir: _,
            shape: _,
            layout: _,
            region: _,
            stripe: _,
            parts,
            first: _,
        } = self;
        parts.into_vec()
    }

    /// Closes the parts of the lane's files. The folder's count rises where a call of the lane failed. It takes no memory.
    pub fn close<F: Folder<Part = P>>(self, folder: &mut F)
        requires out { ArePartsOut P.seen (F.seen folder.old) self.parts.items }
        ensures closed { WhereTold (ClosesEach (map P.seen self.parts.items))
            (F.seen folder.old).told (F.seen folder.new).told }
        ensures later { (F.seen folder.old).count ≤ (F.seen folder.new).count }
        ensures faults { 0 < (⟦<SparseLane<P> as Store>⟧.seen self).count →
            Rose (F.seen folder.old).count (F.seen folder.new).count }
    {
        let SparseLane {
            dir: _,
            shape: _,
            layout: _,
            region: _,
            stripe: _,
            parts,
            first: _,
        } = self;
        close_parts(folder, parts.into_vec());
    }
}

impl<P: Part> Store for SparseLane<P> {
    ghost use Rattle.sparse_store.specs.SparseLanes.{there_in, sparse_origin, sparse_seen};
    ghost use Rattle.sparse_store.specs.LaneLaws.{pages_are_whole, lane_count_is_small};

    ghost seen = { λ s. sparse_seen (sparse_origin s.dir.items s.shape s.layout s.region s.stripe (there_in (map P.seen s.first.value.items))) (map P.seen s.parts.items) };

    fn read_from_store(&mut self, buf: &mut [u8], off: u64) -> Result<(), StoreFault> {
        let place = self.place_of(off);
        match read(self.parts.get_mut(place.file), buf, place.start) {
            Ok(()) => Ok(()),
            Err(_) => Err(self.fault()),
        }
    }

    fn write_to_store(&mut self, buf: &[u8], off: u64) -> Result<(), StoreFault> {
        let place = self.place_of(off);
        match write(self.parts.get_mut(place.file), buf, place.start) {
            Ok(()) => Ok(()),
            Err(_) => Err(self.fault()),
        }
    }

    fn faults(&self) -> u64 {
        self.count()
    }

    ghost whole_pages = { λ s page. pages_are_whole
        P.seen P.whole_pieces s.dir.items s.shape s.layout s.region s.stripe s.parts.items s.shaped s.whole s.files (there_in (map P.seen s.first.value.items)) page };

    ghost small_count = { λ s. lane_count_is_small (map P.seen s.parts.items) };
}
