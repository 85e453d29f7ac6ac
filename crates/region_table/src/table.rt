//! The table of regions.
//!
//! The room of all regions that a table may have is taken once, so that adding one takes memory for its name and path alone. `pages` is the
//! pages of all regions together, and no region breaks a rule behind those before it.
ghost use Rattle.std.specs.Prelude.{◌≡◌, ◌<◌, ◌≤◌, ◌+◌, ◌/◌, true, [], length, slice_get, slice_index, Some, None, IfOk, OnOk, OnErr, IfErr};
ghost use Rattle.page_base.specs.Layouts.{is_page_size};
ghost use Rattle.region_table.specs.Cuts.{rest_of};
ghost use Rattle.region_table.specs.Pieces.{pieces_of};
ghost use Rattle.region_table.specs.Regions.{named_by, with_region, shapes_of, lengths_of, page_count, region_number};
ghost use Rattle.region_table.specs.Rules.{region_fault, refusal_to_add, keeps_rules};
ghost use Rattle.region_table.specs.InsideRules.{CountsWith};

use crate::pieces::Pieces;
use crate::region::{Region, has_good_length, has_name, has_store, place_of_name};
use crate::spec::{RegionFault, RegionSpec};
use page_base::{List, MOST_PAGES, MOST_REGIONS, OutOfMemory, RegionShape};
use std::alloc::Global;
use std::marker::Model;

/// Regions by their numbers, which count from 0 in the order of adding.
#[derive(Debug, Drop)]
pub struct RegionTable {
    page_size: u32,
    pages: u64,
    regions: List<Region>,
}

impl Model for RegionTable {
    ghost use Rattle.region_table.specs.Regions.{TableSeen};
    ghost use Rattle.region_table.specs.InsideRules.{KeepsTable};

    ghost Value = { TableSeen };

    ghost view = { λ t. record { page_size = t.page_size; regions = t.regions.items } };

    ghost invariant = { λ t. KeepsTable (record { page_size = t.page_size; regions = t.regions.items }) t.pages t.regions.spare };
}

impl RegionTable {
    /// A table without regions, for pages of `page_size` bytes.
    pub fn new(alloc: Global, page_size: u32) -> Result<RegionTable, OutOfMemory>
        requires { is_page_size page_size ≡ true }
        ensures page_size { IfOk result (λ t. t.page_size ≡ page_size) }
        ensures regions { IfOk result (λ t. t.regions ≡ []) }
    {
        let mut regions = List::new(alloc);
        regions.reserve(MOST_REGIONS)?;
        Ok(RegionTable {
            page_size,
            pages: 0,
            regions,
        })
    }

    /// Adds a region, and answers its number. The rules are tested in the order of `RegionFault`'s variants.
    pub fn add(&mut self, spec: &RegionSpec) -> Result<u16, RegionFault>
        requires { length self.old.regions < MOST_REGIONS }
        ensures number { IfOk result (λ n. n ≡ length self.old.regions) }
        ensures added { OnOk result (self.new ≡ with_region self.old (named_by spec.now)) }
        ensures accepted { OnOk result (region_fault self.old (named_by spec.now) ≡ None) }
        // want of memory comes last: where no rule is broken
        ensures refused { IfErr result (λ f. f ≡ refusal_to_add self.old (named_by spec.now)) }
        ensures unchanged { OnErr result (self.new ≡ self.old) }
    {
        let pages = self.pages_with(spec)?;
        let region = Region::from_spec(self.regions.allocator(), spec)?;
        let number = self.regions.len() as u16;
        self.regions.put(region);
        self.pages = pages;
        Ok(number)
    }

    /// The pages of all regions and one more, or the first rule that the one more breaks.
    fn pages_with(&self, spec: &RegionSpec) -> Result<u64, RegionFault>
        ensures { CountsWith self.now (named_by spec.now) result }
    {
        let regions = self.regions.as_slice();
        if has_name(regions, spec.name.as_slice()) {
            return Err(RegionFault::SameName);
        }
        if has_store(regions, &spec.kind) {
            return Err(RegionFault::SameStore);
        }
        if !has_good_length(self.page_size, spec) {
            return Err(RegionFault::BadLength);
        }
        let pages = self.pages + spec.length / u64::from(self.page_size);
        if pages > MOST_PAGES {
            return Err(RegionFault::TooManyPages { pages });
        }
        Ok(pages)
    }

    /// The number of the region of this name.
    pub fn find(&self, name: &[u8]) -> Option<u16>
        ensures { result ≡ region_number self.now name.now }
    {
        match place_of_name(self.regions.as_slice(), name) {
            Some(number) => Some(number as u16),
            None => None,
        }
    }

    /// The number of regions. No region of a table breaks a rule behind those before it.
    pub fn count(&self) -> u16
        ensures count { result ≡ length self.now.regions }
        ensures few { result ≤ MOST_REGIONS }
        ensures few_of_all { page_count self.now ≤ MOST_PAGES }
        ensures rules { keeps_rules self.now.page_size [] self.now.regions ≡ true }
    {
        self.regions.len() as u16
    }

    /// The length of a region in bytes.
    pub fn length(&self, region: u16) -> u64
        requires { region < length self.now.regions }
        ensures { result ≡ slice_index (lengths_of self.now) region }
    {
        self.regions.get(region as usize).length()
    }

    /// The shape of a region.
    pub fn shape(&self, region: u16) -> RegionShape
        requires { region < length self.now.regions }
        ensures shape { slice_get (shapes_of self.now) region ≡ Some result }
        ensures group { 1 ≤ result.group }
        ensures some { 1 ≤ result.pages }
        ensures few { result.pages ≤ MOST_PAGES }
        ensures few_of_all { page_count self.now ≤ MOST_PAGES }
    {
        self.regions.get(region as usize).shape(self.page_size)
    }

    /// The pieces of the range of `len` bytes from byte `off` of a region on.
    pub fn pieces(&self, region: u16, off: u64, len: u64) -> Pieces
        requires region { region < length self.now.regions }
        requires inside { off + len ≤ slice_index (lengths_of self.now) region }
        ensures { rest_of result ≡ pieces_of self.now.page_size region off len }
    {
        Pieces::new(region, self.page_size, off, len)
    }
}
