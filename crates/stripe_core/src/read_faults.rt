//! The counts at the failed reads of a region's pages, kept for the stripe's own pages alone.
//!
//! Blocks of `group` pages go round the stripes, so in each turn one block is the stripe's, always at the same place. What must
//! stay true when this file is changed: `own` has one number for each own page, in order of page.
ghost use Rattle.std.specs.Prelude.{◌≡◌, ◌==◌, ◌<◌, ◌≤◌, ℕ, length, replicate, slice_index, slice_set, true, IfOk};
ghost use Rattle.page_base.specs.Pages.{stripe_of};

use page_base::{Layout, OutOfMemory};
use std::alloc::Global;
use std::marker::Model;
use std::snapshot::Snapshot;

/// Which pages of a region are the stripe's: in each turn of `stripes` blocks of `group` pages those of the block at place `first`.
#[derive(Clone, Copy, Drop)]
pub(crate) struct Share {
    group: u32,
    stripes: u32,
    first: u32,
    pub ghost some_page: { 1 ≤ group },
    pub ghost some_block: { 1 ≤ stripes },
}

impl Share {
    ghost use Rattle.stripe_core.specs.InsideReadFaults.{in_share, place_in, own_below};

    /// The share of stripe `number` in a region.
    pub(crate) fn of(layout: &Layout, number: u32, region: u16, group: u32) -> Share
        requires number { number < layout.now.stripes }
        requires group { 1 ≤ group }
        ensures own { (page : ℕ) → in_share result page ≡ (stripe_of layout.now.stripes group region page == number) }
    {
        let stripes = layout.stripes();
        let ahead = u32::from(region) % stripes;
        let first = if number < ahead {
            stripes - ahead + number
        } else {
            number - ahead
        };
        Share {
            group,
            stripes,
            first,
        }
    }

    /// How many of the pages below this one are own.
    fn own_below(&self, pages: u32) -> u32
        ensures exact { result ≡ own_below self.now pages }
    {
        let blocks = pages / self.group;
        let whole = blocks / self.stripes * self.group;
        let last = blocks % self.stripes;
        if last == self.first {
            whole + pages % self.group
        } else if last > self.first {
            whole + self.group
        } else {
            whole
        }
    }

    /// The place of an own page among the own ones.
    fn place(&self, page: u32) -> u32
        ensures exact { result ≡ place_in self.now page }
    {
        page / self.group / self.stripes * self.group + page % self.group
    }
}

/// By page of a region: the lane's count at the page's last failed read, 0 where there is none.
#[derive(Drop)]
pub(crate) struct ReadFaults {
    share: Share,
    pages: Snapshot<u32>,
    own: Vec<u64>,
}

impl Model for ReadFaults {
    ghost use Rattle.std.specs.Prelude.{◌≡◌, length};
    ghost use Rattle.stripe_core.specs.InsideReadFaults.{ReadFaultsSeen, spread, own_below};

    ghost Value = { ReadFaultsSeen };

    ghost view = { λ f. record { share = f.share; numbers = spread f.share f.own.items f.pages.value } };

    ghost invariant = { λ f. length f.own.items ≡ own_below f.share f.pages.value };
}

impl ReadFaults {
    ghost use Rattle.stripe_core.specs.InsideReadFaults.{in_share};

    /// No read of so many pages failed. It takes 8 bytes for each own page, and all memory that the numbers ever take.
    pub(crate) fn none(alloc: Global, share: Share, pages: u32) -> Result<ReadFaults, OutOfMemory>
        ensures share { IfOk result (λ f. f.share ≡ share) }
        ensures none { IfOk result (λ f. f.numbers ≡ replicate pages 0) }
    {
        let own = vec![in alloc; 0u64; share.own_below(pages) as usize]?;
        Ok(ReadFaults {
            share,
            pages: Snapshot::of(&pages),
            own,
        })
    }

    /// The number of an own page.
    pub(crate) fn get(&self, page: u32) -> u64
        requires own { in_share self.now.share page ≡ true }
        requires within { page < length self.now.numbers }
        ensures exact { result ≡ slice_index self.now.numbers page }
    {
        self.own[self.share.place(page) as usize]
    }

    /// Sets the number of an own page.
    pub(crate) fn set(&mut self, page: u32, number: u64)
        requires own { in_share self.old.share page ≡ true }
        requires within { page < length self.old.numbers }
        ensures share { self.new.share ≡ self.old.share }
        ensures numbers { self.new.numbers ≡ slice_set self.old.numbers page number }
    {
        let place = self.share.place(page) as usize;
        self.own[place] = number;
    }
}
