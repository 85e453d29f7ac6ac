//! What a stripe keeps of a region: where its lane is, whether it is closing, and which reads of its pages failed.
//!
//! A lane is out for one page at the most, since its value is in one place only.
ghost use Rattle.std.specs.Prelude.{◌≡◌, ◌<◌, ℕ, length, slice_get, Some, true};
ghost use Rattle.page_model.specs.Core as core;
ghost use Rattle.stripe_core.specs.declared.region.Region.{Region};
ghost use Rattle.stripe_core.specs.InsideSteps.{Swaps};

use crate::read_faults::ReadFaults;
use page_base::{Key, Why};
use std::mem;
use store_trait::Store;

/// Where a region's lane is. A read that is out keeps a frame for its page.
pub(crate) enum Lane<S> {
    Home(S),
    Reading {
        key: Key,
        at: u64,
        why: Why,
        frame: u32,
    },
    Writing {
        key: Key,
        at: u64,
    },
}

/// A read that has ended: why it was made, and the frame that is kept for its page.
#[derive(Clone, Copy)]
pub(crate) struct EndedRead {
    pub(crate) why: Why,
    pub(crate) frame: u32,
}

/// One region's share in the stripe.
pub(crate) struct Region<S> {
    pub(crate) lane: Lane<S>,
    pub(crate) closing: bool,
    pub(crate) unmapped: bool,
    pub(crate) read_faults: ReadFaults,
}

impl<S: Store> Lane<S> {
    ghost use Rattle.stripe_core.specs.Parts.{place_of};

    /// The lane, where it is home.
    pub(crate) fn into_home(self) -> S
        requires home { core.is_home_place (place_of S.seen self) ≡ true }
        ensures is { self ≡ Lane.Home result }
    {
        match self {
            Lane::Home(lane) => lane,
            Lane::Reading {
                key: _,
                at: _,
                why: _,
                frame: _,
            } => unreachable!(),
            Lane::Writing { key: _, at: _ } => unreachable!(),
        }
    }

    /// The read that was out for the page.
    pub(crate) fn into_read(self, page: Key) -> EndedRead
        requires reads { core.reads (place_of S.seen self) page ≡ true }
        ensures is { (at : ℕ) × (self ≡ Lane.Reading page at result.why result.frame) }
    {
        match self {
            Lane::Reading {
                key: _,
                at: _,
                why,
                frame,
            } => EndedRead { why, frame },
            Lane::Home(_lane) => unreachable!(),
            Lane::Writing { key: _, at: _ } => unreachable!(),
        }
    }

    pub(crate) fn is_home(&self) -> bool
        ensures exact { result ≡ core.is_home_place (place_of S.seen self.now) }
    {
        matches!(self, Lane::Home(_))
    }

    /// The page is being read.
    pub(crate) fn reads(&self, page: Key) -> bool
        ensures exact { result ≡ core.reads (place_of S.seen self.now) page }
    {
        match self {
            Lane::Reading { key, .. } => *key == page,
            Lane::Home(_) | Lane::Writing { .. } => false,
        }
    }

    /// The page is being written.
    pub(crate) fn writes(&self, page: Key) -> bool
        ensures exact { result ≡ core.writes (place_of S.seen self.now) page }
    {
        match self {
            Lane::Writing { key, .. } => *key == page,
            Lane::Home(_) | Lane::Reading { .. } => false,
        }
    }
}

impl<S: Store> Region<S> {
    ghost use Rattle.stripe_core.specs.Parts.{place_of};

    /// The lane of a region that is done with.
    pub(crate) fn into_lane(self) -> S
        requires home { core.is_home_place (place_of S.seen self.lane) ≡ true }
        ensures lane { place_of S.seen self.lane ≡ core.Home (S.seen result) }
    {
        let Region {
            lane,
            closing: _,
            unmapped: _,
            read_faults: _,
        } = self;
        lane.into_home()
    }
}

/// Puts `lane` into the place of a region's lane, which it hands out.
pub(crate) fn swap_lane<S>(regions: &mut Vec<Region<S>>, region: u16, lane: Lane<S>) -> Lane<S>
    requires region { region < length regions.old.items }
    ensures regions { Swaps regions.old.items region lane regions.new.items }
    ensures lane { (g : Region S) → slice_get regions.old.items region ≡ Some g → result ≡ g.lane }
{
    mem::replace(&mut regions[region as usize].lane, lane)
}
