//! One stripe that is driven by hand: regions of equally many pages, which may be stored to.
//!
//! Between two calls the stripe stands for the history of what was done, in which nothing is in flight: its lanes are home. What an event asks is looked at before it: where it
//! isn't so, nothing is done, and the answer is `None` or false. So a caller owes nothing.
ghost use Rattle.std.specs.Prelude.{◌≡◌, ◌≤◌, ◌<◌, ◌+◌, ◌*◌, ◌^◌, true, length, IfSome};
ghost use Rattle.page_base.specs.declared.limits.TheConstants.{MOST_PAGES, MOST_PAGE_SIZE, MOST_FAULTS, MOST_REGIONS};
ghost use Rattle.page_model.specs.Core.{is_home};
ghost use Rattle.page_model.specs.Setups.{has_page, is_writable, regions};
ghost use Rattle.store_trait.specs.Memory.{memory_origin};
ghost use Rattle.core_bench.specs.Hands.{AreMemoryLanes};

use crate::asked::{may_evict, may_write};
use crate::calls::{load_at, make_room, raise_at, read_in, save_at, write_out};
use crate::meanwhile::{Meanwhile, Reopen};
use crate::sweeps::{load_rounds, save_rounds};
use page_base::{Key, Layout, List, OutOfMemory, RegionShape, Why};
use page_model::events::readers_agree;
use page_model::{Cause, HintAnswer, Next, Pick};
use std::alloc::Global;
use std::marker::Model;
use store_trait::Store;
use stripe_core::{FrameState, Look, NewStripe, Raise, Stripe, StripeConfig};

const MOST_EVENTS: u64 = 1_000_000_000_000;

/// A page that every hand with pages has.
const FIRST: Key = Key { region: 0, page: 0 };

/// The bits of a page, and the number of its last failed read, 0 where none failed.
#[derive(Clone, Copy, Debug, PartialEq, Eq)]
pub struct Shown {
    pub present: bool,
    pub protected: bool,
    pub dirty: bool,
    pub fault: u64,
}

/// A stripe of equal regions, with a scratch page for its reads and writes.
pub struct Hand<S: Store> {
    stripe: Stripe<S>,
    scratch: Vec<u8>,
    regions: u16,
    pages: u32,
    frames: u32,
}

impl<S: Store> Model for Hand<S> {
    ghost use Rattle.std.specs.Prelude.{◌≡◌, length};
    ghost use Rattle.page_model.specs.Core.{Core};

    ghost Value = { Core };

    ghost use Rattle.core_bench.specs.Hands.{IsAtRest};
    ghost use Rattle.core_bench.specs.InsideHands.{AreEqualRegions};
    ghost use Rattle.page_model.specs.Setups.{quota};

    ghost view = { λ h. h.stripe };

    ghost invariant = { λ h. IsAtRest h.stripe × AreEqualRegions h.stripe.setup h.regions h.pages × (length h.scratch.items ≡ h.stripe.setup.page_size) × (h.frames ≡ quota h.stripe.setup) };
}

impl<S: Store + Drop> Hand<S> {
    /// A stripe of one region and of these frames, with no page resident, and at most so many faults.
    pub fn new(
        alloc: Global,
        layout: Layout,
        pages: u32,
        faults: u32,
        lane: S,
    ) -> Result<Hand<S>, OutOfMemory>
        requires one_stripe { layout.stripes ≡ 1 }
        requires few_pages { pages ≤ MOST_PAGES }
        requires some_fault { 1 ≤ faults }
        requires few_faults { faults ≤ MOST_FAULTS }
        requires lane { (S.seen lane).origin ≡ memory_origin 0 pages layout.page_size 1 0 }
    {
        let mut lanes = List::new(alloc);
        lanes.reserve(1)?;
        lanes.put(lane);
        Hand::with_regions(alloc, layout, 1, pages, faults, lanes)
    }

    /// A stripe of so many regions of so many pages each.
    pub fn with_regions(
        alloc: Global,
        layout: Layout,
        regions: u16,
        pages: u32,
        faults: u32,
        lanes: List<S>,
    ) -> Result<Hand<S>, OutOfMemory>
        requires one_stripe { layout.stripes ≡ 1 }
        requires few_regions { regions ≤ MOST_REGIONS }
        requires few_pages { regions * pages ≤ MOST_PAGES }
        requires some_fault { 1 ≤ faults }
        requires few_faults { faults ≤ MOST_FAULTS }
        requires lane_count { length lanes.items ≡ regions }
        requires lanes { AreMemoryLanes S.seen pages layout.page_size lanes.items }
    {
        let shape = RegionShape {
            pages,
            group: 1,
            writable: true,
        };
        let shapes = vec![in alloc; shape; regions as usize]?;
        let scratch = vec![in alloc; 0u8; layout.page_size() as usize]?;
        let config = StripeConfig {
            layout,
            number: 0,
            faults,
            high: 90,
            low: 70,
            shapes: List::from_vec(shapes),
        };
        match Stripe::new(alloc, &config, lanes) {
            Ok(stripe) => Ok(Hand {
                stripe,
                scratch,
                regions,
                pages,
                frames: layout.quota(0),
            }),
            Err(NewStripe::OutOfMemory { lanes: _ }) => Err(OutOfMemory),
        }
    }
}

impl<S: Store> Hand<S> {
    /// The stripe, to look at.
    pub fn stripe(&self) -> &Stripe<S>
        ensures { result.now ≡ self.now }
    {
        &self.stripe
    }

    /// The page where the stripe has it, while there are few entries.
    fn known(&self, key: Key) -> Option<Key>
        ensures page { IfSome result (λ k. has_page self.now.setup k ≡ true) }
        ensures region { IfSome result (λ k. k.region < regions self.now.setup) }
        ensures writable { IfSome result (λ k. is_writable self.now.setup k.region ≡ true) }
        ensures home { IfSome result (λ k. is_home self.now k.region ≡ true) }
        ensures few { IfSome result (λ _. self.now.events + 8 ≤ 2 ^ 61) }
    {
        readers_agree();
        let has = key.region < self.regions && key.page < self.pages;
        if has && self.stripe.events() < MOST_EVENTS {
            Some(key)
        } else {
            None
        }
    }

    /// Lets a page wait.
    pub fn raise(&mut self, key: Key, why: Why) -> Option<Raise> {
        let key = self.known(key)?;
        raise_at(&mut self.stripe, key, why)
    }

    /// Is told that a page will be wanted.
    pub fn hint(&mut self, key: Key) -> Option<HintAnswer> {
        let key = self.known(key)?;
        Some(self.stripe.hint(key))
    }

    /// Reads one of the first bytes of a page, which every page has.
    pub fn load(&mut self, key: Key, place: u32) -> Option<(Look, u8)> {
        let key = self.known(key)?;
        load_at(&mut self.stripe, key, place)
    }

    /// Writes one of the first bytes of a page, which every page has.
    pub fn save(&mut self, key: Key, place: u32, byte: u8) -> Option<Look> {
        let key = self.known(key)?;
        save_at(&mut self.stripe, key, place, byte)
    }

    /// Serves the fault that is next: drops it, opens its page, or reads it in. Room it doesn't make.
    pub fn serve(&mut self) -> Option<Next> {
        let _few = self.known(FIRST)?;
        let next = self.stripe.next();
        match next {
            Next::Drop(_) => {
                let _ = self.stripe.drop_raise();
            }
            Next::Open(_) => {
                let _ = self.stripe.open_page();
            }
            Next::Read(_) => read_in(&mut self.stripe, &mut self.scratch),
            Next::Room | Next::Nothing => {}
        }
        Some(next)
    }

    /// Makes room under pressure: writes the page that is picked back where it is dirty, else lets it leave.
    pub fn make_room(&mut self) -> Option<Pick> {
        let _few = self.known(FIRST)?;
        make_room(&mut self.stripe, &mut self.scratch)
    }

    /// Loads `buf.len()` bytes of each page of the first region, so many rounds, and counts the hits. Where `spread`, the pages'
    /// parts lie in different lines of the cache, else at the pages' fronts.
    pub fn load_rounds(&mut self, rounds: u64, spread: bool, buf: &mut [u8]) -> u64 {
        if self.regions == 0 || buf.is_empty() || buf.len() > self.scratch.len() {
            return 0;
        }
        let room = room_for(self.scratch.len(), buf.len(), spread);
        load_rounds(&mut self.stripe, self.pages, room, rounds, buf)
    }

    /// Stores these bytes to each page of the first region, so many rounds, and counts the hits.
    pub fn save_rounds(&mut self, rounds: u64, spread: bool, bytes: &[u8]) -> u64 {
        if self.regions == 0 || bytes.is_empty() || bytes.len() > self.scratch.len() {
            return 0;
        }
        let room = room_for(self.scratch.len(), bytes.len(), spread);
        save_rounds(&mut self.stripe, self.pages, room, rounds, bytes)
    }

    /// Writes a page back, where it may be written now. Where `between` is a byte, a store of it to `PLACE` comes while the write
    /// is out, and what it finds is answered inside.
    pub fn write(&mut self, key: Key, why: Cause, between: Option<u8>) -> Option<Option<Look>> {
        let mut meanwhile = Reopen {
            byte: between,
            found: None,
        };
        if self.write_while(key, why, &mut meanwhile) {
            Some(meanwhile.found)
        } else {
            None
        }
    }

    /// Writes a page back, where it may be written now, and lets this act while the write is out.
    pub fn write_while<M: Meanwhile<S>>(
        &mut self,
        key: Key,
        why: Cause,
        meanwhile: &mut M,
    ) -> bool {
        let Some(key) = self.known(key) else {
            return false;
        };
        if !may_write(&self.stripe, key, why) {
            return false;
        }
        write_out(&mut self.stripe, key, why, &mut self.scratch, meanwhile);
        true
    }

    /// Lets a page leave.
    pub fn evict(&mut self, key: Key, why: Cause) -> bool {
        let Some(key) = self.known(key) else {
            return false;
        };
        if !may_evict(&self.stripe, key, why) {
            return false;
        }
        self.stripe.evict(key, why);
        true
    }

    /// Begins to close a region.
    pub fn close(&mut self, region: u16) -> bool {
        let Some(key) = self.known(Key { region, page: 0 }) else {
            return false;
        };
        if self.stripe.is_closing(key.region) {
            return false;
        }
        self.stripe.closing(key.region);
        true
    }

    /// Unmaps a region.
    pub fn unmap(&mut self, region: u16) -> bool {
        let Some(key) = self.known(Key { region, page: 0 }) else {
            return false;
        };
        if !self.stripe.is_closing(key.region) || self.stripe.is_unmapped(key.region) {
            return false;
        }
        if !self.stripe.quiet(key.region) {
            return false;
        }
        self.stripe.unmapped(key.region);
        true
    }

    /// What a page shows.
    pub fn shown(&self, key: Key) -> Option<Shown> {
        let key = self.known(key)?;
        Some(Shown {
            present: self.stripe.is_present(key),
            protected: self.stripe.is_guarded(key),
            dirty: self.stripe.is_dirty(key),
            fault: self.stripe.read_fault(key),
        })
    }

    /// What the `i`-th frame holds.
    pub fn frame(&self, i: u32) -> Option<FrameState> {
        if i < self.frames {
            Some(self.stripe.frame(i))
        } else {
            None
        }
    }

    /// Whether nothing of a region is left.
    pub fn quiet(&self, region: u16) -> bool {
        match self.known(Key { region, page: 0 }) {
            Some(key) => self.stripe.quiet(key.region),
            None => false,
        }
    }

    /// Ends the stripe, and hands its lanes back in order of region.
    pub fn into_lanes(self) -> List<S> {
        readers_agree();
        let Hand {
            stripe,
            scratch: _,
            regions: _,
            pages: _,
            frames: _,
        } = self;
        stripe.into_lanes()
    }
}

/// Where in a page of `size` bytes an access to `bytes` of them may start: up to here where `spread`, else at its front.
fn room_for(size: usize, bytes: usize, spread: bool) -> u32
    requires fits { bytes ≤ size }
    requires small { size ≤ MOST_PAGE_SIZE }
    ensures within { result + bytes ≤ size }
{
    if spread { (size - bytes) as u32 } else { 0 }
}
