//! Readers that serve eviction, flushing and unmapping. None walks the resident pages but `frame`, over those before its place.
ghost use Rattle.std.specs.Prelude.{◌≡◌, ◌<◌, ◌==◌, ◌&&◌, not, true, find, option_map, slice_get, IfSome};
ghost use Rattle.std.specs.List.{list_any};
ghost use Rattle.page_model.specs.Core as core;
ghost use Rattle.page_model.specs.Setups.{quota, regions};
ghost use Rattle.stripe_core.specs.FrameStates.{frame_state, state_of};
ghost use Rattle.stripe_core.specs.InsideFrameStates.{keys_of, pick_at};

use crate::answers::FrameState;
use crate::oldest::oldest_leaving;
use crate::stripe::Stripe;
use page_base::Key;
use page_model::Pick;
use page_model::events::flush_knows;
use store_trait::Store;

impl<S: Store> Stripe<S> {
    /// Whether pages have to leave: the stripe evicts, or has no free frame.
    pub fn pressure(&self) -> bool
        ensures exact { result ≡ core.has_pressure self.now }
    {
        self.evicting || self.free_frames() == 0
    }

    /// The oldest resident page that may leave: it isn't being written, and is clean or has its lane home.
    pub fn pick(&self) -> Option<Pick>
        ensures exact { result ≡ core.pick self.now }
    {
        match self.first_leaving() {
            Some(key) => Some(self.pick_of(key)),
            None => None,
        }
    }

    /// The oldest resident page of a region.
    pub fn oldest_of(&self, region: u16) -> Option<Pick>
        ensures exact { result ≡ core.oldest_of self.now region }
    {
        match self.first_of(region) {
            Some(key) => Some(self.pick_of(key)),
            None => None,
        }
    }

    /// The least dirty page past a key, of all where none is given: what a flush writes next. It walks the table on from
    /// behind the key and passes over leaves and regions in which nothing is dirty, so a whole flush walks the table once.
    pub fn next_dirty(&self, after: Option<Key>) -> Option<Key>
        ensures exact { result ≡ core.next_dirty self.now after }
    {
        flush_knows();
        self.table.next_dirty(after)
    }

    /// Whether no page of the region is resident, pending, being read or being written.
    pub fn quiet(&self, region: u16) -> bool
        requires region { region < regions self.now.setup }
        ensures exact { result ≡ core.is_quiet self.now region }
    {
        let resident = self.has_resident(region);
        let waits = self.queue.faults().waits_in(region);
        nothing_left(resident, waits, self.is_home(region))
    }

    /// What the `i`-th frame holds. Frames go by the order in which their pages were filled: past the last page they are empty.
    pub fn frame(&self, i: u32) -> FrameState
        requires within { i < quota self.now.setup }
        ensures exact { result ≡ frame_state self.now i }
    {
        match self.resident_at(i) {
            Some(page) => show(page, self.has_lane(page.key.region)),
            None => FrameState::Empty,
        }
    }

    /// The page at a place in the order of filling.
    fn resident_at(&self, place: u32) -> Option<Pick>
        ensures exact { result ≡ option_map core.pick_of (slice_get self.now.pages place) }
    {
        match self.buffer.nth(place) {
            Some(key) => Some(self.pick_of(key)),
            None => None,
        }
    }

    fn pick_of(&self, key: Key) -> Pick
        requires present { core.is_present self.now key ≡ true }
        ensures exact { result ≡ pick_at self.now key }
    {
        let dirty = self.table.bits(key).dirty;
        Pick { key, dirty }
    }

    fn has_lane(&self, region: u16) -> bool
        ensures exact { result ≡ core.is_home self.now region }
    {
        match self.regions.get(region as usize) {
            Some(region) => region.lane.is_home(),
            None => false,
        }
    }

    /// Whether a page of the region is resident.
    fn has_resident(&self, region: u16) -> bool
        requires region { region < regions self.now.setup }
        ensures exact { result ≡ list_any (λ k. k.region == region) (keys_of self.now) }
    {
        self.table.present_in(region) > 0
    }

    /// The key of the pick.
    fn first_leaving(&self) -> Option<Key>
        ensures picks { option_map (pick_at self.now) result ≡ core.pick self.now }
        ensures present { IfSome result (λ key. core.is_present self.now key ≡ true) }
    {
        self.buffer.ordered();
        self.buffer.at(oldest_leaving(&self.buffer, &self.regions)?)
    }

    /// The key of the oldest resident page of a region.
    fn first_of(&self, region: u16) -> Option<Key>
        ensures picks { option_map (pick_at self.now) result ≡ core.oldest_of self.now region }
        ensures present { IfSome result (λ key. core.is_present self.now key ≡ true) }
        ensures exact { result ≡ find (λ k. k.region == region) (keys_of self.now) }
    {
        self.buffer.ordered();
        self.buffer.at(self.buffer.oldest_of(region)?)
    }
}

fn show(page: Pick, home: bool) -> FrameState
    ensures { result ≡ state_of page home }
{
    if !page.dirty {
        FrameState::Clean(page.key)
    } else if home {
        FrameState::Dirty(page.key)
    } else {
        FrameState::Away(page.key)
    }
}

fn nothing_left(resident: bool, waits: bool, home: bool) -> bool
    ensures { result ≡ (not resident && not waits && home) }
{
    !resident && !waits && home
}
