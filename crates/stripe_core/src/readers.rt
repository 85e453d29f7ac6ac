//! Readers of a stripe: what it answers of itself without an event.
ghost use Rattle.std.specs.Prelude.{◌≡◌, ◌<◌, true};
ghost use Rattle.page_model.specs.Setups.{regions, has_page};
ghost use Rattle.page_model.specs.Core as core;

use crate::stripe::Stripe;
use page_base::Key;
use page_model::Counts;
use store_trait::Store;

impl<S: Store> Stripe<S> {
    /// Whether the stripe has had the region's closing.
    pub fn is_closing(&self, region: u16) -> bool
        requires region { region < regions self.now.setup }
        ensures exact { result ≡ core.is_closing self.now region }
    {
        self.regions[region as usize].closing
    }

    /// Whether the stripe has had the region's unmapping.
    pub fn is_unmapped(&self, region: u16) -> bool
        requires region { region < regions self.now.setup }
        ensures exact { result ≡ core.is_unmapped self.now region }
    {
        self.regions[region as usize].unmapped
    }

    /// Whether the page is resident.
    pub fn is_present(&self, key: Key) -> bool
        requires page { has_page self.now.setup key ≡ true }
        ensures exact { result ≡ core.is_present self.now key }
    {
        self.table.bits(key).present
    }

    /// Whether the page is resident and write-protected.
    pub fn is_guarded(&self, key: Key) -> bool
        requires page { has_page self.now.setup key ≡ true }
        ensures exact { result ≡ core.is_guarded self.now key }
    {
        self.table.bits(key).protected
    }

    /// Whether the page is resident and holds what its store may lack: it was opened to stores, and no write that began since
    /// has ended well.
    pub fn is_dirty(&self, key: Key) -> bool
        requires page { has_page self.now.setup key ≡ true }
        ensures exact { result ≡ core.is_dirty self.now key }
    {
        self.table.bits(key).dirty
    }

    /// Whether the region's lane is home: no page of it is being read or written.
    pub fn is_home(&self, region: u16) -> bool
        requires region { region < regions self.now.setup }
        ensures exact { result ≡ core.is_home self.now region }
    {
        self.regions[region as usize].lane.is_home()
    }

    /// The lane's count of faults at the page's last failed read, 0 where no read of it failed.
    pub fn read_fault(&self, key: Key) -> u64
        requires page { has_page self.now.setup key ≡ true }
        ensures exact { result ≡ core.read_fault self.now key }
    {
        self.regions[key.region as usize].read_faults.get(key.page)
    }

    /// Whether a fill brought the resident pages to the high mark, and no eviction brought them to the low one since.
    pub fn evicting(&self) -> bool
        ensures exact { result ≡ self.now.evicting }
    {
        self.evicting
    }

    /// The number of resident pages.
    pub fn resident(&self) -> u32
        ensures exact { result ≡ core.resident self.now }
    {
        self.buffer.resident()
    }

    /// How many entries were made.
    pub fn events(&self) -> u64
        ensures exact { result ≡ self.now.events }
    {
        self.events
    }

    /// How many pages were read in, written back and evicted, and how many store calls failed.
    pub fn counts(&self) -> Counts
        ensures exact { result ≡ self.now.counts }
    {
        self.counts
    }
}
