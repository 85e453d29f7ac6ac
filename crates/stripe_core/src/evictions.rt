//! Evictions: a clean page leaves its frame.
ghost use Rattle.std.specs.Prelude.{◌≡◌, ◌<◌, ◌+◌, ◌^◌, ◌&&◌, nat_lt, true};
ghost use Rattle.page_model.specs.declared.entry.Entry.TheVariants as entry;
ghost use Rattle.page_model.specs.Core as core;
ghost use Rattle.page_model.specs.Events.{CanEvict};
ghost use Rattle.page_model.specs.Setups.{has_page};
ghost use Rattle.page_model.specs.Steps as step;
ghost use Rattle.stripe_core.specs.InsideSteps.{eviction_counted};
ghost use Rattle.stripe_core.specs.Standing.{StandsAfter};
ghost use Rattle.page_model.specs.Steps.{without_page};

use crate::stripe::Stripe;
use page_base::Key;
use page_model::Cause;
use page_model::events::evict_stands;
use soft_mmu::{Found, Wants};
use store_trait::Store;

// The steps, by the data that they leave.
impl<S: Store> Stripe<S> {
    /// Takes a resident page out of its frame, which is free then.
    pub(crate) fn free_page(&mut self, key: Key)
        requires page { has_page self.old.setup key ≡ true }
        requires present { core.is_present self.old key ≡ true }
        ensures step { self.new ≡ record self.old { pages = without_page key self.old.pages } }
    {
        let Found::Hit(frame) = self.table.translate(key, Wants::Read) else {
            unreachable!()
        };
        self.queue.lose(key);
        self.table.remove(key);
        self.buffer.release(frame);
    }

    fn count_eviction(&mut self)
        requires few { self.old.events < 2 ^ 62 }
        ensures step { self.new ≡ eviction_counted self.old }
    {
        let still = goes_on(self.buffer.resident(), self.marks.off, self.evicting);
        self.evicting = still;
        self.counts.evictions += 1;
        self.events += 1;
    }
}

/// Whether a stripe that evicted before does so still.
fn goes_on(resident: u32, off: u32, before: bool) -> bool
    ensures { result ≡ (nat_lt off resident && before) }
{
    resident > off && before
}

// The event, by the history that the stripe stands for.
impl<S: Store> Stripe<S> {
    /// Lets a clean page leave. Its frame is free, and what the page held is in the store.
    pub fn evict(&mut self, key: Key, why: Cause)
        requires few { self.old.events < 2 ^ 62 }
        requires page { has_page self.old.setup key ≡ true }
        requires can { CanEvict self.old key why }
        ensures step { self.new ≡ step.evict self.old key }
        ensures fixed { self.new.setup ≡ self.old.setup }
        ensures stands { StandsAfter (entry.Evicted key why) self.old self.new }
    {
        evict_stands();
        self.free_page(key);
        self.count_eviction();
    }
}
