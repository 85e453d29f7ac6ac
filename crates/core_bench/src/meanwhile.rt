//! What goes on at a stripe while a write of one of its pages is out.
ghost use Rattle.std.specs.Prelude.{◌≡◌, ◌≤◌, ◌+◌, ◌^◌, true};
ghost use Rattle.page_base.specs.declared.limits.TheConstants.{LEAST_PAGE_SIZE};
ghost use Rattle.page_model.specs.Setups.{has_page, is_writable};
ghost use Rattle.core_bench.specs.Hands.{CoreGoesOn, Stands};

use crate::calls::{open_next, raise_at, save_at};
use page_base::{Key, Why};
use store_trait::Store;
use stripe_core::{Look, Stripe};

/// The byte of a page that is stored to while a write of the page is out.
pub const PLACE: u32 = 5;

/// What is done while a write is out. No lane goes out or comes back by it.
pub trait Meanwhile<S: Store> {
    /// Acts while a write of the page is out.
    fn act(&mut self, stripe: &mut Stripe<S>, key: Key)
        requires few { stripe.old.events + 4 ≤ 2 ^ 61 }
        requires stands { Stands stripe.old }
        requires page { has_page stripe.old.setup key ≡ true }
        requires writable { is_writable stripe.old.setup key.region ≡ true }
        requires large { LEAST_PAGE_SIZE ≤ stripe.old.setup.page_size }
        ensures on { CoreGoesOn stripe.old stripe.new }
        ensures events { stripe.new.events ≤ 2 ^ 61 };
}

/// A store of a byte, where one is given, to `PLACE` of the page that is being written: the page is protected, waits to be
/// opened, is opened, and is stored to. What the store finds first is `found` then.
#[derive(Drop)]
pub struct Reopen {
    pub byte: Option<u8>,
    pub found: Option<Look>,
}

impl Reopen {
    /// No store.
    pub fn none() -> Reopen {
        Reopen {
            byte: None,
            found: None,
        }
    }
}

impl<S: Store> Meanwhile<S> for Reopen {
    fn act(&mut self, stripe: &mut Stripe<S>, key: Key) {
        let Some(byte) = self.byte else {
            return;
        };
        self.found = save_at(stripe, key, PLACE, byte);
        let _ = raise_at(stripe, key, Why::Protected);
        open_next(stripe);
        let _ = save_at(stripe, key, PLACE, byte);
    }
}
