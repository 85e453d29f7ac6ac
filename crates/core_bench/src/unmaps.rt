//! Steps of an unmapping: the oldest page of a closing region leaves.
ghost use Rattle.std.specs.Prelude.{◌≡◌, ◌<◌, ◌≤◌, ◌^◌};
ghost use Rattle.page_model.specs.Setups.{regions};
ghost use Rattle.core_bench.specs.Hands.{CoreGoesOn, Stands};

use page_model::Cause;
use page_model::events::picks_know;
use store_trait::Store;
use stripe_core::Stripe;

const MOST_EVENTS: u64 = 1 << 60;

/// Lets the oldest page of a region leave, where the region closes, its lane is home, and the page is clean.
fn unmap_step<S: Store>(stripe: &mut Stripe<S>, region: u16) -> bool
    requires few { stripe.old.events ≤ 2 ^ 61 }
    requires stands { Stands stripe.old }
    requires region { region < regions stripe.old.setup }
    ensures on { CoreGoesOn stripe.old stripe.new }
    ensures events { stripe.new.events ≤ 2 ^ 61 }
{
    picks_know();
    if !stripe.is_closing(region) {
        return false;
    }
    if !stripe.is_home(region) || stripe.events() >= MOST_EVENTS {
        return false;
    }
    match stripe.oldest_of(region) {
        Some(oldest) if oldest.dirty => false,
        Some(oldest) => {
            stripe.evict(oldest.key, Cause::Unmap);
            true
        }
        None => false,
    }
}

/// So many steps of a region's unmapping. It counts the pages that left.
#[tactic(auto, using(crate::proofs::Going::goes_twice, crate::proofs::Going::stands_still))]
fn unmap_region<S: Store>(stripe: &mut Stripe<S>, region: u16, steps: u32) -> u64
    requires few { stripe.old.events ≤ 2 ^ 61 }
    requires stands { Stands stripe.old }
    requires region { region < regions stripe.old.setup }
    ensures on { CoreGoesOn stripe.old stripe.new }
    ensures events { stripe.new.events ≤ 2 ^ 61 }
{
    let mut left: u64 = 0;
    for _ in 0..steps {
        left = left.saturating_add(u64::from(unmap_step(stripe, region)));
    }
    left
}

/// So many steps of the unmapping of each region below this one, region by region. It counts the pages that left.
#[tactic(auto, using(crate::proofs::Going::goes_twice, crate::proofs::Going::stands_still))]
pub fn unmap_below<S: Store>(stripe: &mut Stripe<S>, below: u16, steps: u32) -> u64
    requires few { stripe.old.events ≤ 2 ^ 61 }
    requires stands { Stands stripe.old }
    requires below { below ≤ regions stripe.old.setup }
    ensures on { CoreGoesOn stripe.old stripe.new }
    ensures events { stripe.new.events ≤ 2 ^ 61 }
{
    let mut left: u64 = 0;
    for region in 0..below {
        left = left.saturating_add(unmap_region(stripe, region, steps));
    }
    left
}
