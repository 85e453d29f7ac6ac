//! What events ask of a stripe, looked at while it runs.
ghost use Rattle.std.specs.Prelude.{◌≡◌, true, false};
ghost use Rattle.page_model.specs.Core as core;
ghost use Rattle.page_model.specs.Events.{CanRaiseFor, CanStartWrite, CanEvict, IsPicked};
ghost use Rattle.page_model.specs.Setups.{has_page, is_writable};

use page_base::{Key, Why};
use page_model::Cause;
use store_trait::Store;
use stripe_core::Stripe;

/// The fault fits the page, whose region isn't closing.
pub fn may_raise<S: Store>(stripe: &Stripe<S>, key: Key, why: Why) -> bool
    requires page { has_page stripe.now.setup key ≡ true }
    requires writable { is_writable stripe.now.setup key.region ≡ true }
    ensures stays { result ≡ true → core.is_closing stripe.now key.region ≡ false }
    ensures fits { result ≡ true → CanRaiseFor stripe.now key why }
{
    if stripe.is_closing(key.region) {
        return false;
    }
    match why {
        Why::Protected => stripe.is_guarded(key),
        Why::Read | Why::Write | Why::Ahead => !stripe.is_present(key),
    }
}

/// The page is the next to leave, and pages have to.
fn is_picked<S: Store>(stripe: &Stripe<S>, key: Key) -> bool
    ensures { result ≡ true → IsPicked stripe.now key }
{
    match stripe.pick() {
        Some(pick) => stripe.pressure() && pick.key == key,
        None => false,
    }
}

/// A write of the page may start for this cause.
pub fn may_write<S: Store>(stripe: &Stripe<S>, key: Key, why: Cause) -> bool
    requires page { has_page stripe.now.setup key ≡ true }
    requires home { core.is_home stripe.now key.region ≡ true }
    ensures { result ≡ true → CanStartWrite stripe.now key why }
{
    if !stripe.is_dirty(key) {
        return false;
    }
    match why {
        Cause::Pressure => is_picked(stripe, key),
        Cause::Unmap => stripe.is_closing(key.region),
        Cause::Flush => true,
    }
}

/// The page may leave for this cause.
pub fn may_evict<S: Store>(stripe: &Stripe<S>, key: Key, why: Cause) -> bool
    requires page { has_page stripe.now.setup key ≡ true }
    requires home { core.is_home stripe.now key.region ≡ true }
    ensures { result ≡ true → CanEvict stripe.now key why }
{
    if !stripe.is_present(key) || stripe.is_dirty(key) {
        return false;
    }
    match why {
        Cause::Pressure => is_picked(stripe, key),
        Cause::Unmap => stripe.is_closing(key.region),
        Cause::Flush => false,
    }
}
