//! Calls of a stripe, each of which leaves it standing for a history.
ghost use Rattle.std.specs.Prelude.{◌≡◌, ◌≤◌, ◌+◌, ◌^◌, true, length};
ghost use Rattle.page_base.specs.declared.limits.TheConstants.{LEAST_PAGE_SIZE, MOST_PAGE_SIZE};
ghost use Rattle.page_base.specs.declared.keys.Key.{Key};
ghost use Rattle.page_model.specs.Core.{next};
ghost use Rattle.page_model.specs.Events.{CanStartWrite};
ghost use Rattle.page_model.specs.Setups.{has_page, is_writable};
ghost use Rattle.page_model.specs.declared.seen.Next.TheVariants as serve;
ghost use Rattle.core_bench.specs.Hands.{CoreGoesOn, IsAllWritable, IsAtRest, Stands};

use crate::asked::may_raise;
use crate::meanwhile::{Meanwhile, Reopen};
use page_base::{Key, LEAST_PAGE_SIZE, Why};
use page_model::events::{picks_know, service_knows};
use page_model::{Cause, Next, Pick};
use store_trait::Store;
use stripe_core::{Look, Raise, Stripe};

/// Lets a page wait, where it may.
pub fn raise_at<S: Store>(stripe: &mut Stripe<S>, key: Key, why: Why) -> Option<Raise>
    requires few { stripe.old.events + 1 ≤ 2 ^ 62 }
    requires page { has_page stripe.old.setup key ≡ true }
    requires writable { is_writable stripe.old.setup key.region ≡ true }
    ensures on { CoreGoesOn stripe.old stripe.new }
    ensures events { stripe.new.events ≤ stripe.old.events + 1 }
{
    if !may_raise(stripe, key, why) {
        return None;
    }
    Some(stripe.raise(key, why))
}

/// Reads one of the first bytes of a page, which every page has.
pub fn load_at<S: Store>(stripe: &mut Stripe<S>, key: Key, place: u32) -> Option<(Look, u8)>
    requires few { stripe.old.events + 1 ≤ 2 ^ 62 }
    requires page { has_page stripe.old.setup key ≡ true }
    requires large { LEAST_PAGE_SIZE ≤ stripe.old.setup.page_size }
    ensures on { CoreGoesOn stripe.old stripe.new }
{
    if place >= LEAST_PAGE_SIZE {
        return None;
    }
    let mut bytes = [0u8];
    let look = stripe.load(key, place, &mut bytes);
    Some((look, bytes[0]))
}

/// Writes one of the first bytes of a page, which every page has.
pub fn save_at<S: Store>(stripe: &mut Stripe<S>, key: Key, place: u32, byte: u8) -> Option<Look>
    requires few { stripe.old.events + 1 ≤ 2 ^ 62 }
    requires page { has_page stripe.old.setup key ≡ true }
    requires writable { is_writable stripe.old.setup key.region ≡ true }
    requires large { LEAST_PAGE_SIZE ≤ stripe.old.setup.page_size }
    ensures on { CoreGoesOn stripe.old stripe.new }
    ensures events { stripe.new.events ≤ stripe.old.events + 1 }
{
    if place >= LEAST_PAGE_SIZE {
        return None;
    }
    Some(stripe.save(key, place, &[byte]))
}

/// Opens the page that is next, where one is.
pub fn open_next<S: Store>(stripe: &mut Stripe<S>)
    requires few { stripe.old.events + 1 ≤ 2 ^ 62 }
    requires stands { Stands stripe.old }
    ensures on { CoreGoesOn stripe.old stripe.new }
    ensures events { stripe.new.events ≤ stripe.old.events + 1 }
{
    if let Next::Open(_) = stripe.next() {
        let _ = stripe.open_page();
    }
}

/// Reads in the page that is next.
pub fn read_in<S: Store>(stripe: &mut Stripe<S>, scratch: &mut [u8])
    requires few { stripe.old.events + 2 ≤ 2 ^ 62 }
    requires rest { IsAtRest stripe.old }
    requires size { length scratch.old ≡ stripe.old.setup.page_size }
    requires small { stripe.old.setup.page_size ≤ MOST_PAGE_SIZE }
    requires next { (k : Key) × (next stripe.old ≡ serve.Read k) }
    ensures rest { IsAtRest stripe.new }
    ensures setup { stripe.new.setup ≡ stripe.old.setup }
{
    let mut trip = stripe.start_read();
    let place = u64::from(trip.key().page) * scratch.len() as u64;
    match trip.lane().read_from_store(scratch, place) {
        Ok(()) => {
            stripe.filled(trip, scratch);
        }
        Err(_) => stripe.read_failed(trip),
    }
}

/// Writes a page back, and lets `meanwhile` act while the write is out.
pub fn write_out<S: Store, M: Meanwhile<S>>(
    stripe: &mut Stripe<S>,
    key: Key,
    why: Cause,
    scratch: &mut [u8],
    meanwhile: &mut M,
)
    requires few { stripe.old.events + 8 ≤ 2 ^ 61 }
    requires rest { IsAtRest stripe.old }
    requires page { has_page stripe.old.setup key ≡ true }
    requires writable { is_writable stripe.old.setup key.region ≡ true }
    requires large { LEAST_PAGE_SIZE ≤ stripe.old.setup.page_size }
    requires size { length scratch.old ≡ stripe.old.setup.page_size }
    requires small { stripe.old.setup.page_size ≤ MOST_PAGE_SIZE }
    requires can { CanStartWrite stripe.old key why }
    ensures rest { IsAtRest stripe.new }
    ensures setup { stripe.new.setup ≡ stripe.old.setup }
{
    service_knows();
    let mut trip = stripe.start_write(key, why, scratch);
    meanwhile.act(stripe, key);
    let place = u64::from(key.page) * scratch.len() as u64;
    match trip.lane().write_to_store(scratch, place) {
        Ok(()) => stripe.written(trip, scratch),
        Err(_) => stripe.write_failed(trip),
    }
}

/// Makes room under pressure: writes the page that is picked back where it is dirty, else lets it leave.
pub fn make_room<S: Store>(stripe: &mut Stripe<S>, scratch: &mut [u8]) -> Option<Pick>
    requires few { stripe.old.events + 8 ≤ 2 ^ 61 }
    requires rest { IsAtRest stripe.old }
    requires writable { IsAllWritable stripe.old.setup }
    requires large { LEAST_PAGE_SIZE ≤ stripe.old.setup.page_size }
    requires size { length scratch.old ≡ stripe.old.setup.page_size }
    requires small { stripe.old.setup.page_size ≤ MOST_PAGE_SIZE }
    ensures rest { IsAtRest stripe.new }
    ensures setup { stripe.new.setup ≡ stripe.old.setup }
{
    picks_know();
    if !stripe.pressure() {
        return None;
    }
    match stripe.pick() {
        Some(pick) if pick.dirty => {
            write_out(
                stripe,
                pick.key,
                Cause::Pressure,
                scratch,
                &mut Reopen::none(),
            );
            Some(pick)
        }
        Some(pick) => {
            stripe.evict(pick.key, Cause::Pressure);
            Some(pick)
        }
        None => None,
    }
}
