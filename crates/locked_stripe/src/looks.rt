//! One hold of an access.
ghost use Rattle.std.specs.Prelude.{◌≡◌, ◌≢◌, ◌<◌, length, true, false};
ghost use Rattle.page_model.specs.declared.entry.Entry.TheVariants as entry;
ghost use Rattle.page_model.specs.Events.{InPage};
ghost use Rattle.page_model.specs.Setups.{is_writable};
ghost use Rattle.locked_stripe.specs.InsideLooks.{Glances, StoreGlances, IsSameFault, IsOtherFault, fault_of};
ghost use Rattle.turn_lock.specs.Seen.{IsPassOf};
ghost use Rattle.locked_stripe.specs.Terms.{locked_setup};

use crate::answers::Glance;
use crate::stripe_box::StripeBox;
use page_base::{Key, Why};
use page_model::events::readers_agree;
use page_model::laws::pages_are_of_stripe;
use page_model::{Journal, Note};
use std::sync::Wait;
use store_trait::Store;
use stripe_core::{Look, Raise};
use turn_lock::{Pass, TurnLock};

/// Whether a look finds another number than the first one did.
fn is_other(before: Option<u64>, faults: u64) -> bool
    ensures same { result ≡ false → IsSameFault before faults }
    ensures other { result ≡ true → IsOtherFault before faults }
{
    match before {
        Some(first) => first != faults,
        None => false,
    }
}

/// Loads a part of a page where that hits, and else raises its fault.
pub(crate) fn look_load<S: Store, J: Journal, R: Wait>(
    rt: &R,
    lock: &TurnLock<StripeBox<S, J>>,
    pass: &mut Pass<StripeBox<S, J>>,
    key: Key,
    place: u32,
    buf: &mut [u8],
    before: Option<u64>,
) -> Glance
    requires own { IsPassOf lock.now pass.old }
    requires left { pass.old.holds < lock.now.holds }
    requires in_page { InPage (locked_setup lock.now) key place (length buf.old) }
    ensures glances { Glances (locked_setup lock.now) pass.old pass.new key (entry.Load key place buf.new) Why.Read
        before result }
    ensures untouched { result ≢ Glance.Done → buf.new ≡ buf.old }
{
    let Ok((mut kept, held)) = lock.hold(rt, pass) else {
        unreachable!()
    };
    readers_agree();
    pages_are_of_stripe();
    let owner = held.number();
    let inner = &mut *kept.noted;
    match inner.stripe.load(key, place, buf) {
        Look::Hit => {
            let note = Note::Load {
                key,
                place,
                bytes: buf,
            };
            inner.journal.note(owner, &note);
            held.give(kept, &note);
            return Glance::Done;
        }
        Look::Closed => {
            held.leave(kept);
            return Glance::Closed;
        }
        Look::Missing => {}
        Look::Protected => unreachable!(),
    }
    let faults = inner.stripe.read_fault(key);
    if is_other(before, faults) {
        held.leave(kept);
        return Glance::Failed(faults);
    }
    let why = Why::Read;
    match inner.stripe.raise(key, why) {
        Raise::Raised => {
            let note = Note::Raised { key, why };
            inner.journal.note(owner, &note);
            held.give(kept, &note);
            Glance::Waits(faults)
        }
        Raise::Pending | Raise::QueueFull => {
            held.leave(kept);
            Glance::Waits(faults)
        }
    }
}

/// Why a store that doesn't hit raises the page's fault.
fn fault_of(look: Look) -> Why
    ensures exact { result ≡ fault_of look }
{
    match look {
        Look::Missing => Why::Write,
        _ => Why::Protected,
    }
}

/// Stores into a part of a page where that hits, and else raises its fault.
pub(crate) fn look_store<S: Store, J: Journal, R: Wait>(
    rt: &R,
    lock: &TurnLock<StripeBox<S, J>>,
    pass: &mut Pass<StripeBox<S, J>>,
    key: Key,
    place: u32,
    bytes: &[u8],
    before: Option<u64>,
) -> Glance
    requires own { IsPassOf lock.now pass.old }
    requires left { pass.old.holds < lock.now.holds }
    requires in_page { InPage (locked_setup lock.now) key place (length bytes.now) }
    requires writable { is_writable (locked_setup lock.now) key.region ≡ true }
    ensures glances { StoreGlances (locked_setup lock.now) pass.old pass.new key (entry.Save key place bytes.now)
        before result }
{
    let Ok((mut kept, held)) = lock.hold(rt, pass) else {
        unreachable!()
    };
    readers_agree();
    pages_are_of_stripe();
    let owner = held.number();
    let inner = &mut *kept.noted;
    let look = inner.stripe.save(key, place, bytes);
    match look {
        Look::Hit => {
            let note = Note::Save { key, place, bytes };
            inner.journal.note(owner, &note);
            held.give(kept, &note);
            return Glance::Done;
        }
        Look::Closed => {
            held.leave(kept);
            return Glance::Closed;
        }
        Look::Missing | Look::Protected => {}
    }
    let why = fault_of(look);
    let faults = inner.stripe.read_fault(key);
    if is_other(before, faults) {
        held.leave(kept);
        return Glance::Failed(faults);
    }
    match inner.stripe.raise(key, why) {
        Raise::Raised => {
            let note = Note::Raised { key, why };
            inner.journal.note(owner, &note);
            held.give(kept, &note);
            Glance::Waits(faults)
        }
        Raise::Pending | Raise::QueueFull => {
            held.leave(kept);
            Glance::Waits(faults)
        }
    }
}
