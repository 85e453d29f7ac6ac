//! An access of one piece, in its page's stripe.
ghost use Rattle.std.specs.Prelude.{◌≡◌, ◌≤◌, ◌∷◌, [], length, true, OnOk, IfErr, OnErr};
ghost use Rattle.page_model.specs.declared.entry.Entry.TheVariants as entry;
ghost use Rattle.page_model.specs.Events.{InPage};
ghost use Rattle.locked_stripe.specs.Calls.{PieceWent, PieceStopped, HoldsAreFew, for_load, for_store};
ghost use Rattle.page_model.specs.Setups.{is_writable};
ghost use Rattle.turn_lock.specs.Seen.{IsPassOf};
ghost use Rattle.locked_stripe.specs.Terms.{locked_setup};
ghost use Rattle.locked_stripe.specs.InsideCalls.{HelpStopped, Helped, failed_read, failed_write, is_room};
ghost use Rattle.page_base.specs.declared.limits.TheConstants.{MOST_PAGE_SIZE};

use crate::answers::{Access, Back, Glance, Served};
use crate::laws::pager_laws;
use crate::looks::{look_load, look_store};
use crate::serves::{make_room_in, serve_in};
use crate::stripe_box::StripeBox;
use page_base::Key;
use page_model::Journal;
use std::sync::Wait;
use store_trait::Store;
use turn_lock::{Pass, TurnLock};

fn failed_read(key: Key, served: Served) -> Option<u64>
    ensures exact { result ≡ failed_read key served }
{
    match served {
        Served::ReadFailed(failed, n) => { if failed == key { Some(n) } else { None } }
        _ => None,
    }
}

fn is_room(served: Served) -> bool
    ensures exact { result ≡ is_room served }
{
    matches!(served, Served::Room)
}

fn failed_write(back: Back) -> Option<(Key, u64)>
    ensures exact { result ≡ failed_write back }
{
    match back {
        Back::WriteFailed(key, n) => Some((key, n)),
        _ => None,
    }
}

/// A step of service for an access of page `key`, and room made where that step asks for it.
fn help_in<S: Store, J: Journal, R: Wait>(
    rt: &R,
    lock: &TurnLock<StripeBox<S, J>>,
    pass: &mut Pass<StripeBox<S, J>>,
    scratch: &mut [u8],
    key: Key,
) -> Result<(), Access>
    requires own { IsPassOf lock.now pass.old }
    requires size { length scratch.old ≡ (locked_setup lock.now).page_size }
    requires small { length scratch.old ≤ MOST_PAGE_SIZE }
    ensures own { IsPassOf lock.now pass.new }
    ensures size { length scratch.new ≡ length scratch.old }
    ensures helped { OnOk result (Helped pass.old pass.new) }
    ensures stopped { IfErr result (HelpStopped pass.old pass.new key) }
{
    pager_laws();
    let served = match serve_in(rt, lock, pass, scratch) {
        Ok(served) => served,
        Err(_) => return Err(Access::PassSpent),
    };
    if let Some(n) = failed_read(key, served) {
        return Err(Access::StoreFault { key, faults: n });
    }
    if !is_room(served) {
        return Ok(());
    }
    let back = match make_room_in(rt, lock, pass, scratch) {
        Ok(back) => back,
        Err(_) => return Err(Access::PassSpent),
    };
    match failed_write(back) {
        Some((failed, n)) => Err(Access::StoreFault {
            key: failed,
            faults: n,
        }),
        None => Ok(()),
    }
}

/// Loads a part of one page, in its page's stripe.
pub fn load_in<S: Store, J: Journal, R: Wait>(
    rt: &R,
    lock: &TurnLock<StripeBox<S, J>>,
    pass: &mut Pass<StripeBox<S, J>>,
    scratch: &mut [u8],
    key: Key,
    place: u32,
    buf: &mut [u8],
) -> Result<(), Access>
    requires own { IsPassOf lock.now pass.old }
    requires size { length scratch.old ≡ (locked_setup lock.now).page_size }
    requires small { length scratch.old ≤ MOST_PAGE_SIZE }
    requires in_page { InPage (locked_setup lock.now) key place (length buf.old) }
    ensures own { IsPassOf lock.now pass.new }
    ensures size { length scratch.new ≡ length scratch.old }
    ensures length { length buf.new ≡ length buf.old }
    ensures ok { OnOk result (PieceWent key for_load pass.old pass.new (entry.Load key place buf.new ∷ [])) }
    ensures few { OnOk result (HoldsAreFew pass.old pass.new) }
    ensures err { IfErr result (PieceStopped key for_load pass.old pass.new) }
    ensures untouched { OnErr result (buf.new ≡ buf.old) }
{
    pager_laws();
    let mut before = None;
    for _ in rt.forever() {
        if pass.left() < 2 {
            return Err(Access::PassSpent);
        }
        let faults = match look_load(rt, lock, pass, key, place, buf, before) {
            Glance::Done => return Ok(()),
            Glance::Closed => return Err(Access::Unmapped),
            Glance::Failed(n) => return Err(Access::StoreFault { key, faults: n }),
            Glance::Waits(n) => n,
        };
        match help_in(rt, lock, pass, scratch, key) {
            Ok(()) => {}
            Err(why) => return Err(why),
        }
        before = Some(faults);
    }
    unreachable!()
}

/// Stores into a part of one page, in its page's stripe.
pub fn store_in<S: Store, J: Journal, R: Wait>(
    rt: &R,
    lock: &TurnLock<StripeBox<S, J>>,
    pass: &mut Pass<StripeBox<S, J>>,
    scratch: &mut [u8],
    key: Key,
    place: u32,
    bytes: &[u8],
) -> Result<(), Access>
    requires own { IsPassOf lock.now pass.old }
    requires size { length scratch.old ≡ (locked_setup lock.now).page_size }
    requires small { length scratch.old ≤ MOST_PAGE_SIZE }
    requires in_page { InPage (locked_setup lock.now) key place (length bytes.now) }
    requires writable { is_writable (locked_setup lock.now) key.region ≡ true }
    ensures own { IsPassOf lock.now pass.new }
    ensures size { length scratch.new ≡ length scratch.old }
    ensures ok { OnOk result (PieceWent key for_store pass.old pass.new (entry.Save key place bytes.now ∷ [])) }
    ensures few { OnOk result (HoldsAreFew pass.old pass.new) }
    ensures err { IfErr result (PieceStopped key for_store pass.old pass.new) }
{
    pager_laws();
    let mut before = None;
    for _ in rt.forever() {
        if pass.left() < 2 {
            return Err(Access::PassSpent);
        }
        let faults = match look_store(rt, lock, pass, key, place, bytes, before) {
            Glance::Done => return Ok(()),
            Glance::Closed => return Err(Access::Unmapped),
            Glance::Failed(n) => return Err(Access::StoreFault { key, faults: n }),
            Glance::Waits(n) => n,
        };
        match help_in(rt, lock, pass, scratch, key) {
            Ok(()) => {}
            Err(why) => return Err(why),
        }
        before = Some(faults);
    }
    unreachable!()
}
