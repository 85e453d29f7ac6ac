//! A service of one stripe, and making room in it.
ghost use Rattle.std.specs.Prelude.{◌≡◌, ◌<◌, ◌≤◌, ◌+◌, length, IsErr, OnErr, IfOk, ◌↔◌};
ghost use Rattle.locked_stripe.specs.Serves.{ServesOne, MakesRoom};
ghost use Rattle.turn_lock.specs.Seen.{IsPassOf};
ghost use Rattle.locked_stripe.specs.Terms.{locked_setup};
ghost use Rattle.page_base.specs.declared.limits.TheConstants.{MOST_PAGE_SIZE};

use crate::answers::{Back, Served};
use crate::laws::pager_laws;
use crate::reads::{begin, fill, miss};
use crate::stripe_box::StripeBox;
use crate::trips::{read_page, write_page};
use crate::writes::{begin_write, wrote, wrote_badly};
use page_model::Journal;
use std::sync::Wait;
use store_trait::Store;
use turn_lock::{Pass, PassSpent, TurnLock};

/// One step of service in a stripe.
pub fn serve_in<S: Store, J: Journal, R: Wait>(
    rt: &R,
    lock: &TurnLock<StripeBox<S, J>>,
    pass: &mut Pass<StripeBox<S, J>>,
    scratch: &mut [u8],
) -> Result<Served, PassSpent>
    requires own { IsPassOf lock.now pass.old }
    requires size { length scratch.old ≡ (locked_setup lock.now).page_size }
    requires small { length scratch.old ≤ MOST_PAGE_SIZE }
    ensures size { length scratch.new ≡ length scratch.old }
    ensures spent { IsErr result ↔ (lock.now.holds < pass.old.holds + 2) }
    ensures err { OnErr result (pass.new ≡ pass.old) }
    ensures served { IfOk result (ServesOne (locked_setup lock.now) pass.old pass.new) }
{
    pager_laws();
    if pass.left() < 2 {
        return Err(PassSpent);
    }
    let mut trip = match begin(rt, lock, pass) {
        Ok(trip) => trip,
        Err(served) => return Ok(served),
    };
    let key = trip.key();
    match read_page(&mut trip, scratch) {
        Ok(()) => {
            let why = fill(rt, lock, pass, trip, scratch);
            Ok(Served::Filled(key, why))
        }
        Err(_) => {
            let faults = miss(rt, lock, pass, trip);
            Ok(Served::ReadFailed(key, faults))
        }
    }
}

/// Makes room in a stripe that is under pressure.
pub fn make_room_in<S: Store, J: Journal, R: Wait>(
    rt: &R,
    lock: &TurnLock<StripeBox<S, J>>,
    pass: &mut Pass<StripeBox<S, J>>,
    scratch: &mut [u8],
) -> Result<Back, PassSpent>
    requires own { IsPassOf lock.now pass.old }
    requires size { length scratch.old ≡ (locked_setup lock.now).page_size }
    requires small { length scratch.old ≤ MOST_PAGE_SIZE }
    ensures size { length scratch.new ≡ length scratch.old }
    ensures spent { IsErr result ↔ (lock.now.holds < pass.old.holds + 2) }
    ensures err { OnErr result (pass.new ≡ pass.old) }
    ensures made { IfOk result (MakesRoom (locked_setup lock.now) pass.old pass.new) }
{
    pager_laws();
    if pass.left() < 2 {
        return Err(PassSpent);
    }
    let mut trip = match begin_write(rt, lock, pass, scratch) {
        Ok(trip) => trip,
        Err(back) => return Ok(back),
    };
    let key = trip.key();
    match write_page(&mut trip, scratch) {
        Ok(()) => {
            wrote(rt, lock, pass, trip, scratch);
            Ok(Back::Written(key))
        }
        Err(_) => {
            let faults = wrote_badly(rt, lock, pass, trip);
            Ok(Back::WriteFailed(key, faults))
        }
    }
}
