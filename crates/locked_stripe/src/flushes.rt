//! Flushing a stripe: its dirty pages are written, each once, in rising order of key.
ghost use Rattle.std.specs.Prelude.{◌≡◌, ◌+◌, ◌<◌, ◌≤◌, length, IfOk, IfErr, OnOk};
ghost use Rattle.page_base.specs.declared.limits.TheConstants.{MOST_PAGE_SIZE};
ghost use Rattle.page_model.specs.Trips.{IsOpenWrite};
ghost use Rattle.turn_lock.specs.Seen.{IsPassOf};
ghost use Rattle.locked_stripe.specs.InsideTrips.{LaneOut, TookBytes};
ghost use Rattle.locked_stripe.specs.InsideWalks.{BeginsFlush, FlushRests, FlushTurns, rested};
ghost use Rattle.locked_stripe.specs.Terms.{locked_setup};
ghost use Rattle.locked_stripe.specs.Walks.{FlushWent, FlushStopped};

use crate::answers::{Access, FlushRest, FlushTurn};
use crate::laws::pager_laws;
use crate::stripe_box::StripeBox;
use crate::writes::end_write;
use page_base::Key;
use page_base::laws::keys_are_ordered;
use page_model::events::{flush_knows, readers_agree};
use page_model::laws::{flush_laws, pages_are_of_stripe};
use page_model::{Cause, Journal, Note};
use std::sync::Wait;
use store_trait::Store;
use stripe_core::Trip;
use turn_lock::{Pass, TurnLock};

/// The hold that looks for the dirty page with the least key past one, and begins to write it where its lane is home.
fn begin_flush<S: Store, J: Journal, R: Wait>(
    rt: &R,
    lock: &TurnLock<StripeBox<S, J>>,
    pass: &mut Pass<StripeBox<S, J>>,
    scratch: &mut [u8],
    after: Option<Key>,
) -> Result<Trip<S>, FlushRest>
    requires own { IsPassOf lock.now pass.old }
    requires left { pass.old.holds < lock.now.holds }
    requires size { length scratch.old ≡ (locked_setup lock.now).page_size }
    ensures rests { IfErr result (FlushRests after pass.old pass.new) }
    ensures begun { IfOk result (λ t. BeginsFlush (locked_setup lock.now) after pass.old pass.new t.start) }
    ensures open_write { IfOk result (λ t. IsOpenWrite (locked_setup lock.now) pass.new.seen pass.new.number t.start) }
    ensures taken { IfOk result (λ t. TookBytes (locked_setup lock.now) pass.new.seen t.start.key scratch.new) }
    ensures lane { IfOk result (LaneOut (locked_setup lock.now)) }
{
    let Ok((mut kept, held)) = lock.hold(rt, pass) else {
        unreachable!()
    };
    readers_agree();
    flush_knows();
    flush_laws();
    pages_are_of_stripe();
    let owner = held.number();
    let inner = &mut *kept.noted;
    let Some(key) = inner.stripe.next_dirty(after) else {
        held.leave(kept);
        return Err(FlushRest::Clean);
    };
    if !inner.stripe.is_home(key.region) {
        held.leave(kept);
        return Err(FlushRest::Away);
    }
    let why = Cause::Flush;
    let trip = inner.stripe.start_write(key, why, scratch);
    let note = Note::StartWrite { key, why };
    inner.journal.note(owner, &note);
    held.give(kept, &note);
    Ok(trip)
}

/// The turn of a flush whose look began no write.
fn rested(after: Option<Key>, rest: FlushRest) -> FlushTurn
    ensures exact { result ≡ rested after rest }
{
    match rest {
        FlushRest::Clean => FlushTurn::Done,
        FlushRest::Away => FlushTurn::Went(after),
    }
}

/// One turn of a flush, past the page that it wrote last.
fn flush_turn<S: Store, J: Journal, R: Wait>(
    rt: &R,
    lock: &TurnLock<StripeBox<S, J>>,
    pass: &mut Pass<StripeBox<S, J>>,
    scratch: &mut [u8],
    after: Option<Key>,
) -> FlushTurn
    requires own { IsPassOf lock.now pass.old }
    requires left { pass.old.holds + 2 ≤ lock.now.holds }
    requires size { length scratch.old ≡ (locked_setup lock.now).page_size }
    requires small { length scratch.old ≤ MOST_PAGE_SIZE }
    ensures own { IsPassOf lock.now pass.new }
    ensures size { length scratch.new ≡ length scratch.old }
    ensures turns { FlushTurns (locked_setup lock.now) after pass.old pass.new result }
{
    pager_laws();
    flush_laws();
    keys_are_ordered();
    let trip = match begin_flush(rt, lock, pass, scratch, after) {
        Ok(trip) => trip,
        Err(rest) => return rested(after, rest),
    };
    let key = trip.key();
    match end_write(rt, lock, pass, trip, scratch) {
        Ok(()) => FlushTurn::Went(Some(key)),
        Err(n) => FlushTurn::Failed(key, n),
    }
}

/// Writes the dirty pages of a stripe, each once, in rising order of region and page. Where another caller has a page's lane
/// it waits. The first failed write ends it. The pages stay resident.
pub fn flush_in<S: Store, J: Journal, R: Wait>(
    rt: &R,
    lock: &TurnLock<StripeBox<S, J>>,
    pass: &mut Pass<StripeBox<S, J>>,
    scratch: &mut [u8],
) -> Result<(), Access>
    requires own { IsPassOf lock.now pass.old }
    requires size { length scratch.old ≡ (locked_setup lock.now).page_size }
    requires small { length scratch.old ≤ MOST_PAGE_SIZE }
    ensures own { IsPassOf lock.now pass.new }
    ensures size { length scratch.new ≡ length scratch.old }
    ensures ok { OnOk result (FlushWent pass.old pass.new) }
    ensures err { IfErr result (FlushStopped (locked_setup lock.now) pass.old pass.new) }
{
    pager_laws();
    let mut last = None;
    for _ in rt.forever() {
        if pass.left() < 2 {
            return Err(Access::PassSpent);
        }
        last = match flush_turn(rt, lock, pass, scratch, last) {
            FlushTurn::Done => return Ok(()),
            FlushTurn::Failed(key, faults) => return Err(Access::StoreFault { key, faults }),
            FlushTurn::Went(next) => next,
        };
    }
    unreachable!()
}
