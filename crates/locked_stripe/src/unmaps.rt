//! Unmapping a region in one stripe: it begins to close, stale faults are dropped, its pages are written and evicted in order of
//! filling, and it is unmapped. Each hold does one of these, by what it finds, so that others may hold in between.
ghost use Rattle.std.specs.Prelude.{◌≡◌, ◌+◌, ◌<◌, ◌≤◌, length, IfOk, IfErr};
ghost use Rattle.page_base.specs.declared.limits.TheConstants.{MOST_PAGE_SIZE};
ghost use Rattle.page_model.specs.Setups.{regions};
ghost use Rattle.page_model.specs.Trips.{IsOpenWrite};
ghost use Rattle.turn_lock.specs.Seen.{IsPassOf};
ghost use Rattle.locked_stripe.specs.InsideTrips.{LaneOut, TookBytes};
ghost use Rattle.locked_stripe.specs.InsideWalks.{BeginsUnmap, UnmapSteps, UnmapTurns, stepped};
ghost use Rattle.locked_stripe.specs.Terms.{locked_setup};
ghost use Rattle.locked_stripe.specs.Walks.{UnmapWent, UnmapStopped};

use crate::answers::{Access, UnmapStep, UnmapTurn};
use crate::laws::pager_laws;
use crate::stripe_box::StripeBox;
use crate::writes::end_write;
use page_model::events::{picks_know, readers_agree};
use page_model::laws::closing_goes_ahead;
use page_model::{Cause, Journal, Next, Note};
use std::sync::Wait;
use store_trait::Store;
use stripe_core::Trip;
use turn_lock::{Pass, TurnLock};

/// The hold that goes ahead with the unmapping: it begins to write a page, or makes another entry, or waits.
fn begin_unmap<S: Store, J: Journal, R: Wait>(
    rt: &R,
    lock: &TurnLock<StripeBox<S, J>>,
    pass: &mut Pass<StripeBox<S, J>>,
    scratch: &mut [u8],
    region: u16,
) -> Result<Trip<S>, UnmapStep>
    requires own { IsPassOf lock.now pass.old }
    requires left { pass.old.holds < lock.now.holds }
    requires size { length scratch.old ≡ (locked_setup lock.now).page_size }
    requires region { region < regions (locked_setup lock.now) }
    ensures steps { IfErr result (UnmapSteps region pass.old pass.new) }
    ensures begun { IfOk result (λ t. BeginsUnmap (locked_setup lock.now) region pass.old pass.new t.start.key) }
    ensures open_write { IfOk result (λ t. IsOpenWrite (locked_setup lock.now) pass.new.seen pass.new.number t.start) }
    ensures taken { IfOk result (λ t. TookBytes (locked_setup lock.now) pass.new.seen t.start.key scratch.new) }
    ensures lane { IfOk result (LaneOut (locked_setup lock.now)) }
{
    let Ok((mut kept, held)) = lock.hold(rt, pass) else {
        unreachable!()
    };
    readers_agree();
    picks_know();
    closing_goes_ahead();
    let owner = held.number();
    let inner = &mut *kept.noted;
    if inner.stripe.is_unmapped(region) {
        held.leave(kept);
        return Err(UnmapStep::Gone);
    }
    if !inner.stripe.is_closing(region) {
        inner.stripe.closing(region);
        let note = Note::Closing { region };
        inner.journal.note(owner, &note);
        held.give(kept, &note);
        return Err(UnmapStep::Went);
    }
    if let Next::Drop(_) = inner.stripe.next() {
        let key = inner.stripe.drop_raise();
        let note = Note::Dropped { key };
        inner.journal.note(owner, &note);
        held.give(kept, &note);
        return Err(UnmapStep::Went);
    }
    if !inner.stripe.is_home(region) {
        held.leave(kept);
        return Err(UnmapStep::Went);
    }
    let Some(pick) = inner.stripe.oldest_of(region) else {
        inner.stripe.unmapped(region);
        let note = Note::Unmapped { region };
        inner.journal.note(owner, &note);
        held.give(kept, &note);
        return Err(UnmapStep::Done);
    };
    let key = pick.key;
    let why = Cause::Unmap;
    if pick.dirty {
        let trip = inner.stripe.start_write(key, why, scratch);
        let note = Note::StartWrite { key, why };
        inner.journal.note(owner, &note);
        held.give(kept, &note);
        Ok(trip)
    } else {
        inner.stripe.evict(key, why);
        let note = Note::Evicted { key, why };
        inner.journal.note(owner, &note);
        held.give(kept, &note);
        Err(UnmapStep::Went)
    }
}

/// The turn of an unmapping whose hold began no write.
fn stepped(step: UnmapStep) -> UnmapTurn
    ensures exact { result ≡ stepped step }
{
    match step {
        UnmapStep::Gone => UnmapTurn::Gone,
        UnmapStep::Done => UnmapTurn::Done,
        UnmapStep::Went => UnmapTurn::Went,
    }
}

/// One turn of an unmapping.
fn unmap_turn<S: Store, J: Journal, R: Wait>(
    rt: &R,
    lock: &TurnLock<StripeBox<S, J>>,
    pass: &mut Pass<StripeBox<S, J>>,
    scratch: &mut [u8],
    region: u16,
) -> UnmapTurn
    requires own { IsPassOf lock.now pass.old }
    requires left { pass.old.holds + 2 ≤ lock.now.holds }
    requires size { length scratch.old ≡ (locked_setup lock.now).page_size }
    requires small { length scratch.old ≤ MOST_PAGE_SIZE }
    requires region { region < regions (locked_setup lock.now) }
    ensures own { IsPassOf lock.now pass.new }
    ensures size { length scratch.new ≡ length scratch.old }
    ensures turns { UnmapTurns (locked_setup lock.now) region pass.old pass.new result }
{
    pager_laws();
    let trip = match begin_unmap(rt, lock, pass, scratch, region) {
        Ok(trip) => trip,
        Err(step) => return stepped(step),
    };
    let key = trip.key();
    match end_write(rt, lock, pass, trip, scratch) {
        Ok(()) => UnmapTurn::Went,
        Err(n) => UnmapTurn::Failed(key, n),
    }
}

/// Unmaps a region in a stripe, and answers whether it was unmapped before. No access of it is served any more; what its pages
/// hold is in the store. Where another caller has the region's lane it waits. The first failed write ends it: the region goes on
/// closing, and a later call goes on from there.
pub fn unmap_in<S: Store, J: Journal, R: Wait>(
    rt: &R,
    lock: &TurnLock<StripeBox<S, J>>,
    pass: &mut Pass<StripeBox<S, J>>,
    scratch: &mut [u8],
    region: u16,
) -> Result<bool, Access>
    requires own { IsPassOf lock.now pass.old }
    requires size { length scratch.old ≡ (locked_setup lock.now).page_size }
    requires small { length scratch.old ≤ MOST_PAGE_SIZE }
    requires region { region < regions (locked_setup lock.now) }
    ensures own { IsPassOf lock.now pass.new }
    ensures size { length scratch.new ≡ length scratch.old }
    ensures ok { IfOk result (λ before. UnmapWent region before pass.old pass.new) }
    ensures err { IfErr result (UnmapStopped (locked_setup lock.now) region pass.old pass.new) }
{
    pager_laws();
    let mut fresh = true;
    for _ in rt.forever() {
        if pass.left() < 2 {
            return Err(Access::PassSpent);
        }
        match unmap_turn(rt, lock, pass, scratch, region) {
            UnmapTurn::Gone => return Ok(fresh),
            UnmapTurn::Done => return Ok(false),
            UnmapTurn::Failed(key, faults) => return Err(Access::StoreFault { key, faults }),
            UnmapTurn::Went => {}
        }
        fresh = false;
    }
    unreachable!()
}
