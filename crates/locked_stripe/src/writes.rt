//! The holds that make room: the first one, and the end of a write.
ghost use Rattle.std.specs.Prelude.{◌≡◌, ◌<◌, ◌≤◌, length, IfOk, IfErr, OnOk};
ghost use Rattle.page_base.specs.Lanes.{Rose};
ghost use Rattle.page_base.specs.declared.limits.TheConstants.{MOST_PAGE_SIZE};
ghost use Rattle.page_model.specs.declared.entry.Entry.TheVariants as entry;
ghost use Rattle.page_model.specs.Trips.{IsOpenWrite, WithPage, OtherPages};
ghost use Rattle.turn_lock.specs.Seen.{IsPassOf};
ghost use Rattle.locked_stripe.specs.InsideHolds.{BeginsWrite, Makes, RoomAtOnce};
ghost use Rattle.locked_stripe.specs.InsideTrips.{LaneOut, TookBytes};
ghost use Rattle.locked_stripe.specs.Terms.{locked_setup};

use crate::answers::Back;
use crate::stripe_box::StripeBox;
use crate::trips::write_page;
use page_model::events::{picks_know, readers_agree};
use page_model::laws::trips_stay_open;
use page_model::{Cause, Journal, Note};
use std::sync::Wait;
use store_trait::Store;
use stripe_core::Trip;
use turn_lock::{Pass, TurnLock};

/// The first hold of making room: it begins a write, or is all of it.
pub(crate) fn begin_write<S: Store, J: Journal, R: Wait>(
    rt: &R,
    lock: &TurnLock<StripeBox<S, J>>,
    pass: &mut Pass<StripeBox<S, J>>,
    scratch: &mut [u8],
) -> Result<Trip<S>, Back>
    requires own { IsPassOf lock.now pass.old }
    requires left { pass.old.holds < lock.now.holds }
    requires size { length scratch.old ≡ (locked_setup lock.now).page_size }
    ensures done { IfErr result (RoomAtOnce (locked_setup lock.now) pass.old pass.new) }
    ensures begun { IfOk result (λ t. BeginsWrite (locked_setup lock.now) pass.old pass.new t.start.key) }
    ensures open_write { IfOk result (λ t. IsOpenWrite (locked_setup lock.now) pass.new.seen pass.new.number t.start) }
    ensures taken { IfOk result (λ t. TookBytes (locked_setup lock.now) pass.new.seen t.start.key scratch.new) }
    ensures lane { IfOk result (LaneOut (locked_setup lock.now)) }
{
    let Ok((mut kept, held)) = lock.hold(rt, pass) else {
        unreachable!()
    };
    readers_agree();
    picks_know();
    let owner = held.number();
    let inner = &mut *kept.noted;
    if !inner.stripe.pressure() {
        held.leave(kept);
        return Err(Back::Nothing);
    }
    let Some(pick) = inner.stripe.pick() else {
        held.leave(kept);
        return Err(Back::Nothing);
    };
    let key = pick.key;
    let why = Cause::Pressure;
    if pick.dirty {
        let trip = inner.stripe.start_write(key, why, scratch);
        let note = Note::StartWrite { key, why };
        inner.journal.note(owner, &note);
        held.give(kept, &note);
        Ok(trip)
    } else {
        inner.stripe.evict(key, why);
        let note = Note::Evicted { key, why };
        inner.journal.note(owner, &note);
        held.give(kept, &note);
        Err(Back::Evicted(key))
    }
}

/// The hold that ends a write well.
pub(crate) fn wrote<S: Store, J: Journal, R: Wait>(
    rt: &R,
    lock: &TurnLock<StripeBox<S, J>>,
    pass: &mut Pass<StripeBox<S, J>>,
    trip: Trip<S>,
    bytes: &[u8],
)
    requires own { IsPassOf lock.now pass.old }
    requires left { pass.old.holds < lock.now.holds }
    requires open_write { IsOpenWrite (locked_setup lock.now) pass.old.seen pass.old.number trip.start }
    requires taken { TookBytes (locked_setup lock.now) pass.old.seen trip.start.key bytes.now }
    requires wrote { WithPage trip.start.key.page bytes.now trip.start.taken trip.lane }
    ensures held { Makes pass.old pass.new (entry.Written trip.start.key trip.start.at bytes.now) }
{
    let Ok((mut kept, held)) = lock.hold(rt, pass) else {
        unreachable!()
    };
    trips_stay_open();
    let owner = held.number();
    let note = Note::Written {
        key: trip.key(),
        at: trip.at(),
        bytes,
    };
    let inner = &mut *kept.noted;
    inner.stripe.written(trip, bytes);
    inner.journal.note(owner, &note);
    held.give(kept, &note);
}

/// The hold that ends a write that failed.
pub(crate) fn wrote_badly<S: Store, J: Journal, R: Wait>(
    rt: &R,
    lock: &TurnLock<StripeBox<S, J>>,
    pass: &mut Pass<StripeBox<S, J>>,
    trip: Trip<S>,
) -> u64
    requires own { IsPassOf lock.now pass.old }
    requires left { pass.old.holds < lock.now.holds }
    requires open_write { IsOpenWrite (locked_setup lock.now) pass.old.seen pass.old.number trip.start }
    requires others { OtherPages trip.start.key.page trip.start.taken trip.lane }
    requires rose { Rose trip.start.taken.count trip.lane.count }
    ensures number { result ≡ trip.lane.count }
    ensures held { Makes pass.old pass.new (entry.WriteFailed trip.start.key result) }
{
    let Ok((mut kept, held)) = lock.hold(rt, pass) else {
        unreachable!()
    };
    trips_stay_open();
    let owner = held.number();
    let n = trip.faults();
    let note = Note::WriteFailed { key: trip.key(), n };
    let inner = &mut *kept.noted;
    inner.stripe.write_failed(trip);
    inner.journal.note(owner, &note);
    held.give(kept, &note);
    n
}

/// The rest of a write that began: the store's part with no lock held, and the hold that ends it. A failed write answers the
/// lane's count of faults.
pub(crate) fn end_write<S: Store, J: Journal, R: Wait>(
    rt: &R,
    lock: &TurnLock<StripeBox<S, J>>,
    pass: &mut Pass<StripeBox<S, J>>,
    trip: Trip<S>,
    bytes: &[u8],
) -> Result<(), u64>
    requires own { IsPassOf lock.now pass.old }
    requires left { pass.old.holds < lock.now.holds }
    requires size { length bytes.now ≡ (locked_setup lock.now).page_size }
    requires small { length bytes.now ≤ MOST_PAGE_SIZE }
    requires open_write { IsOpenWrite (locked_setup lock.now) pass.old.seen pass.old.number trip.start }
    requires taken { TookBytes (locked_setup lock.now) pass.old.seen trip.start.key bytes.now }
    requires lane { LaneOut (locked_setup lock.now) trip }
    ensures ok { OnOk result (Makes pass.old pass.new (entry.Written trip.start.key trip.start.at bytes.now)) }
    ensures err { IfErr result (λ n. Makes pass.old pass.new (entry.WriteFailed trip.start.key n)) }
{
    let mut trip = trip;
    match write_page(&mut trip, bytes) {
        Ok(()) => {
            wrote(rt, lock, pass, trip, bytes);
            Ok(())
        }
        Err(_) => Err(wrote_badly(rt, lock, pass, trip)),
    }
}
