//! The holds of a service: the first one, and the end of a read.
ghost use Rattle.std.specs.Prelude.{◌≡◌, ◌<◌, length, IfOk, IfErr};
ghost use Rattle.page_base.specs.Lanes.{Rose};
ghost use Rattle.page_model.specs.declared.entry.Entry.TheVariants as entry;
ghost use Rattle.page_model.specs.Trips.{IsOpenRead, SameLane, HoldsPage};
ghost use Rattle.turn_lock.specs.Seen.{IsPassOf};
ghost use Rattle.locked_stripe.specs.InsideHolds.{BeginsRead, Fills, Makes, ServesAtOnce};
ghost use Rattle.locked_stripe.specs.InsideTrips.{LaneOut};
ghost use Rattle.locked_stripe.specs.Terms.{locked_setup};

use crate::answers::Served;
use crate::stripe_box::StripeBox;
use page_base::Why;
use page_model::events::readers_agree;
use page_model::laws::trips_stay_open;
use page_model::{Journal, Next, Note};
use std::sync::Wait;
use store_trait::Store;
use stripe_core::Trip;
use turn_lock::{Pass, TurnLock};

/// The first hold of a service: it begins a read, or is all of the service.
pub(crate) fn begin<S: Store, J: Journal, R: Wait>(
    rt: &R,
    lock: &TurnLock<StripeBox<S, J>>,
    pass: &mut Pass<StripeBox<S, J>>,
) -> Result<Trip<S>, Served>
    requires own { IsPassOf lock.now pass.old }
    requires left { pass.old.holds < lock.now.holds }
    ensures done { IfErr result (ServesAtOnce (locked_setup lock.now) pass.old pass.new) }
    ensures begun { IfOk result (λ t. BeginsRead (locked_setup lock.now) pass.old pass.new t.start.key) }
    ensures open_read { IfOk result (λ t. IsOpenRead (locked_setup lock.now) pass.new.seen pass.new.number t.start) }
    ensures lane { IfOk result (LaneOut (locked_setup lock.now)) }
{
    let Ok((mut kept, held)) = lock.hold(rt, pass) else {
        unreachable!()
    };
    readers_agree();
    let owner = held.number();
    let inner = &mut *kept.noted;
    match inner.stripe.next() {
        Next::Drop(_) => {
            let key = inner.stripe.drop_raise();
            let note = Note::Dropped { key };
            inner.journal.note(owner, &note);
            held.give(kept, &note);
            Err(Served::Dropped(key))
        }
        Next::Open(_) => {
            let key = inner.stripe.open_page();
            let note = Note::Opened { key };
            inner.journal.note(owner, &note);
            held.give(kept, &note);
            Err(Served::Opened(key))
        }
        Next::Read(_) => {
            let trip = inner.stripe.start_read();
            let note = Note::StartRead { key: trip.key() };
            inner.journal.note(owner, &note);
            held.give(kept, &note);
            Ok(trip)
        }
        Next::Room => {
            held.leave(kept);
            Err(Served::Room)
        }
        Next::Nothing => {
            held.leave(kept);
            Err(Served::Nothing)
        }
    }
}

/// The hold that ends a read well.
pub(crate) fn fill<S: Store, J: Journal, R: Wait>(
    rt: &R,
    lock: &TurnLock<StripeBox<S, J>>,
    pass: &mut Pass<StripeBox<S, J>>,
    trip: Trip<S>,
    bytes: &[u8],
) -> Why
    requires own { IsPassOf lock.now pass.old }
    requires left { pass.old.holds < lock.now.holds }
    requires open_read { IsOpenRead (locked_setup lock.now) pass.old.seen pass.old.number trip.start }
    requires size { length bytes.now ≡ (locked_setup lock.now).page_size }
    requires same { SameLane trip.start.taken trip.lane }
    requires holds { HoldsPage trip.start.taken trip.start.key.page bytes.now }
    ensures held { Fills pass.old pass.new trip.start.key result }
{
    let Ok((mut kept, held)) = lock.hold(rt, pass) else {
        unreachable!()
    };
    trips_stay_open();
    let owner = held.number();
    let note = Note::Filled { key: trip.key() };
    let inner = &mut *kept.noted;
    let why = inner.stripe.filled(trip, bytes);
    inner.journal.note(owner, &note);
    held.give(kept, &note);
    why
}

/// The hold that ends a read that failed.
pub(crate) fn miss<S: Store, J: Journal, R: Wait>(
    rt: &R,
    lock: &TurnLock<StripeBox<S, J>>,
    pass: &mut Pass<StripeBox<S, J>>,
    trip: Trip<S>,
) -> u64
    requires own { IsPassOf lock.now pass.old }
    requires left { pass.old.holds < lock.now.holds }
    requires open_read { IsOpenRead (locked_setup lock.now) pass.old.seen pass.old.number trip.start }
    requires same { SameLane trip.start.taken trip.lane }
    requires rose { Rose trip.start.taken.count trip.lane.count }
    ensures number { result ≡ trip.lane.count }
    ensures held { Makes pass.old pass.new (entry.ReadFailed trip.start.key result) }
{
    let Ok((mut kept, held)) = lock.hold(rt, pass) else {
        unreachable!()
    };
    trips_stay_open();
    let owner = held.number();
    let n = trip.faults();
    let note = Note::ReadFailed { key: trip.key(), n };
    let inner = &mut *kept.noted;
    inner.stripe.read_failed(trip);
    inner.journal.note(owner, &note);
    held.give(kept, &note);
    n
}
