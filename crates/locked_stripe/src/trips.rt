//! The store's part of a trip, with no lock held.
ghost use Rattle.std.specs.Prelude.{◌≡◌, ◌≤◌, length, OnOk, OnErr};
ghost use Rattle.page_base.specs.Lanes.{Rose};
ghost use Rattle.page_base.specs.declared.limits.TheConstants.{MOST_PAGE_SIZE};
ghost use Rattle.page_model.specs.Setups.{Setup};
ghost use Rattle.page_model.specs.Trips.{SameLane, HoldsPage, WithPage, OtherPages};
ghost use Rattle.locked_stripe.specs.InsideTrips.{LaneOut};

use store_trait::laws::told_pages;
use store_trait::{Store, StoreFault};
use stripe_core::Trip;

/// Reads a trip's page.
pub(crate) fn read_page<S: Store>(trip: &mut Trip<S>, scratch: &mut [u8]) -> Result<(), StoreFault>
    requires lane { (u : Setup) × LaneOut u trip.old × (length scratch.old ≡ u.page_size) }
    requires small { length scratch.old ≤ MOST_PAGE_SIZE }
    ensures start { trip.new.start ≡ trip.old.start }
    ensures same { SameLane trip.old.start.taken trip.new.lane }
    ensures holds { OnOk result (HoldsPage trip.old.start.taken trip.old.start.key.page scratch.new) }
    ensures rose { OnErr result (Rose trip.old.start.taken.count trip.new.lane.count) }
{
    told_pages();
    let page = trip.key().page;
    store_trait::read_page(trip.lane(), page, scratch)
}

/// Writes a trip's page.
pub(crate) fn write_page<S: Store>(trip: &mut Trip<S>, bytes: &[u8]) -> Result<(), StoreFault>
    requires lane { (u : Setup) × LaneOut u trip.old × (length bytes.now ≡ u.page_size) }
    requires small { length bytes.now ≤ MOST_PAGE_SIZE }
    ensures start { trip.new.start ≡ trip.old.start }
    ensures wrote { OnOk result (WithPage trip.old.start.key.page bytes.now trip.old.start.taken trip.new.lane) }
    ensures others { OnErr result (OtherPages trip.old.start.key.page trip.old.start.taken trip.new.lane) }
    ensures rose { OnErr result (Rose trip.old.start.taken.count trip.new.lane.count) }
{
    told_pages();
    let page = trip.key().page;
    store_trait::write_page(trip.lane(), page, bytes)
}
