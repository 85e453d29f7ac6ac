//! A trip: a region's lane that is out of its stripe for one read or one write.
ghost use Rattle.std.specs.Prelude.{◌≡◌};
ghost use Rattle.std.specs.Borrow.{Lends, sem};

use page_base::Key;
use std::marker::Model;
use std::snapshot::Snapshot;
use store_trait::Store;

/// The lane, with the page that it is out for and the place of the trip's start in the stripe's history. It is spent by the
/// event of the stripe that ends the read or the write.
pub struct Trip<S: Store> {
    pub(crate) key: Key,
    pub(crate) at: u64,
    pub(crate) lane: S,
    pub(crate) taken: Snapshot<S>,
}

impl<S: Store> Model for Trip<S> {
    ghost use Rattle.stripe_core.specs.Trips.{TripSeen, trip_seen};

    ghost Value = { TripSeen };

    ghost view = { λ t. trip_seen t.key t.at (S.seen t.taken.value) (S.seen t.lane) };
}

impl<S: Store> Trip<S> {
    ghost use Rattle.stripe_core.specs.contracts.trip.Trip.{the_row};
    ghost use Rattle.stripe_core.specs.Trips.{with_lane};

    /// The page that is read or written.
    pub fn key(&self) -> Key
        ensures { result ≡ self.now.start.key }
    {
        self.key
    }

    /// The place of the trip's start in the stripe's history, counted from 0.
    pub fn at(&self) -> u64
        ensures { result ≡ self.now.start.at }
    {
        self.at
    }

    /// The lane's count of faults.
    pub fn faults(&self) -> u64
        ensures { result ≡ self.now.lane.count }
    {
        self.lane.faults()
    }

    /// The lane, to read or write the page by.
    pub fn lane(&mut self) -> &mut S
        ensures* lends { sem 𝓛 (Lends (the_row S.row S.Store) S.row self.entry result (with_lane S.seen self.old)) }
        ensures value { S.seen result.now ≡ self.old.lane }
    {
        &mut self.lane
    }
}
