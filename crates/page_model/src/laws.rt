//! The laws of legal histories. Each function does nothing: its contract is the law, and a caller calls it where its proof
//! needs the law. The statements stand in `specs/Laws.antt`.
ghost use Rattle.page_model.specs.Laws.{PrefixIsLegal, NeverOverQuota, LoadsAreFlat, WritesAreTaken, InFlightIsThere, StoresAreHeld, UnprotectedIsDirty, WaitingIsProtected, SomethingIsNext};
ghost use Rattle.page_model.specs.Laws.{AbsentIsKept, LaneStaysOut, IdleLaneIsHome, NothingAfterClosing, FlushLaws, TripsStayOpen, LoadsWereFlat};
ghost use Rattle.page_model.specs.Laws.{PagesAreOfStripe, AccessesOfBoth, CleanIsKept, DirtyIsRaised, ClosingsStay, UnmappedIsEmptied, ClosingGoesAhead};
ghost use Rattle.page_model.specs.Laws.{FaultsAreCounted, ReadFaultIsNew, WaitingIsAbsent, FewArePending, PendingHasLastWhy, ChosenKnows, RaisedIsLast};
ghost use Rattle.page_model.specs.Pieces.{AccessesByPiece};
ghost use Rattle.page_model.specs.Owned.{OwnBytes, OwnersInTurn};

use crate::entry::Entry;
use histories::laws::{calls_of_both, first_is_prefix};

/// A history that a legal one goes on from is legal.
pub fn prefix_is_legal()
    ensures { PrefixIsLegal }
{}

/// Pages resident or being read never number more than the stripe's frames.
pub fn never_over_quota()
    ensures { NeverOverQuota }
{}

/// A load gives the latest store before it to each byte, else the byte of the start.
pub fn loads_are_flat()
    ensures { LoadsAreFlat }
{}

/// A good write wrote what its page held when it started.
pub fn writes_are_taken()
    ensures { WritesAreTaken }
{
    first_is_prefix::<Entry>();
}

/// What is in flight has its start in the history, and no end.
pub fn in_flight_is_there()
    ensures { InFlightIsThere }
{}

/// A store is written back, or its page is dirty in memory still.
pub fn stores_are_held()
    ensures { StoresAreHeld }
{}

/// A page that may be stored to is dirty.
pub fn unprotected_is_dirty()
    ensures { UnprotectedIsDirty }
{}

/// A page that waits to be opened is protected.
pub fn waiting_is_protected()
    ensures { WaitingIsProtected }
{}

/// While every lane is home, a pending fault can be served or has room made.
pub fn something_is_next()
    ensures { SomethingIsNext }
{}

/// A page that isn't resident is whole in the store.
pub fn absent_is_kept()
    ensures { AbsentIsKept }
{}

/// Only its owner ends an I/O in flight; till then nothing of the lane changes.
pub fn lane_stays_out()
    ensures { LaneStaysOut }
{}

/// A lane that is out in nobody's own calls is home.
pub fn idle_lane_is_home()
    ensures { IdleLaneIsHome }
{}

/// A closing region is used no more.
pub fn nothing_after_closing()
    ensures { NothingAfterClosing }
{}

/// A clean page's earlier stores are covered; they stay covered; and all pages covered is flushed.
pub fn flush_laws()
    ensures { FlushLaws }
{}

/// A trip that is open stays open while others alone make entries.
pub fn trips_stay_open()
    ensures { TripsStayOpen }
{}

/// A load's bytes are what its page held, by every later history too.
pub fn loads_were_flat()
    ensures { LoadsWereFlat }
{}

/// The pages that a history speaks of are the stripe's.
pub fn pages_are_of_stripe()
    ensures { PagesAreOfStripe }
{}

/// The accesses of two stretches are those of the later before those of the earlier.
pub fn accesses_of_both()
    ensures { AccessesOfBoth }
{
    calls_of_both::<Entry>();
}

/// A range's accesses grow by one piece more.
pub fn accesses_by_piece()
    ensures { AccessesByPiece }
{}

/// A clean page is whole in the store, and a page that isn't resident is clean.
pub fn clean_is_kept()
    ensures { CleanIsKept }
{}

/// A dirty page was raised for a store, so none of a read-only region is dirty.
pub fn dirty_is_raised()
    ensures { DirtyIsRaised }
{}

/// A region that closes goes on closing, and an unmapped one stays so.
pub fn closings_stay()
    ensures { ClosingsStay }
{}

/// Nothing is left of an unmapped region.
pub fn unmapped_is_emptied()
    ensures { UnmappedIsEmptied }
{}

/// While a closing region isn't quiet it has a page that may leave or a fault to drop.
pub fn closing_goes_ahead()
    ensures { ClosingGoesAhead }
{}

/// Each fault's number lies above the lane's first count, and is at most the last.
pub fn faults_are_counted()
    ensures { FaultsAreCounted }
{}

/// Where the number of a page's last failed read changed, that failed read is new.
pub fn read_fault_is_new()
    ensures { ReadFaultIsNew }
{}

/// A page that is being read, or waits to be, isn't resident.
pub fn waiting_is_absent()
    ensures { WaitingIsAbsent }
{}

/// Never more faults are pending than the stripe has room for.
pub fn few_are_pending()
    ensures { FewArePending }
{}

/// A pending fault has the why of its page's last raise.
pub fn pending_has_last_why()
    ensures { PendingHasLastWhy }
{}

/// What is done next tells which fault was chosen for it.
pub fn chosen_knows()
    ensures { ChosenKnows }
{}

/// A hint raises where none of the other answers applies.
pub fn raised_is_last()
    ensures { RaisedIsLast }
{}

/// What a page holds is what its one owner made of it.
pub fn own_bytes()
    ensures { OwnBytes }
{}

/// Where each page has one owner, owners may as well have made their accesses one behind the other.
pub fn owners_in_turn()
    ensures { OwnersInTurn }
{}
