//! The laws of calls, and what the proofs of this crate know of every history.
ghost use Rattle.umap_pager.specs.InsideLaws.{WentLaws};
ghost use Rattle.umap_pager.specs.TripLaws.{CallsEndTrips};
ghost use Rattle.umap_pager.specs.Went.{WentTwice, WentKnows};

use histories::laws::{alone_is_own, goes_on_is_order, growing_adds_up, new_stays};
use locked_stripe::whole_trips;
use page_model::Entry;

/// The laws that the lemmas of `proofs/` are given, as one argument. The call does nothing: a body makes it once, at its start,
/// so that its proof has them.
pub(crate) fn went_laws()
    ensures { WentLaws }
{
    goes_on_is_order::<Entry>();
    growing_adds_up::<Entry>();
    new_stays::<Entry>();
    alone_is_own::<Entry>();
    whole_trips();
}

/// A law: what one call did over all stripes and what the next one did is what a call did.
pub fn went_twice<T>()
    ensures { WentTwice T }
{
    went_laws();
}

/// A law: how a call shows in the histories that the passes have seen.
pub fn went_knows<T>()
    ensures { WentKnows T }
{}

/// A law: no call leaves a trip of its own open, whatever it answers.
pub fn calls_end_trips<S, J>()
    ensures { CallsEndTrips S J }
{
    went_laws();
}
