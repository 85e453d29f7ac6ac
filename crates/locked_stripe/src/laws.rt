//! The law of whole trips, and what the proofs of this crate know of every history.
ghost use Rattle.locked_stripe.specs.InsideLaws.{PagerLaws};
ghost use Rattle.locked_stripe.specs.TripLaws.{WholeTripsAddUp};

use histories::laws::{alone_is_own, goes_on_is_order, growing_adds_up, grown_knows, new_stays};
use page_base::laws::same_is_equal;
use page_model::Entry;
use page_model::laws::{read_fault_is_new, something_is_next};

/// The laws that the lemmas of `proofs/` are given, as one argument. The call does nothing: a body makes it once, at its start,
/// so that its proof has them.
pub(crate) fn pager_laws()
    ensures { PagerLaws }
{
    goes_on_is_order::<Entry>();
    growing_adds_up::<Entry>();
    grown_knows::<Entry>();
    new_stays::<Entry>();
    alone_is_own::<Entry>();
    same_is_equal();
    something_is_next();
    read_fault_is_new();
    whole_trips();
}

/// A law: whole trips add up, services and room make whole trips, and where each caller's trips are whole every lane is home.
pub fn whole_trips()
    ensures { WholeTripsAddUp }
{
    same_is_equal();
}
