//! What the proofs of this crate know of every history of a stripe.
ghost use Rattle.page_model.specs.Laws.{PagesAreOfStripe, SomethingIsNext, FewArePending, PendingHasLastWhy, ChosenKnows, WaitingIsAbsent};
ghost use Rattle.page_model.specs.Readers.{ServiceKnows, ReadersAgree, PagesShow, FlushKnows};

use page_model::events::{flush_knows, pages_show, readers_agree, service_knows};
use page_model::laws::{
    chosen_knows, few_are_pending, pages_are_of_stripe, pending_has_last_why, something_is_next,
    waiting_is_absent,
};

/// The laws that the lemmas of `proofs/` are given, as one argument. The call does nothing: a body makes it once, at its start,
/// so that its proof has them.
pub(crate) fn model_laws()
    ensures knows { ServiceKnows }
    ensures agree { ReadersAgree }
    ensures show { PagesShow }
    ensures pages { PagesAreOfStripe }
    ensures next { SomethingIsNext }
    ensures few { FewArePending }
    ensures whys { PendingHasLastWhy }
    ensures chosen { ChosenKnows }
    ensures waiting { WaitingIsAbsent }
    ensures flush { FlushKnows }
{
    service_knows();
    readers_agree();
    pages_show();
    pages_are_of_stripe();
    something_is_next();
    few_are_pending();
    pending_has_last_why();
    chosen_knows();
    waiting_is_absent();
    flush_knows();
}
