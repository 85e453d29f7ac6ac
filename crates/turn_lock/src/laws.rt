//! What the steps' proofs know of histories.
ghost use Rattle.turn_lock.specs.InsideHistoryLaws.{HistoryLaws};

use histories::laws::{
    calls_of_both, calls_of_one, goes_on_is_order, same_calls_are_others, shorter_goes_on,
};

/// The laws of histories on which the lock's rule rests.
pub(crate) fn history_laws<E>()
    ensures { HistoryLaws E }
{
    calls_of_both::<E>();
    calls_of_one::<E>();
    goes_on_is_order::<E>();
    shorter_goes_on::<E>();
    same_calls_are_others::<E>();
}
