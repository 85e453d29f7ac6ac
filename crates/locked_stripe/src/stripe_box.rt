//! What lies under a stripe's lock: the stripe and its journal, in one box, so that a hold moves a word.
ghost use Rattle.std.specs.Prelude.{◌≡◌, IfOk, IfErr};

use page_model::{Entry, Journal, Note};
use std::alloc::Global;
use std::marker::Model;
use store_trait::Store;
use stripe_core::Stripe;
use turn_lock::{NoteFor, Stands};

/// What no entry changes of a stripe and its journal. Only contracts have values of it.
pub struct StripeTerms<M> {
    number: u32,
    made: M,
}

impl<M> Model for StripeTerms<M> {
    ghost use Rattle.locked_stripe.specs.Terms.{TermsSeen, unset};

    ghost Value = { TermsSeen M };

    ghost view = { λ m. record { setup = unset m.number; made = m.made } };
}

/// A stripe and its journal.
pub struct NotedStripe<S: Store, J> {
    pub stripe: Stripe<S>,
    pub journal: J,
}

/// A stripe with its journal, as it lies under its lock. It stands for a history where the stripe does and the journal has
/// noted it.
pub struct StripeBox<S: Store, J> {
    pub noted: Box<NotedStripe<S, J>, Global>,
}

impl<S: Store, J> StripeBox<S, J> {
    /// Puts a stripe and its journal into a box. Where there is no memory for it, both come back.
    pub fn new(
        alloc: Global,
        stripe: Stripe<S>,
        journal: J,
    ) -> Result<StripeBox<S, J>, NotedStripe<S, J>>
        ensures stripe { IfOk result (λ b. b.noted.value.stripe ≡ stripe) }
        ensures journal { IfOk result (λ b. b.noted.value.journal ≡ journal) }
        ensures back { IfErr result (λ n. (n.stripe ≡ stripe) × (n.journal ≡ journal)) }
    {
        match Box::new(alloc, NotedStripe { stripe, journal }) {
            Ok(noted) => Ok(StripeBox { noted }),
            Err(full) => Err(full.value),
        }
    }

    /// Takes them out again.
    pub fn into_parts(self) -> (Stripe<S>, J)
        ensures stripe { result.0 ≡ self.noted.value.stripe }
        ensures journal { result.1 ≡ self.noted.value.journal }
    {
        let StripeBox { noted } = self;
        let NotedStripe { stripe, journal } = Box::into_inner(noted);
        (stripe, journal)
    }
}

impl<S: Store, J: Journal> Stands for StripeBox<S, J> {
    type Entry = Entry;

    type Fixed = StripeTerms<J::Made>;

    ghost use Rattle.page_model.specs.Stands.{StandsFor};

    ghost stands = { λ h k. StandsFor h k.noted.value.stripe × J.has_noted k.noted.value.journal h };

    ghost fixed = { λ k. record { setup = k.noted.value.stripe.setup; made = J.made_with k.noted.value.journal } };
}

impl<'a, S: Store, J: Journal> NoteFor<StripeBox<S, J>> for Note<'a> {
    ghost use Rattle.page_model.specs.Entries.{entry_of};

    ghost entry = { entry_of };
}
