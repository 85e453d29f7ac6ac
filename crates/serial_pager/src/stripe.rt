//! A stripe that one thread serves, with the journal of its entries.
//!
//! What must stay true when this file is changed: each event of the stripe is noted in the journal, in order, as made by
//! owner 0.
ghost use Rattle.std.specs.Prelude.{◌≡◌, ℕ, false, length};
ghost use Rattle.page_model.specs.Core.{is_closing};
ghost use Rattle.page_model.specs.Setups.{regions};
ghost use Rattle.serial_pager.specs.Rests.{IsAtRest, IsFresh};
ghost use Rattle.serial_pager.specs.Returned.{AreHere};
ghost use Rattle.stripe_core.specs.Standing.{AreHomeLanes};

mod accesses;
mod serving;
mod unmapping;
mod writing;

use page_base::List;
use page_model::Journal;
use std::marker::Model;
use store_trait::Store;
use stripe_core::Stripe;

/// One stripe and its journal. Contracts see the stripe's data and the journal (`specs/Seen.antt`).
pub struct SerialStripe<S: Store, J: Journal> {
    pub(crate) stripe: Stripe<S>,
    pub(crate) journal: J,
}

impl<S: Store, J: Journal> Model for SerialStripe<S, J> {
    ghost use Rattle.serial_pager.specs.Seen.{StripeSeen};

    ghost Value = { StripeSeen J };

    ghost view = { λ s. record { core = s.stripe; journal = s.journal } };
}

impl<S: Store, J: Journal> SerialStripe<S, J> {
    /// Takes over a stripe that has just been made. No region closes.
    pub fn new(stripe: Stripe<S>, journal: J) -> SerialStripe<S, J>
        requires fresh { IsFresh stripe }
        ensures core { result.core ≡ stripe }
        ensures journal { result.journal ≡ journal }
        ensures rest { IsAtRest result.core }
        ensures open_ { (r : ℕ) → is_closing result.core r ≡ false }
    {
        SerialStripe { stripe, journal }
    }

    /// Ends the stripe. Its lanes come back in order of region, and the journal beside them.
    pub fn into_parts(self) -> (List<S>, J)
        requires rest { IsAtRest self.core }
        ensures count { length result.0.items ≡ regions self.core.setup }
        ensures lanes { AreHere S.seen self.core result.0.items }
        ensures stands { AreHomeLanes S.seen self.core result.0.items }
        ensures journal { result.1 ≡ self.journal }
    {
        let SerialStripe { stripe, journal } = self;
        (stripe.into_lanes(), journal)
    }
}
