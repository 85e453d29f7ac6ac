//! Closing a region, and unmapping it once nothing of it is left.
ghost use Rattle.std.specs.Prelude.{◌≡◌, ◌<◌, ◌^◌, false};
ghost use Rattle.page_model.specs.declared.entry.Entry.TheVariants as entry;
ghost use Rattle.page_model.specs.Core as core;
ghost use Rattle.page_model.specs.Events.{CanUnmap};
ghost use Rattle.page_model.specs.Setups.{regions};
ghost use Rattle.page_model.specs.Steps as step;
ghost use Rattle.stripe_core.specs.Standing.{StandsAfter};

use crate::stripe::Stripe;
use page_model::events::{closing_stands, unmapped_stands};
use store_trait::Store;

// The steps, by the data that they leave.
impl<S: Store> Stripe<S> {
    fn closing_step(&mut self, region: u16)
        requires few { self.old.events < 2 ^ 62 }
        requires region { region < regions self.old.setup }
        ensures step { self.new ≡ step.closing self.old region }
    {
        self.regions[region as usize].closing = true;
        self.events += 1;
    }

    fn unmapped_step(&mut self, region: u16)
        requires few { self.old.events < 2 ^ 62 }
        requires region { region < regions self.old.setup }
        ensures step { self.new ≡ step.unmapped self.old region }
    {
        self.regions[region as usize].unmapped = true;
        self.events += 1;
    }
}

// The events, by the history that the stripe stands for.
impl<S: Store> Stripe<S> {
    /// Begins to close a region. From now on the stripe answers no access of it, and reads none of its pages in.
    pub fn closing(&mut self, region: u16)
        requires few { self.old.events < 2 ^ 62 }
        requires region { region < regions self.old.setup }
        requires first { core.is_closing self.old region ≡ false }
        ensures step { self.new ≡ step.closing self.old region }
        ensures fixed { self.new.setup ≡ self.old.setup }
        ensures stands { StandsAfter (entry.Closing region) self.old self.new }
    {
        closing_stands();
        self.closing_step(region)
    }

    /// Ends the closing of a region of which no page is resident, pending, or being read or written.
    pub fn unmapped(&mut self, region: u16)
        requires few { self.old.events < 2 ^ 62 }
        requires can { CanUnmap self.old region }
        ensures step { self.new ≡ step.unmapped self.old region }
        ensures fixed { self.new.setup ≡ self.old.setup }
        ensures stands { StandsAfter (entry.Unmapped region) self.old self.new }
    {
        unmapped_stands();
        self.unmapped_step(region)
    }
}
