//! A caller's passes: one for each stripe, and one scratch page.
ghost use Rattle.std.specs.Prelude.{◌<◌, length, IsTrue, ◌↔◌};
ghost use Rattle.umap_pager.specs.Passes.{IsLeftIn, IsNumberIn, AreAlone};

use locked_stripe::StripeBox;
use page_model::Entry;
use std::marker::Model;
use store_trait::Store;
use turn_lock::Seated;

/// A caller's right to hold the pager's stripes, and what it knows of their histories.
#[derive(Drop)]
pub struct Passes<S: Store, J> {
    pub(crate) passes: Vec<Seated<StripeBox<S, J>, Entry>>,
    /// One page.
    pub(crate) scratch: Vec<u8>,
}

impl<S: Store, J> Model for Passes<S, J> {
    ghost use Rattle.locked_stripe.specs.declared.stripe_box.StripeBox.{StripeBox};
    ghost use Rattle.umap_pager.specs.Passes.{PassesSeen, passes_seen};

    ghost Value = { PassesSeen (StripeBox S J) };

    ghost view = { λ p. passes_seen p.passes.items p.scratch.items };
}

impl<S: Store, J> Passes<S, J> {
    /// The holds that the pass of a stripe may still make.
    pub fn left(&self, stripe: u32) -> u64
        requires { stripe < length self.now.passes }
        ensures { IsLeftIn stripe self.now result }
    {
        self.passes[stripe as usize].left()
    }

    /// The number of the pass of a stripe, by which that stripe's history names its entries.
    pub fn number(&self, stripe: u32) -> u32
        requires { stripe < length self.now.passes }
        ensures { IsNumberIn stripe self.now result }
    {
        self.passes[stripe as usize].number()
    }

    /// Whether every pass that was split off was folded back, in each stripe.
    pub fn alone(&self) -> bool
        ensures { IsTrue result ↔ AreAlone self.now }
    {
        for stripe in 0..self.passes.len() {
            if !self.passes[stripe].alone() {
                return false;
            }
        }
        true
    }
}
