//! The pager, and the calls of one stripe.
ghost use Rattle.std.specs.Prelude.{◌≡◌, ◌<◌, length, slice_get, Some, IsErr, OnErr, IfOk, ◌↔◌};
ghost use Rattle.page_base.specs.declared.keys.RegionShape.{RegionShape};
ghost use Rattle.region_table.specs.Regions.{shapes_of};
ghost use Rattle.umap_pager.specs.Passes.{FitTo, IsSpentAt, ServesIn, MakesRoomIn};
ghost use Rattle.umap_pager.specs.Shared.{page_stripe};

use crate::passes::Passes;
use crate::room::EndRoom;
use locked_stripe::{Back, Served, StripeBox, make_room_in, serve_in};
use page_base::{Key, Layout};
use page_model::Journal;
use region_table::RegionTable;
use std::marker::Model;
use std::sync::{Mutex, Wait};
use store_trait::Store;
use stripe_core::StripeConfig;
use turn_lock::{PassSpent, TurnLock};

/// The stripes of a buffer, each under its lock, with the lanes of all regions of a table. Threads share it.
pub struct Pager<S: Store, J: Journal> {
    /// Its number is that of no stripe.
    pub(crate) config: StripeConfig,
    pub(crate) table: RegionTable,
    pub(crate) locks: Vec<TurnLock<StripeBox<S, J>>>,
    /// Where the lanes, the journals and the histories are handed back. No thread reads it, so sharing the pager asks nothing of
    /// lanes and journals but that they may be sent.
    pub(crate) room: Mutex<EndRoom<S, J>>,
}

impl<S: Store, J: Journal> Model for Pager<S, J> {
    ghost use Rattle.umap_pager.specs.Shared.{SharedPager};
    ghost use Rattle.umap_pager.specs.InsideParts.{GoesTogether};

    ghost Value = { SharedPager S J };

    ghost view = { λ p. record { layout = p.config.layout; table = p.table; locks = p.locks.items } };

    ghost invariant = { λ p. GoesTogether (record { layout = p.config.layout; table = p.table; locks = p.locks.items }) p.config.shapes.items };
}

impl<S: Store, J: Journal> Pager<S, J> {
    /// The layout that it was opened with.
    pub fn layout(&self) -> &Layout
        ensures { result.now ≡ self.now.layout }
    {
        &self.config.layout
    }

    /// The table of regions that it was opened with.
    pub fn table(&self) -> &RegionTable
        ensures { result.now ≡ self.now.table }
    {
        &self.table
    }

    /// The number of stripes.
    pub fn stripes(&self) -> u32
        ensures count { result ≡ self.now.layout.stripes }
        ensures locks { length self.now.locks ≡ result }
    {
        self.config.layout.stripes()
    }

    /// One step of service in a stripe, in at most two holds of it.
    pub fn serve_one<R: Wait>(
        &self,
        rt: &R,
        p: &mut Passes<S, J>,
        stripe: u32,
    ) -> Result<Served, PassSpent>
        requires fit { FitTo self.now p.old }
        requires stripe { stripe < self.now.layout.stripes }
        ensures fit { FitTo self.now p.new }
        ensures spent { IsErr result ↔ IsSpentAt stripe self.now p.old }
        ensures err { OnErr result (p.new ≡ p.old) }
        ensures served { IfOk result (ServesIn stripe self.now p.old p.new) }
    {
        let at = stripe as usize;
        serve_in(rt, &self.locks[at], &mut p.passes[at], &mut p.scratch)
    }

    /// Makes room in a stripe that is under pressure, in at most two holds of it.
    pub fn write_back<R: Wait>(
        &self,
        rt: &R,
        p: &mut Passes<S, J>,
        stripe: u32,
    ) -> Result<Back, PassSpent>
        requires fit { FitTo self.now p.old }
        requires stripe { stripe < self.now.layout.stripes }
        ensures fit { FitTo self.now p.new }
        ensures spent { IsErr result ↔ IsSpentAt stripe self.now p.old }
        ensures err { OnErr result (p.new ≡ p.old) }
        ensures made { IfOk result (MakesRoomIn stripe self.now p.old p.new) }
    {
        let at = stripe as usize;
        make_room_in(rt, &self.locks[at], &mut p.passes[at], &mut p.scratch)
    }

    /// The stripe of a page.
    pub(crate) fn stripe_of(&self, key: Key) -> usize
        requires region { key.region < length self.now.table.regions }
        ensures stripe { result ≡ page_stripe self.now key }
        ensures below { result < length self.now.locks }
        ensures known { (shape : RegionShape) × (slice_get (shapes_of self.now.table) key.region ≡ Some shape) }
    {
        let shape = self.config.shapes.get(key.region as usize);
        self.config.layout.stripe_of(key, shape.group) as usize
    }
}
