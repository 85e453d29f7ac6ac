//! Walks over one stripe: a flush, and the unmapping of a region.
ghost use Rattle.std.specs.Prelude.{◌≡◌, ◌<◌, length, OnOk, IfOk, IfErr};
ghost use Rattle.umap_pager.specs.Passes.{FitTo};
ghost use Rattle.umap_pager.specs.Walks.{FlushesIn, FlushStopsIn, UnmapsIn, UnmapStopsIn};

use crate::pager::Pager;
use crate::passes::Passes;
use locked_stripe::{Access, flush_in, unmap_in};
use page_model::Journal;
use std::sync::Wait;
use store_trait::Store;

impl<S: Store, J: Journal> Pager<S, J> {
    /// Writes the dirty pages of a stripe, each once, in rising order of region and page. The first failed write ends it.
    pub fn flush_stripe<R: Wait>(
        &self,
        rt: &R,
        p: &mut Passes<S, J>,
        stripe: u32,
    ) -> Result<(), Access>
        requires fit { FitTo self.now p.old }
        requires stripe { stripe < self.now.layout.stripes }
        ensures fit { FitTo self.now p.new }
        ensures ok { OnOk result (FlushesIn stripe self.now p.old p.new) }
        ensures err { IfErr result (FlushStopsIn stripe self.now p.old p.new) }
    {
        let at = stripe as usize;
        flush_in(rt, &self.locks[at], &mut p.passes[at], &mut p.scratch)
    }

    /// Unmaps a region in a stripe, and answers whether it was unmapped before. The first failed write ends it; the region goes
    /// on closing there, and a later call goes on.
    pub fn unmap_stripe<R: Wait>(
        &self,
        rt: &R,
        p: &mut Passes<S, J>,
        stripe: u32,
        region: u16,
    ) -> Result<bool, Access>
        requires fit { FitTo self.now p.old }
        requires stripe { stripe < self.now.layout.stripes }
        requires region { region < length self.now.table.regions }
        ensures fit { FitTo self.now p.new }
        ensures ok { IfOk result (UnmapsIn stripe self.now region p.old p.new) }
        ensures err { IfErr result (UnmapStopsIn stripe self.now region p.old p.new) }
    {
        let at = stripe as usize;
        unmap_in(
            rt,
            &self.locks[at],
            &mut p.passes[at],
            &mut p.scratch,
            region,
        )
    }
}
