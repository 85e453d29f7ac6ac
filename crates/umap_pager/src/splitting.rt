//! Passes for further threads, and their return.
ghost use Rattle.std.specs.Prelude.{◌≡◌, IfOk, IfErr, OnOk, OnErr, IsTrue, ◌↔◌};
ghost use Rattle.umap_pager.specs.Passes.{FitTo, HaveSpare, AreFirst, split_all, newcomers, IsRefusedSplit, FoldsAll};

use crate::config::SplitFault;
use crate::pager::Pager;
use crate::passes::Passes;
use page_model::Journal;
use store_trait::Store;

impl<S: Store, J> Passes<S, J> {
    /// Whether each pass may split a further one off.
    fn have_spare(&self) -> bool
        ensures { IsTrue result ↔ HaveSpare self.now }
    {
        for stripe in 0..self.passes.len() {
            if self.passes[stripe].spare() == 0 {
                return false;
            }
        }
        true
    }
}

impl<S: Store, J: Journal> Passes<S, J> {
    /// Further passes, which have seen as much and made nothing. It takes memory for them.
    pub fn split(&mut self, pager: &Pager<S, J>) -> Result<Passes<S, J>, SplitFault>
        requires fit { FitTo pager.now self.old }
        ensures ok { OnOk result (HaveSpare self.old) }
        ensures refused { IfErr result (IsRefusedSplit self.old) }
        ensures err { OnErr result (self.new ≡ self.old) }
        ensures this { OnOk result (self.new ≡ split_all self.old) }
        ensures other { IfOk result (λ p. p ≡ newcomers self.old) }
        ensures fit { FitTo pager.now self.new }
        ensures other_fit { IfOk result (FitTo pager.now) }
    {
        if !self.have_spare() {
            return Err(SplitFault::NoSpare);
        }
        let alloc = *self.passes.allocator();
        let count = self.passes.len();
        let Ok(scratch) = vec![in alloc; 0u8; self.scratch.len()] else {
            return Err(SplitFault::OutOfMemory);
        };
        let Ok(mut passes) = Vec::with_capacity(alloc, count) else {
            return Err(SplitFault::OutOfMemory);
        };
        for stripe in 0..count {
            let Ok(pass) = self.passes[stripe].split(&pager.locks[stripe]) else {
                unreachable!()
            };
            passes.push_reserved(pass);
        }
        Ok(Passes { passes, scratch })
    }

    /// Takes other passes of the pager back. These have to be its first ones.
    pub fn fold(&mut self, pager: &Pager<S, J>, other: Passes<S, J>)
        requires fit { FitTo pager.now self.old }
        requires first { AreFirst self.old }
        requires other { FitTo pager.now other }
        ensures fit { FitTo pager.now self.new }
        ensures folded { FoldsAll self.old other self.new }
    {
        let Passes {
            mut passes,
            scratch: _,
        } = other;
        'stripes: while let Some(pass) = passes.pop() {
            let stripe = passes.len();
            self.passes[stripe].fold(&pager.locks[stripe], pass);
        }
        passes.destroy_empty();
    }
}
