//! Loads and stores of one piece, in whatever stripe its page is.
ghost use Rattle.std.specs.Prelude.{◌≡◌, length, true, OnOk, OnErr, IfErr};
ghost use Rattle.page_model.specs.declared.entry.Entry.TheVariants as entry;
ghost use Rattle.locked_stripe.specs.Calls.{PieceStopped, for_load, for_store};
ghost use Rattle.umap_pager.specs.InsideParts.{IsPart, PieceDone};
ghost use Rattle.umap_pager.specs.Passes.{FitTo, InStripe};
ghost use Rattle.umap_pager.specs.Ranges.{region_writable};
ghost use Rattle.umap_pager.specs.Shared.{page_stripe};

use crate::pager::Pager;
use crate::passes::Passes;
use locked_stripe::{Access, load_in, store_in};
use page_base::Key;
use page_model::Journal;
use std::sync::Wait;
use store_trait::Store;

impl<S: Store, J: Journal> Pager<S, J> {
    /// Loads a part of one page.
    pub(crate) fn load_piece<R: Wait>(
        &self,
        rt: &R,
        p: &mut Passes<S, J>,
        key: Key,
        place: u32,
        buf: &mut [u8],
    ) -> Result<(), Access>
        requires fit { FitTo self.now p.old }
        requires part { IsPart self.now key place (length buf.old) }
        ensures fit { FitTo self.now p.new }
        ensures length { length buf.new ≡ length buf.old }
        ensures ok { OnOk result (InStripe (page_stripe self.now key) self.now p.old p.new
            (λ u old new. PieceDone key for_load (entry.Load key place buf.new) old new)) }
        ensures err { IfErr result (λ why. InStripe (page_stripe self.now key) self.now p.old p.new
            (λ u old new. PieceStopped key for_load old new why)) }
        ensures untouched { OnErr result (buf.new ≡ buf.old) }
    {
        let at = self.stripe_of(key);
        load_in(
            rt,
            &self.locks[at],
            &mut p.passes[at],
            &mut p.scratch,
            key,
            place,
            buf,
        )
    }

    /// Stores into a part of one page.
    pub(crate) fn store_piece<R: Wait>(
        &self,
        rt: &R,
        p: &mut Passes<S, J>,
        key: Key,
        place: u32,
        bytes: &[u8],
    ) -> Result<(), Access>
        requires fit { FitTo self.now p.old }
        requires part { IsPart self.now key place (length bytes.now) }
        requires writable { region_writable self.now key.region ≡ true }
        ensures fit { FitTo self.now p.new }
        ensures ok { OnOk result (InStripe (page_stripe self.now key) self.now p.old p.new
            (λ u old new. PieceDone key for_store (entry.Save key place bytes.now) old new)) }
        ensures err { IfErr result (λ why. InStripe (page_stripe self.now key) self.now p.old p.new
            (λ u old new. PieceStopped key for_store old new why)) }
    {
        let at = self.stripe_of(key);
        store_in(
            rt,
            &self.locks[at],
            &mut p.passes[at],
            &mut p.scratch,
            key,
            place,
            bytes,
        )
    }
}
