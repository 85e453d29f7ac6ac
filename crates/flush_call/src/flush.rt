//! Flushing all stripes.
ghost use Rattle.std.specs.Prelude.{OnOk, IfErr};
ghost use Rattle.flush_call.specs.Flushes.{AllFlushed, FlushStops};
ghost use Rattle.umap_pager.specs.Passes.{FitTo};

use page_model::Journal;
use std::sync::Wait;
use store_trait::Store;
use umap_pager::{Access, Pager, Passes};

/// Writes the dirty pages of every stripe, each once, in rising order of stripe, region and page. Each store that the caller has
/// seen is in the store then, by a write that began after it. The first failed write ends the call, as does a pass that has made
/// its holds; the stripes behind it are as they were. Pages stay resident.
pub fn umap_flush<S: Store, J: Journal, R: Wait>(
    rt: &R,
    pager: &Pager<S, J>,
    p: &mut Passes<S, J>,
) -> Result<(), Access>
    requires fit { FitTo pager.now p.old }
    ensures fit { FitTo pager.now p.new }
    ensures ok { OnOk result (AllFlushed pager.now p.old p.new) }
    ensures err { IfErr result (FlushStops pager.now p.old p.new) }
{
    for stripe in 0..pager.stripes() {
        match pager.flush_stripe(rt, p, stripe) {
            Ok(()) => {}
            Err(why) => return Err(why),
        }
    }
    Ok(())
}
