//! Unmapping a region in all stripes.
ghost use Rattle.std.specs.Prelude.{◌≡◌, ◌<◌, ◌&&◌, length, OnOk, IfErr};
ghost use Rattle.flush_call.specs.Unmaps.{NewlyUnmapped, UnmapStops};
ghost use Rattle.umap_pager.specs.Passes.{FitTo};

use page_model::Journal;
use std::sync::Wait;
use store_trait::Store;
use umap_pager::{Access, Pager, Passes};

/// Whether the stripes so far were unmapped before, and one more.
fn is_still_gone(gone: bool, before: bool) -> bool
    ensures exact { result ≡ (gone && before) }
{
    gone && before
}

/// Unmaps a region in every stripe, in rising order of stripe. No access of it is served any more, and what its pages hold is in
/// the store. `Unmapped` says that it was so in every stripe before; then nothing was done. The first failed write ends the call,
/// as does a pass that has made its holds; the region goes on closing in that stripe, and a later call goes on from there.
pub fn uunmap<S: Store, J: Journal, R: Wait>(
    rt: &R,
    pager: &Pager<S, J>,
    p: &mut Passes<S, J>,
    region: u16,
) -> Result<(), Access>
    requires fit { FitTo pager.now p.old }
    requires region { region < length pager.now.table.regions }
    ensures fit { FitTo pager.now p.new }
    ensures ok { OnOk result (NewlyUnmapped pager.now region p.old p.new) }
    ensures err { IfErr result (UnmapStops pager.now region p.old p.new) }
{
    let mut gone = true;
    for stripe in 0..pager.stripes() {
        match pager.unmap_stripe(rt, p, stripe, region) {
            Ok(before) => gone = is_still_gone(gone, before),
            Err(why) => return Err(why),
        }
    }
    if gone {
        return Err(Access::Unmapped);
    }
    Ok(())
}
