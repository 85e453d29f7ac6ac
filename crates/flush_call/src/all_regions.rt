//! Unmapping every region.
ghost use Rattle.std.specs.Prelude.{◌<◌, ◌≡◌, length, None, OnOk, IfErr};
ghost use Rattle.flush_call.specs.UnmapsAll.{AllUnmapped, EndsUnmapping, UnmapsRegions, first_fault, is_spent};
ghost use Rattle.umap_pager.specs.Passes.{FitTo};

use crate::unmap::uunmap;
use page_base::Key;
use page_model::Journal;
use page_model::laws::closings_stay;
use std::sync::Wait;
use store_trait::Store;
use umap_pager::{Access, Pager, Passes};

/// Whether a pass had made all its holds.
fn is_spent(answer: Result<(), Access>) -> bool
    ensures exact { result ≡ is_spent answer }
{
    matches!(answer, Err(Access::PassSpent))
}

/// The first fault of some answers and of the one behind them.
fn first_fault(first: Option<(Key, u64)>, answer: Result<(), Access>) -> Option<(Key, u64)>
    ensures exact { result ≡ first_fault first answer }
{
    match (first, answer) {
        (Some(fault), _) => Some(fault),
        (None, Err(Access::StoreFault { key, faults })) => Some((key, faults)),
        (None, _) => None,
    }
}

/// Unmaps each region of the table, in order of number, and passes over those that are unmapped. It goes on after a fault of the
/// store, and answers the first one. A pass that has made its holds ends it at once.
pub fn unmap_all<S: Store, J: Journal, R: Wait>(
    rt: &R,
    pager: &Pager<S, J>,
    p: &mut Passes<S, J>,
) -> Result<(), Access>
    requires fit { FitTo pager.now p.old }
    ensures fit { FitTo pager.now p.new }
    ensures ok { OnOk result (UnmapsRegions pager.now (length pager.now.table.regions) p.old p.new None) }
    ensures unmapped { OnOk result (AllUnmapped (length pager.now.table.regions) pager.now p.new) }
    ensures err { IfErr result (EndsUnmapping pager.now p.old p.new) }
{
    closings_stay();
    let mut first = None;
    for region in 0..pager.table().count() {
        let answer = uunmap(rt, pager, p, region);
        if is_spent(answer) {
            return Err(Access::PassSpent);
        }
        first = first_fault(first, answer);
    }
    match first {
        Some((key, faults)) => Err(Access::StoreFault { key, faults }),
        None => Ok(()),
    }
}
