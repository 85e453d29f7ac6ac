//! Room for what is left of a pager's stripes.
ghost use Rattle.std.specs.Prelude.{◌≡◌, ◌≤◌, [], vec_capacity};
ghost use Rattle.page_base.specs.declared.limits.TheConstants.{MOST_STRIPES};

use page_base::{List, MOST_STRIPES, OutOfMemory};
use page_model::Entry;
use std::alloc::Global;
use turn_lock::Closed;

/// Room for the lanes, the journals and the histories of as many stripes as there may be, with nothing in it.
pub(crate) struct EndRoom<S, J> {
    pub(crate) lanes: Vec<List<S>>,
    pub(crate) journals: Vec<J>,
    pub(crate) stripes: Vec<Closed<Entry>>,
    pub ghost no_lanes: { lanes.items ≡ [] },
    pub ghost no_journals: { journals.items ≡ [] },
    pub ghost no_stripes: { stripes.items ≡ [] },
    pub ghost many_lanes: { MOST_STRIPES ≤ vec_capacity lanes },
    pub ghost many_journals: { MOST_STRIPES ≤ vec_capacity journals },
    pub ghost many_stripes: { MOST_STRIPES ≤ vec_capacity stripes },
}

impl<S, J> EndRoom<S, J> {
    /// Takes the memory for it.
    pub(crate) fn new(alloc: Global) -> Result<EndRoom<S, J>, OutOfMemory> {
        let stripes = Vec::with_capacity(alloc, MOST_STRIPES as usize)?;
        let lanes = Vec::with_capacity(alloc, MOST_STRIPES as usize)?;
        let Ok(journals) = Vec::with_capacity(alloc, MOST_STRIPES as usize) else {
            lanes.destroy_empty();
            return Err(OutOfMemory);
        };
        Ok(EndRoom {
            lanes,
            journals,
            stripes,
        })
    }

    /// Gives the memory back.
    pub(crate) fn free(self) {
        let EndRoom {
            lanes,
            journals,
            stripes: _,
        } = self;
        lanes.destroy_empty();
        journals.destroy_empty();
    }
}
