//! Flushing a pager and unmapping its regions, for any number of threads.
//!
//! It stands on `umap_pager`, whose walks over one stripe it makes in rising order of stripe. What a call did is said of the
//! caller's passes, stripe by stripe: `specs/OverStripes.antt` has the words, `specs/Flushes.antt` and `specs/Unmaps.antt` what
//! each call promises. All of it holds whatever others do meanwhile. No call takes memory.
#![tactic(auto)]

mod all_regions;
mod flush;
mod unmap;

pub use all_regions::unmap_all;
pub use flush::umap_flush;
pub use unmap::uunmap;
