//! Backing stores by lanes: the trait that the paging core reads and writes pages through, and stores in memory.
//!
//! A lane is one stripe's share of a region's store. It stands on `page_base`, whose `LaneSeen` is all that contracts see
//! of a lane: which lane it is, what it tells of its pages, and how many of its calls have failed. The crate promises that
//! a read or a write moves exactly one page and leaves every other page alone, that a fault comes only with a risen count,
//! and that the lanes of a store in memory are its pages by stripe, joined again to the same bytes. `FailLane` fails where
//! its lists say, and leaves the lane inside alone then.
#![tactic(auto)]

mod fail_lane;
pub mod laws;
mod mem_lane;
mod mem_store;
mod page;
mod split;
mod store;
#[cfg(test)]
mod tests;

pub use fail_lane::FailLane;
pub use mem_lane::MemLane;
pub use mem_store::{JoinBack, LaneSet, MemBack, MemStore};
pub use page::{read_page, write_page};
pub use store::{Store, StoreFault};
