//! What the cases and the benchmarks of several crates share: lanes over a small region, lanes that fail, a journal that can be
//! read, and a pager of one stripe in one hand.
#![tactic(auto)]

mod hand;
mod journal;
mod lanes;

pub use hand::{Shared, open_shared};
pub use journal::{NO_PAGE, Row, Rows};
pub use lanes::{failing_lane, failing_memory_lane, filled_lane, memory_lane};
