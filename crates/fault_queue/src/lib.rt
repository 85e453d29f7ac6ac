//! The fault queue of a stripe: the faults that wait to be served, in the order in which they were raised.
//!
//! It stands on `page_base` and `index_lists`. Contracts see the list of raises and the capacity. It promises at most one
//! raise of a page, that a raise goes to the end and is refused exactly at capacity, and that a withdrawal leaves the others
//! in their order. All memory is taken in `FaultQueue::new`. A page's raise is found in the chain of its bucket; a search by a
//! test walks the order.
#![tactic(auto)]

mod queue;

pub use queue::{FaultQueue, QueueFull};
