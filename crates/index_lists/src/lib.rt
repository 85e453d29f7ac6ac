//! Doubly linked lists over the numbers below a bound, for what is kept by number elsewhere: frames, slots of a queue.
//!
//! It stands on `page_base` alone. Contracts see the bound, and each list as the numbers that stand in it, in order. It promises
//! that a number stands in one list at the most, and that a number put in or taken out leaves all else in its order. Each call
//! writes a fixed number of links, and only `IndexLists::new` takes memory.
//!
//! `GroupedOrder` is one order in which each member has a group and may be marked: it finds the first member of a group and the
//! first marked one without a walk, and tells which of two members stands first. Only `GroupedOrder::new` takes memory.
#![tactic(auto)]

mod grouped;
mod lists;
mod node;
mod place;
#[cfg(test)]
mod tests;

pub use grouped::GroupedOrder;
pub use lists::IndexLists;
