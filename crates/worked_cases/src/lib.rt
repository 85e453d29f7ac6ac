//! Tests of public calls: worked cases of the crates that are too large to be proved a second time with their tests.
//!
//! A crate with tests is proved twice, once without them and once with them. So the cases of a large crate stand here, each
//! crate's in a file of its own, over public contracts alone. There is nothing in this crate but tests.
#![tactic(auto)]

#[cfg(test)]
mod folders;
#[cfg(test)]
mod limits;
#[cfg(test)]
mod locked;
#[cfg(test)]
mod one_stripe;
#[cfg(test)]
mod pager;
#[cfg(test)]
mod serial;
#[cfg(test)]
mod sparse;
#[cfg(test)]
mod stripe;
#[cfg(test)]
mod workload;
