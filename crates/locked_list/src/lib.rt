//! A list under a history lock, to which two threads add.
//!
//! It stands on `turn_lock` and is there to show what a client of the lock needs: the value stands for the lock's history,
//! which is the list itself; the threads run as jobs; the value is generic in a trait with ghost members, and only that
//! trait's type has to be fit for other threads. It promises that the closed history has each thread's numbers, each once
//! and in their order.
#![tactic(auto)]

mod adder;
mod list;
mod one_of;
mod run;
#[cfg(test)]
mod tests;

pub use adder::{Adder, Flag, add_one};
pub use list::{Lines, Noted, Shelf};
pub use one_of::{OneOf, Passes, hold_one};
pub use run::{Added, add_all, add_beside};
