//! The paging core: one stripe of a buffer, with one method for each event that may happen to it.
//!
//! It stands on `page_model`, which says what a stripe's history is and which data stand for it, on `store_trait` for the
//! lanes, and on the three parts `soft_mmu`, `page_buffer` and `fault_queue`. Contracts see a `Stripe` as the plain data of
//! `page_model`'s `Core`. Each event promises three things: the exact data that it leaves (the pure step of its name); that a
//! stripe which stands for a history stands afterwards for that history with the event's entry, whoever makes it; and an
//! answer that the data before it determine. Where no entry is made, nothing changes. No event takes memory.
#![tactic(auto)]

mod accesses;
mod answers;
mod closings;
mod config;
mod eviction_readers;
mod evictions;
mod faults;
mod oldest;
mod openings;
mod read_faults;
mod readers;
mod reads;
mod region;
mod room;
mod stripe;
mod trip;
mod waiting_faults;
mod writes;

pub use answers::{FrameState, Look, Raise};
pub use config::{NewStripe, StripeConfig};
pub use page_base::{Key, Layout, List, RegionShape, Why};
pub use page_model::{Cause, Counts, HintAnswer, Next, Pick};
pub use store_trait::{Store, StoreFault};
pub use stripe::Stripe;
pub use trip::Trip;
