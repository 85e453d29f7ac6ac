//! One stripe of a buffer under its lock: services, room, loads and stores of one piece, flushes and unmappings, by any number of
//! callers.
//!
//! It stands on `turn_lock`, whose holds form one history, and on `stripe_core`, whose events that history is made of. Each hold
//! makes one entry or none; the reads and writes of the store run between two holds, with the lane out of the stripe.
//!
//! What a caller learns is plain data of its pass: `specs/Holds.antt` says what a call did with a pass,
//! `specs/ServesOne.antt` what a step of service and making room did, `specs/Calls.antt` what an access did and why it ended,
//! `specs/Walks.antt` what a flush and an unmapping did. All of it holds whatever others do to the stripe meanwhile. No call takes
//! memory.
#![tactic(auto)]

mod accesses;
mod answers;
mod flushes;
mod laws;
mod looks;
mod reads;
mod serves;
mod stripe_box;
mod trips;
mod unmaps;
mod writes;

pub use accesses::{load_in, store_in};
pub use answers::{Access, Back, Served};
pub use flushes::flush_in;
pub use laws::whole_trips;
pub use serves::{make_room_in, serve_in};
pub use stripe_box::{NotedStripe, StripeBox, StripeTerms};
pub use unmaps::unmap_in;
