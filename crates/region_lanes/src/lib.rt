//! The lanes of a workload's regions over memory and files: opened over a folder before a run, and closed behind it.
//!
//! It stands on the lanes and folders of `file_store`, on `store_trait`, and on `script_run`, whose runs its lanes fit.
//! Opening answers the first region in order that refuses, and leaves the folder as it was then. Closing leaves in each told
//! file what its lanes told, and all other bytes as before. `laws` says what the two give together.
#![tactic(auto)]

mod any_lane;
mod close;
pub mod laws;
mod open;
mod region;

pub use any_lane::AnyLane;
pub use close::close_lanes;
pub use open::{LaneStop, open_lanes};
