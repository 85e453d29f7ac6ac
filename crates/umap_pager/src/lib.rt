//! The pager of all stripes, for any number of threads: loads and stores of ranges, services, and making room.
//!
//! It stands on `locked_stripe`, which has the calls of one stripe under its lock, and on `region_table`, which cuts a range into
//! pieces. Threads share one `Pager`, and each has `Passes` of its own: a pass for each stripe, and one scratch page.
//!
//! What a caller learns is plain data of its passes. `specs/Went.antt` says what a call did over all stripes, and that one
//! call after another is a call; `specs/Ranges.antt` what loads and stores did and how they are refused; all of it holds
//! whatever others do meanwhile. `specs/Opened.antt` and `specs/Ended.antt` say how a pager begins and what is left of it. After
//! `open` no call takes memory but `Passes::split`.
#![tactic(auto)]

mod closing;
mod config;
mod laws;
mod opening;
mod pager;
mod passes;
mod pieces;
mod ranges;
mod room;
mod splitting;
mod walks;

pub use closing::PagerEnd;
pub use config::{OpenFault, PagerConfig, SplitFault};
pub use laws::{calls_end_trips, went_knows, went_twice};
pub use locked_stripe::{Access, Back, Served};
pub use pager::Pager;
pub use passes::Passes;
