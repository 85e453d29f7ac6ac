//! Paged memory of one thread: loads and stores on the stripes of a buffer, with the page faults that they make, without a lock.
//!
//! It stands on `stripe_core`, which has one method for each event of a stripe, and on `page_model`, which says what a
//! stripe's history is. It adds the order of events that an access needs: raise a fault where the page is missing or
//! protected, serve the faults that wait, make room where a read waits for a frame, and try again.
//!
//! Between two calls each lane is home, so that every fault that waits can be served at once or has room made (`IsAtRest` of
//! `specs/Rests.antt`). Contracts say of each call which entries it made, in a form from which it follows that the stripe stands
//! for its history and that the journal noted it. What pages hold, which of them are dirty and what the lanes count follows from
//! these entries, and no clause says it again. Only the store may make an access fail: a fault names the page and the count of the
//! lane, and no entry of the access was made.
//!
//! `SerialStripe` is one stripe with its journal; `SerialPager` is all stripes of a buffer, whose contracts speak of pages
//! whatever stripe they are in.
#![tactic(auto)]

mod fault;
mod laws;
mod pager;
mod stripe;

pub use fault::{PageFault, UnmapError};
pub use page_base::Key;
pub use pager::{PagerBack, PagerConfig, SerialPager};
pub use stripe::SerialStripe;
