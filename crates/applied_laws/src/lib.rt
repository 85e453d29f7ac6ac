//! Laws of the lower crates that no crate calls yet, each applied to a case: so it is seen that what it asks can be met, and
//! that it says something. Nothing stands on this crate. A law that a layer above comes to call may leave.
#![tactic(auto)]

mod lists;
mod ranges;
mod stripes;
mod texts;

pub use lists::{keys_in_rising_order, keys_of_one_page, pages_behind_one_another, written_items};
pub use ranges::{a_range_begins_with_its_first_piece, two_pieces_are_two_loads};
pub use stripes::{a_pick_that_is_dirty_has_its_lane, an_oldest_page_is_resident};
pub use texts::the_first_line_of_a_text_has_no_fault;
