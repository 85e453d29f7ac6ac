//! What every crate of the library counts with: pages and their stripes, the layout of a buffer, watermarks, and lists
//! whose room is known.
//!
//! It stands on std alone. It promises exact numbers: which stripe a page belongs to, how many frames a stripe has, at
//! which marks it evicts, and which page sizes, stripes and frames go together. A list promises that what was reserved
//! goes in later without taking memory. The numbers that limit paging are constants of `limits`, which code, clauses and
//! definitions of all crates cite. `specs/Lanes.antt` has the data by which all crates speak of a lane. The laws of
//! keys and of lists that several crates need stand in `laws`.
#![tactic(auto)]

mod bytes;
mod faults;
mod keys;
pub mod laws;
mod layout;
mod limits;
mod list;
#[cfg(test)]
mod tests;
mod texts;
mod watermarks;

pub use bytes::Bytes;
pub use faults::{LayoutFault, OutOfMemory};
pub use keys::{Key, Marks, Piece, Raise, RegionShape, Why};
pub use layout::Layout;
pub use limits::{
    LEAST_PAGE_SIZE, MOST_BUFFER_BYTES, MOST_FAULTS, MOST_FRAMES, MOST_PAGE_SIZE, MOST_PAGES,
    MOST_REGIONS, MOST_STRIPES,
};
pub use list::List;
pub use texts::Texts;
pub use watermarks::marks;
