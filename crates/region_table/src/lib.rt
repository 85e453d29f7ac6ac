//! The table of regions: their names, where their pages lie, their lengths, and how a range of one is cut into pieces.
//!
//! It stands on page_base alone. It promises that a region is refused exactly where it breaks a rule behind those that
//! are there, by the first rule that it breaks; that numbers, lengths and shapes are those of what was added; and that
//! the pieces of a range cover it in rising order, one a page.
#![tactic(auto)]

pub mod laws;
mod pieces;
mod region;
mod spec;
mod table;
#[cfg(test)]
mod tests;

pub use page_base::Piece;
pub use pieces::Pieces;
pub use region::MOST_FILES;
pub use spec::{Kind, RegionFault, RegionSpec};
pub use table::RegionTable;
