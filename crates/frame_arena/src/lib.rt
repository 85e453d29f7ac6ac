//! One block of memory, cut into frames of one page each.
//!
//! It stands on `page_base`, and on the kit's `std_alloc` for a `Vec` that lies in another value's block. Contracts see which
//! arena a frame is of, its number, what its page holds, and by number the frames that are home. It promises that two frames
//! never share a byte, that a frame is home at most once, that `take` gives none exactly where none is home, and that the block
//! goes back whole: frames and arenas have to be spent. All memory is taken in `FrameArena::new`. Raw pointers stand in this
//! crate alone.
#![tactic(auto)]

mod arena;
mod book;
mod frame;
mod piece;
mod shell;
#[cfg(test)]
mod tests;
mod ticket;

pub use arena::FrameArena;
pub use frame::Frame;
