//! The page buffer of a stripe: its frames, what each holds, and the order in which the resident pages were filled.
//!
//! It stands on `frame_arena`, of which it takes all frames when it is made, on `index_lists`, in which it keeps the order, and
//! on `page_base`. Contracts see, for each frame, that it is free, reserved for a page that is being read, or holds a resident
//! page with its bytes, and the resident pages in order of filling. It promises that reserved, resident and free frames
//! together are the quota, that a fill goes to the end of the order, and that a write changes the bytes of one page alone. All
//! memory is taken in `PageBuffer::new`, and given back by `close`: a buffer has to be spent.
#![tactic(auto)]

mod buffer;
mod frame;

pub use buffer::PageBuffer;
