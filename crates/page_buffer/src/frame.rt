//! One frame: room for a page, and what the room is used for.
use page_base::Key;

/// What a frame is used for.
#[derive(Clone, Copy, Debug, PartialEq, Eq)]
pub(crate) enum Use {
    Free,
    Reserved(Key),
    Resident(Key),
}

/// Room for one page, which is a frame of the arena. Its bytes mean something while a page is resident in it.
pub(crate) struct Frame {
    pub(crate) used: Use,
    pub(crate) page: frame_arena::Frame,
}
