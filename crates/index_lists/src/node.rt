//! One node of the rings: what stands before it, and what stands behind it.

/// The neighbours of a number, or of the end of a list.
#[derive(Clone, Copy, Drop)]
pub(crate) struct Node {
    pub(crate) previous: u32,
    pub(crate) next: u32,
}
