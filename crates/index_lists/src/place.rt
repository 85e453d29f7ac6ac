//! What is kept of a number that is a member of an order, and where it comes to stand among the marked of its group.

/// A member's stamp, by which members of different groups are told apart in age, its group, and its mark.
#[derive(Clone, Copy, Drop)]
pub(crate) struct Place {
    pub(crate) stamp: u64,
    pub(crate) group: u32,
    pub(crate) marked: bool,
}

/// In front of all that is marked, behind all of it, or behind one number.
#[derive(Clone, Copy)]
pub(crate) enum Spot {
    Front,
    Back,
    Behind(u32),
}
