//! The plain data of paging: keys of pages, the shape of regions, faults that wait, watermarks.

/// Page `page` of region `region`, both counted from 0.
#[derive(Clone, Copy, Debug, PartialEq, Eq)]
pub struct Key {
    pub region: u16,
    pub page: u32,
}

/// `len` bytes from `place` on in one page.
#[derive(Clone, Copy, Debug, PartialEq, Eq)]
pub struct Piece {
    pub key: Key,
    pub place: u32,
    pub len: u32,
}

/// The shape of a region: its pages, how many of them lie together in one file, and whether it may be stored to.
#[derive(Clone, Copy, Debug, PartialEq, Eq)]
pub struct RegionShape {
    pub pages: u32,
    pub group: u32,
    pub writable: bool,
}

/// Why a fault is raised, after the fault kinds of userfaultfd(2): a missing page that is read or written, a
/// write-protected page that is written, and a page that is read ahead of its use.
#[derive(Clone, Copy, Debug, PartialEq, Eq)]
pub enum Why {
    Read,
    Write,
    Protected,
    Ahead,
}

/// A fault that waits to be served.
#[derive(Clone, Copy, Debug, PartialEq, Eq)]
pub struct Raise {
    pub key: Key,
    pub why: Why,
}

/// The numbers of resident pages at which a stripe starts to evict, and at which it stops.
#[derive(Clone, Copy, Debug, PartialEq, Eq)]
pub struct Marks {
    pub on: u32,
    pub off: u32,
}
