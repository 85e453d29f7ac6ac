//! Bytes of the block, as a value that alone may reach them. It takes no memory.
ghost use Rattle.std.specs.Prelude.{◌≡◌, ℕ, ◌^◌, ◌<◌, ◌≤◌, List, [], ◌++◌, length, take, drop};
ghost use denote.RawPtr.{Ptr, ◌+ₚ◌};
ghost use Rattle.frame_arena.specs.InsideOwnership.{lies};

use std::marker::Model;
use std_alloc::vec::{Lodged, lodge};

/// The bytes from a place on. It isn't dropped: bytes that are lost could not go back to the heap.
pub(crate) struct Piece {
    ghost place: { Ptr },
    ghost bytes: { List ℕ },
}

impl Model for Piece {
    ghost also_owns = { λ piece. lies piece.place piece.bytes };
}

impl Piece {
    /// The first `mid` bytes, and those behind them.
    pub(crate) fn cut(self, mid: usize) -> (Piece, Piece)
        requires { mid ≤ length self.bytes }
        ensures { (result.0.place ≡ self.place) × (result.0.bytes ≡ take mid self.bytes)
            × (result.1.place ≡ self.place +ₚ mid) × (result.1.bytes ≡ drop mid self.bytes) }
    {
        let Piece {} = self;
        (Piece {}, Piece {})
    }

    /// The bytes of both. `next` begins where this ends.
    pub(crate) fn join(self, next: Piece) -> Piece
        requires { next.place ≡ self.place +ₚ length self.bytes }
        ensures { (result.place ≡ self.place) × (result.bytes ≡ self.bytes ++ next.bytes) }
    {
        let Piece {} = self;
        let Piece {} = next;
        Piece {}
    }

    /// Lets go of a piece that has no bytes.
    pub(crate) fn end(self)
        requires { self.bytes ≡ [] }
    {
        let Piece {} = self;
    }

    /// A `Vec` of these bytes, which takes no memory and frees none.
    pub(crate) fn into_page(self, at: *mut u8, size: usize) -> Vec<u8, Lodged>
        requires { (self.place ≡ at) × (length self.bytes ≡ size) × (0 < size) × (size < 2 ^ 63) }
        ensures { (result.ptr ≡ at) × (result.items ≡ self.bytes) × (result.len ≡ size) }
    {
        let Piece {} = self;
        unsafe { lodge(at, size, size) }
    }

    /// The bytes of such a `Vec`.
    pub(crate) fn from_page(page: Vec<u8, Lodged>) -> Piece
        requires { 0 < page.len }
        ensures { (result.place ≡ page.ptr) × (result.bytes ≡ page.items) }
    {
        let _size = page.dislodge();
        Piece {}
    }
}
