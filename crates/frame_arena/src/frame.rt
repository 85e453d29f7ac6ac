//! One frame: room for one page in an arena's block.
//!
//! What must stay true when this file is changed: a frame lies at its number times the page size behind the block's start,
//! and its ticket has its number. By the first a page joins its neighbours in `FrameArena::free`, by the second no frame is
//! home twice.
ghost use Rattle.std.specs.Prelude.{◌≡◌, ◌+◌, ◌*◌, ◌^◌, ◌<◌, ◌≤◌, length, take, drop};
ghost use Rattle.std.specs.Borrow.{Lends, Array, sem, u8 as byte};
ghost use denote.RawPtr.{◌+ₚ◌, count_of};
ghost use Rattle.frame_arena.specs.Frames.{with_bytes};
ghost use Rattle.frame_arena.specs.InsideArenas.{id_before, address_of};
ghost use Rattle.frame_arena.specs.InsideOwnership.{IsPlaced};
ghost use Rattle.frame_arena.specs.contracts.frame.Frame.{the_row};

use crate::book::Book;
use crate::piece::Piece;
use crate::ticket::Ticket;
use std::marker::Model;
use std_alloc::vec::Lodged;

/// Room for one page, out of its arena. It has no lifetime, may go to another thread, and must be put back.
pub struct Frame {
    page: Vec<u8, Lodged>,
    number: u32,
    ticket: Ticket,
}

impl Model for Frame {
    ghost use Rattle.frame_arena.specs.Frames.{ArenaFrame};
    ghost use Rattle.frame_arena.specs.InsideArenas.{arena_frame, IsFrame};

    ghost Value = { ArenaFrame };

    ghost view = { λ f. arena_frame f.page f.number f.ticket.names };

    ghost invariant = { λ f. IsFrame f.page f.number f.ticket.number f.ticket.names };
}

impl Frame {
    /// The bytes of the frame's page.
    #[inline]
    pub fn bytes(&self) -> &[u8]
        ensures bytes { result.now ≡ self.now.bytes }
        ensures size { length result.now ≡ self.now.arena.page_size }
    {
        self.page.as_slice()
    }

    /// The bytes of the frame's page, to be written over. No other frame's bytes change: they lie elsewhere.
    #[inline]
    pub fn bytes_mut(&mut self) -> &mut [u8]
        ensures* writes_back { sem 𝓛 (Lends the_row (Array byte 0) self.entry result (with_bytes self.old)) }
        ensures bytes { result.now ≡ self.old.bytes }
        ensures size { length result.now ≡ self.old.arena.page_size }
    {
        self.page.as_mut_slice()
    }

    /// The frame's number in its arena.
    pub(crate) fn number(&self) -> u32
        ensures number { result ≡ self.now.number }
        ensures named { result < length self.now.arena.names }
    {
        self.number
    }

    /// Two frames of one arena have different numbers.
    pub(crate) fn differ(self, other: Frame) -> (Frame, Frame)
        requires arena { self.arena ≡ other.arena }
        ensures differ { self.number ≡ other.number → ⊥ }
        ensures same { (result.0 ≡ self) × (result.1 ≡ other) }
    {
        let Frame {
            page,
            number,
            ticket,
        } = self;
        let Frame {
            page: other_page,
            number: other_number,
            ticket: other_ticket,
        } = other;
        let (ticket, other_ticket) = ticket.differ(other_ticket);
        (
            Frame {
                page,
                number,
                ticket,
            },
            Frame {
                page: other_page,
                number: other_number,
                ticket: other_ticket,
            },
        )
    }

    /// The frame's part of the block.
    pub(crate) fn into_piece(self) -> Piece
        ensures place { result.place ≡ address_of self }
        ensures bytes { result.bytes ≡ self.bytes }
        ensures size { length result.bytes ≡ self.arena.page_size }
    {
        let Frame {
            page,
            number: _,
            ticket: _,
        } = self;
        Piece::from_page(page)
    }

    /// The first `size` bytes of `rest` as the frame of this number; then what is left of `rest` and of the book.
    pub(crate) fn cut(
        at: *mut u8,
        size: usize,
        number: u32,
        rest: Piece,
        book: Book,
    ) -> (Frame, Piece, Book)
        requires place { (rest.place ≡ at) × IsPlaced at × (number * size ≤ count_of at) }
        requires size { (size ≤ length rest.bytes) × (0 < size) × (size < 2 ^ 63) }
        requires number { (book.next ≡ number) × (number < length book.names) }
        ensures arena { result.0.arena ≡ id_before at (number * size) size book.names }
        ensures frame { (result.0.number ≡ number) × (result.0.bytes ≡ take size rest.bytes) }
        ensures rest { (result.1.place ≡ at +ₚ size) × (result.1.bytes ≡ drop size rest.bytes) }
        ensures book { (result.2.names ≡ book.names) × (result.2.next ≡ number + 1) }
    {
        let (front, rest) = rest.cut(size);
        let page = front.into_page(at, size);
        let (ticket, book) = book.tear();
        (
            Frame {
                page,
                number,
                ticket,
            },
            rest,
            book,
        )
    }
}
