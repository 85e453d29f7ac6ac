//! Laws of lines. Each function does nothing but call the laws that it rests on: its contract is the law, and a caller calls
//! it where its proof needs the law. The statements stand in `specs/Flat.antt`.
ghost use Rattle.flat_lines.specs.Flat.{LinesAreFlat, OwnersAreFlat, BytesByPages};

use page_base::laws::same_is_equal;
use page_model::laws::owners_in_turn;
use region_table::laws::pieces_cover;
use store_trait::laws::pages_lie_apart;

/// Lines mean what they mean by flat memory, where each load follows from the accesses before it.
pub fn lines_are_flat()
    ensures { LinesAreFlat }
{
    same_is_equal();
    pieces_cover();
}

/// So it is of owners of different pages, in whatever order they made their accesses.
pub fn owners_are_flat()
    ensures { OwnersAreFlat }
{
    owners_in_turn();
    lines_are_flat();
    bytes_by_pages();
}

/// A region's bytes are those of its pages, one behind the other.
pub fn bytes_by_pages()
    ensures { BytesByPages }
{
    pages_lie_apart();
}
