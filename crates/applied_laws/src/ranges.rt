//! Ranges of a region, cut into pieces.
ghost use Rattle.applied_laws.specs.Applied.{BeginsWithFirst, LoadsTwo};

use page_model::laws::accesses_by_piece;
use region_table::laws::pieces_follow;

/// The first piece of a range lies where the range begins.
pub fn a_range_begins_with_its_first_piece()
    ensures { BeginsWithFirst }
{
    pieces_follow();
}

/// The bytes of two pieces, one behind the other, are those of two loads.
pub fn two_pieces_are_two_loads()
    ensures { LoadsTwo }
{
    accesses_by_piece();
}
