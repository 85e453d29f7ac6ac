//! Laws of pieces. Each function does nothing: its contract is the law, and a caller calls it where its proof needs the
//! law.
ghost use Rattle.region_table.specs.Covers.{PiecesCover, PiecesFollow};

/// The pieces of a range join to the range, one a page, in rising order, and stay inside the pages that the range does.
pub fn pieces_cover()
    ensures { PiecesCover }
{}

/// What follows on some pieces of a range begins where they end.
pub fn pieces_follow()
    ensures { PiecesFollow }
{}
