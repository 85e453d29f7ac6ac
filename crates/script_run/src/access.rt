//! Loads and stores of ranges, piece by piece.
ghost use Rattle.std.specs.Prelude.{◌≡◌, ◌<◌, ◌^◌, true, length, OnOk, IfErr};
ghost use Rattle.page_model.specs.declared.entry.Entry.TheVariants.{Load, Save};
ghost use Rattle.serial_pager.specs.Accesses.{is_for_store, is_read};
ghost use Rattle.serial_pager.specs.Pagers.{is_writable, journals_made};
ghost use Rattle.script_run.specs.InsideRanges.{IsRange, IsListed, IsPart, PieceDone, PieceEnds, RangeGoesOn, LoadsRange, LoadEnds, SavesRange, StoreEnds};

use page_base::Piece;
use page_model::Journal;
use page_model::laws::accesses_by_piece;
use region_table::RegionTable;
use region_table::laws::pieces_follow;
use serial_pager::{PageFault, SerialPager};
use store_trait::Store;

/// Why an access of a range ended at a piece.
#[derive(Clone, Copy)]
pub(crate) enum AccessEnd {
    /// The region closes in the piece's stripe.
    Unmapped,
    Fault(PageFault),
}

/// Reads one piece into `buf`.
fn load_piece<S: Store, J: Journal>(
    pager: &mut SerialPager<S, J>,
    piece: Piece,
    buf: &mut [u8],
) -> Result<(), AccessEnd>
    requires part { IsPart pager.old piece.key piece.place (length buf.old) }
    requires few { pager.old.spent < 2 ^ 44 }
    ensures journals { journals_made J.made_with pager.new ≡ journals_made J.made_with pager.old }
    ensures done { OnOk result (PieceDone J.has_noted piece.key is_read
        (Load piece.key piece.place buf.new) pager.old pager.new) }
    ensures ended { IfErr result (PieceEnds J.has_noted piece.key is_read pager.old pager.new) }
{
    if pager.is_closing(piece.key) {
        return Err(AccessEnd::Unmapped);
    }
    match pager.load(piece.key, piece.place, buf) {
        Ok(()) => Ok(()),
        Err(fault) => Err(AccessEnd::Fault(fault)),
    }
}

/// Writes `bytes` over one piece.
fn store_piece<S: Store, J: Journal>(
    pager: &mut SerialPager<S, J>,
    piece: Piece,
    bytes: &[u8],
) -> Result<(), AccessEnd>
    requires part { IsPart pager.old piece.key piece.place (length bytes.now) }
    requires writable { is_writable pager.old piece.key.region ≡ true }
    requires few { pager.old.spent < 2 ^ 44 }
    ensures journals { journals_made J.made_with pager.new ≡ journals_made J.made_with pager.old }
    ensures done { OnOk result (PieceDone J.has_noted piece.key is_for_store
        (Save piece.key piece.place bytes.now) pager.old pager.new) }
    ensures ended { IfErr result (PieceEnds J.has_noted piece.key is_for_store pager.old pager.new) }
{
    if pager.is_closing(piece.key) {
        return Err(AccessEnd::Unmapped);
    }
    match pager.store(piece.key, piece.place, bytes) {
        Ok(()) => Ok(()),
        Err(fault) => Err(AccessEnd::Fault(fault)),
    }
}

/// Copies the bytes of a region from `off` on to `buf`. A piece in a stripe in which the region closes ends it, and so does a
/// fault.
pub(crate) fn load<S: Store, J: Journal>(
    pager: &mut SerialPager<S, J>,
    table: &RegionTable,
    region: u16,
    off: u64,
    buf: &mut [u8],
) -> Result<(), AccessEnd>
    requires range { IsRange pager.old region off (length buf.old) }
    requires listed { IsListed pager.old table.now region off (length buf.old) }
    ensures goes { RangeGoesOn (length buf.old) pager.old pager.new }
    ensures journals { journals_made J.made_with pager.new ≡ journals_made J.made_with pager.old }
    ensures made { OnOk result (LoadsRange J.has_noted region off (length buf.old) buf.new pager.old pager.new) }
    ensures ended { IfErr result (LoadEnds J.has_noted region off (length buf.old) pager.old pager.new) }
{
    pieces_follow();
    accesses_by_piece();
    let mut done = 0usize;
    for piece in table.pieces(region, off, buf.len() as u64) {
        let end = done + piece.len as usize;
        match load_piece(pager, piece, &mut buf[done..end]) {
            Ok(()) => {}
            Err(ended) => return Err(ended),
        }
        done = end;
    }
    Ok(())
}

/// Writes over the bytes of a region from `off` on. What ends a load ends it too, and the pieces before that one are done.
pub(crate) fn store<S: Store, J: Journal>(
    pager: &mut SerialPager<S, J>,
    table: &RegionTable,
    region: u16,
    off: u64,
    bytes: &[u8],
) -> Result<(), AccessEnd>
    requires range { IsRange pager.old region off (length bytes.now) }
    requires listed { IsListed pager.old table.now region off (length bytes.now) }
    requires writable { is_writable pager.old region ≡ true }
    ensures goes { RangeGoesOn (length bytes.now) pager.old pager.new }
    ensures journals { journals_made J.made_with pager.new ≡ journals_made J.made_with pager.old }
    ensures made { OnOk result (SavesRange J.has_noted region off bytes.now pager.old pager.new) }
    ensures ended { IfErr result (StoreEnds J.has_noted region off bytes.now pager.old pager.new) }
{
    pieces_follow();
    accesses_by_piece();
    let mut done = 0usize;
    for piece in table.pieces(region, off, bytes.len() as u64) {
        let end = done + piece.len as usize;
        match store_piece(pager, piece, &bytes[done..end]) {
            Ok(()) => {}
            Err(ended) => return Err(ended),
        }
        done = end;
    }
    Ok(())
}
