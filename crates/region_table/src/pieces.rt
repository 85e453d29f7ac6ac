//! The pieces of a range: one for each page that it touches.
ghost use Rattle.std.specs.Prelude.{◌≡◌, ◌≤◌, ◌+◌, ◌*◌};

use page_base::{Key, Piece};

/// The pieces of a range that are still to come, in rising order. It takes no memory. The range ends where the numbers
/// of pages still fit.
#[derive(Debug, Drop)]
pub struct Pieces {
    region: u16,
    page_size: u32,
    off: u64,
    left: u64,
    pub ghost sized: { 1 ≤ page_size },
    pub ghost few: { off + left ≤ page_size * 4294967296 },
}

impl Pieces {
    ghost use Rattle.region_table.specs.Cuts.{rest_of};
    ghost use Rattle.region_table.specs.Pieces.{pieces_of};

    /// The pieces of `left` bytes from `off` on.
    pub(crate) fn new(region: u16, page_size: u32, off: u64, left: u64) -> Pieces
        requires sized { 1 ≤ page_size }
        requires few { off + left ≤ page_size * 4294967296 }
        ensures { rest_of result ≡ pieces_of page_size region off left }
    {
        Pieces {
            region,
            page_size,
            off,
            left,
        }
    }
}

impl Iterator for Pieces {
    type Item = Piece;

    ghost use Rattle.std.specs.Iterator.{YieldsFirst, item_count};
    ghost use Rattle.region_table.specs.Cuts.{rest_of};

    ghost next_gives = { YieldsFirst rest_of };

    ghost remaining = { item_count rest_of };

    fn next(&mut self) -> Option<Piece> {
        if self.left == 0 {
            return None;
        }
        let page_size = u64::from(self.page_size);
        let page = self.off / page_size;
        let place = self.off % page_size;
        let len = self.left.min(page_size - place);
        self.off += len;
        self.left -= len;
        Some(Piece {
            key: Key {
                region: self.region,
                page: page as u32,
            },
            place: place as u32,
            len: len as u32,
        })
    }
}
