//! Loads and stores of ranges, piece by piece.
ghost use Rattle.std.specs.Prelude.{◌≡◌, ◌+◌, ◌<◌, ◌≤◌, length, true, OnOk, IfErr};
ghost use Rattle.locked_stripe.specs.Calls.{for_load, for_store};
ghost use Rattle.umap_pager.specs.Passes.{FitTo};
ghost use Rattle.umap_pager.specs.Ranges.{RangeLoaded, LoadStopped, LoadRefused, RangeStored, StoreStopped, StoreRefused, IsStorable, region_writable};
ghost use Rattle.umap_pager.specs.Shared.{region_size};

use crate::laws::went_laws;
use crate::pager::Pager;
use crate::passes::Passes;
use locked_stripe::Access;
use page_model::Journal;
use page_model::laws::accesses_by_piece;
use region_table::laws::pieces_follow;
use std::sync::Wait;
use store_trait::Store;

impl<S: Store, J: Journal> Pager<S, J> {
    /// Copies the bytes of a region from byte `off` on to `buf`, piece by piece. A range that passes the region's end is
    /// refused first, with nothing done; another refusal comes at a piece, and the pieces before that one are done.
    pub fn load<R: Wait>(
        &self,
        rt: &R,
        p: &mut Passes<S, J>,
        region: u16,
        off: u64,
        buf: &mut [u8],
    ) -> Result<(), Access>
        requires fit { FitTo self.now p.old }
        requires region { region < length self.now.table.regions }
        ensures fit { FitTo self.now p.new }
        ensures length { length buf.new ≡ length buf.old }
        ensures in_range { OnOk result (off + length buf.old ≤ region_size self.now region) }
        ensures loaded { OnOk result (RangeLoaded self.now region off buf.new p.old p.new) }
        ensures refused { IfErr result (LoadRefused self.now region off p.old p.new buf.old buf.new) }
        ensures empty { length buf.old ≡ 0 → p.new ≡ p.old }
    {
        let size = self.table.length(region);
        let len = buf.len() as u64;
        if off > size || len > size - off {
            return Err(Access::OutOfRange);
        }
        self.load_pieces(rt, p, region, off, buf)
    }

    /// Copies `bytes` to a region from byte `off` on, piece by piece. A range that passes the region's end, or a region that is
    /// read-only, is refused first, with nothing done; another refusal comes at a piece, and the pieces before that one are
    /// done.
    pub fn store<R: Wait>(
        &self,
        rt: &R,
        p: &mut Passes<S, J>,
        region: u16,
        off: u64,
        bytes: &[u8],
    ) -> Result<(), Access>
        requires fit { FitTo self.now p.old }
        requires region { region < length self.now.table.regions }
        ensures fit { FitTo self.now p.new }
        ensures storable { OnOk result (IsStorable self.now region off (length bytes.now)) }
        ensures stored { OnOk result (RangeStored self.now region off bytes.now p.old p.new) }
        ensures refused { IfErr result (StoreRefused self.now region off bytes.now p.old p.new) }
        ensures empty { length bytes.now ≡ 0 → p.new ≡ p.old }
    {
        let size = self.table.length(region);
        let len = bytes.len() as u64;
        if off > size || len > size - off {
            return Err(Access::OutOfRange);
        }
        if !self.config.shapes.get(region as usize).writable {
            return Err(Access::ReadOnly);
        }
        self.store_pieces(rt, p, region, off, bytes)
    }

    /// The pieces of a load, which lies in the region.
    fn load_pieces<R: Wait>(
        &self,
        rt: &R,
        p: &mut Passes<S, J>,
        region: u16,
        off: u64,
        buf: &mut [u8],
    ) -> Result<(), Access>
        requires fit { FitTo self.now p.old }
        requires region { region < length self.now.table.regions }
        requires range { off + length buf.old ≤ region_size self.now region }
        ensures fit { FitTo self.now p.new }
        ensures length { length buf.new ≡ length buf.old }
        ensures loaded { OnOk result (RangeLoaded self.now region off buf.new p.old p.new) }
        ensures refused { IfErr result (LoadRefused self.now region off p.old p.new buf.old buf.new) }
        ensures empty { length buf.old ≡ 0 → p.new ≡ p.old }
    {
        went_laws();
        pieces_follow();
        accesses_by_piece();
        let mut done = 0usize;
        for piece in self.table.pieces(region, off, buf.len() as u64) {
            let end = done + piece.len as usize;
            match self.load_piece(rt, p, piece.key, piece.place, &mut buf[done..end]) {
                Ok(()) => {}
                Err(why) => return Err(why),
            }
            done = end;
        }
        Ok(())
    }

    /// The pieces of a store, which lies in the region.
    fn store_pieces<R: Wait>(
        &self,
        rt: &R,
        p: &mut Passes<S, J>,
        region: u16,
        off: u64,
        bytes: &[u8],
    ) -> Result<(), Access>
        requires fit { FitTo self.now p.old }
        requires region { region < length self.now.table.regions }
        requires range { off + length bytes.now ≤ region_size self.now region }
        requires writable { region_writable self.now region ≡ true }
        ensures fit { FitTo self.now p.new }
        ensures stored { OnOk result (RangeStored self.now region off bytes.now p.old p.new) }
        ensures refused { IfErr result (StoreRefused self.now region off bytes.now p.old p.new) }
        ensures empty { length bytes.now ≡ 0 → p.new ≡ p.old }
    {
        went_laws();
        pieces_follow();
        accesses_by_piece();
        let mut done = 0usize;
        for piece in self.table.pieces(region, off, bytes.len() as u64) {
            let end = done + piece.len as usize;
            match self.store_piece(rt, p, piece.key, piece.place, &bytes[done..end]) {
                Ok(()) => {}
                Err(why) => return Err(why),
            }
            done = end;
        }
        Ok(())
    }
}
