//! The trait of backing stores.
//!
//! Whatever implements it may fail at any call, and then says so by its count of faults. A caller that hands a fault on
//! relies on that count alone, so an implementation raises it before it answers `Err`.
ghost use Rattle.std.specs.Prelude.{◌≡◌, ◌<◌, ◌^◌, ℕ, length, IfSome, OnOk};
ghost use Rattle.page_base.specs.Lanes.{LaneSeen, told_at};
ghost use Rattle.store_trait.specs.Lanes.{IsPlace, GivesPageAt, TakesPageAt, ChangesOnlyAt, HasLaneCause};

use thiserror::Error;

/// A call of a store failed. It carries the lane's count of faults after the call.
#[derive(Clone, Copy, Debug, PartialEq, Eq, Error)]
#[error("store fault {faults}")]
pub struct StoreFault {
    pub faults: u64,
}

/// One stripe's pages of a region, kept somewhere outside the page buffer.
pub trait Store {
    /// What contracts see of the lane.
    ghost seen: { Self → LaneSeen };

    /// Reads the page that lies at byte `off` of the region, after UMap's `read_from_store`. After a fault `buf` holds any
    /// bytes.
    fn read_from_store(&mut self, buf: &mut [u8], off: u64) -> Result<(), StoreFault>
        requires place { IsPlace (seen self.old).origin (length buf.old) off }
        ensures bytes { OnOk result (GivesPageAt (seen self.old) off buf.new) }
        ensures same { (seen self.new).told ≡ (seen self.old).told }
        ensures origin { (seen self.new).origin ≡ (seen self.old).origin }
        ensures cause { HasLaneCause (seen self.old) (seen self.new) result };

    /// Writes the page that lies at byte `off` of the region, after UMap's `write_to_store`. After a fault that page may
    /// hold any bytes.
    fn write_to_store(&mut self, buf: &[u8], off: u64) -> Result<(), StoreFault>
        requires place { IsPlace (seen self.old).origin (length buf.now) off }
        ensures written { OnOk result (TakesPageAt (seen self.old) (seen self.new) off buf.now) }
        ensures others { ChangesOnlyAt (seen self.old) (seen self.new) off }
        ensures origin { (seen self.new).origin ≡ (seen self.old).origin }
        ensures cause { HasLaneCause (seen self.old) (seen self.new) result };

    /// How many calls of this lane have failed, standing at the type's last value.
    fn faults(&self) -> u64
        ensures { result ≡ (seen self.now).count };

    /// A told page has one page of bytes.
    ghost whole_pages: { (s : Self) (page : ℕ) → IfSome (told_at (seen s).told page) (λ bytes. length bytes ≡ (seen s).origin.page_size) };

    /// A count of faults is a number of 64 bits.
    ghost small_count: { (s : Self) → (seen s).count < 2 ^ 64 };
}
