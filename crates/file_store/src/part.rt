//! The trait of parts of files: one file's first bytes, or the pages of it that belong to one stripe.
//!
//! What a part tells is a list of pieces: of a striped part one for each page of its region, of a whole part all its bytes.
//! A part that tells nothing, as one of a real file, is bound by its count of faults and by what it is named.
ghost use Rattle.std.specs.Prelude.{◌≡◌, ◌<◌, ◌^◌, ℕ, true, false, length, OnOk, OnErr, IfSome};
ghost use Rattle.page_base.specs.Lanes.{told_at};
ghost use Rattle.store_trait.specs.Causes.{HasCause};
ghost use Rattle.file_store.specs.Parts.{PartSeen, IsPartRange, piece_size, TellsRange, HasWritten, OthersStay, IsZeroed, IsNamed};

use thiserror::Error;

/// A call of a part failed. It carries the part's count of faults after the call.
#[derive(Clone, Copy, Debug, PartialEq, Eq, Error)]
#[error("part fault {faults}")]
pub struct PartFault {
    pub faults: u64,
}

/// One file, or the pages of one file that belong to one stripe.
pub trait Part {
    /// What contracts see of the part.
    ghost seen: { Self → PartSeen };

    /// Whether there is a file to read and write.
    fn made(&self) -> bool
        ensures { result ≡ (seen self.now).made };

    /// Makes the file, full of zeros.
    fn make(&mut self) -> Result<(), PartFault>
        requires not_made { (seen self.old).made ≡ false }
        ensures ok { OnOk result ((seen self.new).made ≡ true) }
        ensures err { OnErr result ((seen self.new).made ≡ false) }
        ensures zeroed { OnOk result (IsZeroed (seen self.old).name.extent (seen self.old).told (seen self.new).told) }
        ensures kept { OnErr result ((seen self.new).told ≡ (seen self.old).told) }
        ensures name { (seen self.new).name ≡ (seen self.old).name }
        ensures cause { HasCause (λ e. e.faults) (seen self.old).count (seen self.new).count result };

    /// Reads the bytes from `place` on. After a fault `buf` holds any bytes.
    fn read_at(&mut self, buf: &mut [u8], place: u64) -> Result<(), PartFault>
        requires made { (seen self.old).made ≡ true }
        requires range { IsPartRange (seen self.old).name.extent place (length buf.old) }
        ensures bytes { OnOk result (TellsRange (seen self.old) place buf.new) }
        ensures same { (seen self.new).told ≡ (seen self.old).told }
        ensures made { (seen self.new).made ≡ true }
        ensures name { (seen self.new).name ≡ (seen self.old).name }
        ensures cause { HasCause (λ e. e.faults) (seen self.old).count (seen self.new).count result };

    /// Writes the bytes from `place` on. After a fault any bytes may stand there.
    fn write_at(&mut self, buf: &[u8], place: u64) -> Result<(), PartFault>
        requires made { (seen self.old).made ≡ true }
        requires range { IsPartRange (seen self.old).name.extent place (length buf.now) }
        ensures written { OnOk result (HasWritten (seen self.old) (seen self.new) place buf.now) }
        ensures others { OthersStay (seen self.old) (seen self.new) place (length buf.now) }
        ensures made { (seen self.new).made ≡ true }
        ensures name { (seen self.new).name ≡ (seen self.old).name }
        ensures cause { HasCause (λ e. e.faults) (seen self.old).count (seen self.new).count result };

    /// How many calls of this part have failed, standing at the type's last value.
    fn faults(&self) -> u64
        ensures { result ≡ (seen self.now).count };

    /// A striped part's lane lies in the file at the part's path.
    ghost named: { (s : Self) → IsNamed (seen s).name };

    /// A told piece is whole.
    ghost whole_pieces: { (s : Self) (p : ℕ) → IfSome (told_at (seen s).told p) (λ bytes. length bytes ≡ piece_size (seen s).name.extent) };

    /// A count of faults is a number of 64 bits.
    ghost small_count: { (s : Self) → (seen s).count < 2 ^ 64 };
}
