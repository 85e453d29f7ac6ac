//! One file of a store, through its part: a file that isn't there is read as zeros, with no call, and is made when it is first
//! written to.
ghost use Rattle.std.specs.Prelude.{◌≡◌, true, length, OnOk, OnErr};
ghost use Rattle.file_store.specs.Parts.{DiffersWithin, WhereTold};
ghost use Rattle.store_trait.specs.Causes.{HasCause};
ghost use Rattle.sparse_store.specs.SparseFiles.{file_bytes};
ghost use Rattle.sparse_store.specs.InsideFiles.{IsFileRange, GivesFileRange, TakesFileRange};

use file_store::{Part, PartFault};

/// Makes the file where it isn't there.
fn make<P: Part>(part: &mut P) -> Result<(), PartFault>
    ensures made { OnOk result ((P.seen part.new).made ≡ true) }
    ensures same { file_bytes (P.seen part.new) ≡ file_bytes (P.seen part.old) }
    ensures name { (P.seen part.new).name ≡ (P.seen part.old).name }
    ensures cause { HasCause (λ e. e.faults) (P.seen part.old).count (P.seen part.new).count result }
{
    if part.made() {
        return Ok(());
    }
    part.make()
}

/// Reads the bytes from `start` on. After a fault `buf` holds any bytes.
pub(crate) fn read<P: Part>(part: &mut P, buf: &mut [u8], start: u64) -> Result<(), PartFault>
    requires range { IsFileRange (P.seen part.old) start (length buf.old) }
    ensures bytes { OnOk result (GivesFileRange (P.seen part.old) start buf.new) }
    ensures same { file_bytes (P.seen part.new) ≡ file_bytes (P.seen part.old) }
    ensures name { (P.seen part.new).name ≡ (P.seen part.old).name }
    ensures cause { HasCause (λ e. e.faults) (P.seen part.old).count (P.seen part.new).count result }
{
    if !part.made() {
        buf.fill(0);
        return Ok(());
    }
    part.read_at(buf, start)
}

/// Writes the bytes from `start` on, to a file that is made where it isn't there. After a fault any bytes may stand there.
pub(crate) fn write<P: Part>(part: &mut P, buf: &[u8], start: u64) -> Result<(), PartFault>
    requires range { IsFileRange (P.seen part.old) start (length buf.now) }
    ensures written { OnOk result (TakesFileRange (P.seen part.old) (P.seen part.new) start buf.now) }
    ensures others { WhereTold (DiffersWithin start (length buf.now))
        (file_bytes (P.seen part.old)) (file_bytes (P.seen part.new)) }
    ensures name { (P.seen part.new).name ≡ (P.seen part.old).name }
    ensures cause { HasCause (λ e. e.faults) (P.seen part.old).count (P.seen part.new).count result }
{
    match make(part) {
        Ok(()) => part.write_at(buf, start),
        Err(fault) => Err(fault),
    }
}
