//! A lane over a striped part of a file: a store of one stripe's pages of a region that lies in one file.
ghost use Rattle.std.specs.Prelude.{◌≡◌, true};
ghost use Rattle.file_store.specs.FileLanes.{is_striped, lane_of, part_of, IsInFile};

use crate::part::{Part, PartFault};
use store_trait::{Store, StoreFault};

/// One stripe's pages of a file.
#[derive(Drop)]
pub struct FileLane<P: Part> {
    part: P,
    ghost made: { (P.seen part).made ≡ true },
    ghost striped: { is_striped (P.seen part).name.extent ≡ true },
}

fn store_fault(fault: PartFault) -> StoreFault
    ensures { result.faults ≡ fault.faults }
{
    StoreFault {
        faults: fault.faults,
    }
}

impl<P: Part> FileLane<P> {
    /// The part has to be striped, and made, as all striped parts are.
    pub fn new(part: P) -> FileLane<P>
        requires made { (P.seen part).made ≡ true }
        requires striped { is_striped (P.seen part).name.extent ≡ true }
        ensures seen { ⟦<FileLane<P> as Store>⟧.seen result ≡ lane_of (P.seen part) }
    {
        FileLane { part }
    }

    /// The part, to be closed.
    pub fn into_part(self) -> P
        ensures part { P.seen result ≡ part_of (⟦<FileLane<P> as Store>⟧.seen self) }
        ensures in_file { IsInFile (⟦<FileLane<P> as Store>⟧.seen self) }
    {
        let FileLane { part } = self;
        part
    }
}

impl<P: Part> Store for FileLane<P> {
    ghost use Rattle.file_store.specs.FileLanes.{lane_pages_whole};

    ghost seen = { λ s. lane_of (P.seen s.part) };

    fn read_from_store(&mut self, buf: &mut [u8], off: u64) -> Result<(), StoreFault> {
        match self.part.read_at(buf, off) {
            Ok(()) => Ok(()),
            Err(fault) => Err(store_fault(fault)),
        }
    }

    fn write_to_store(&mut self, buf: &[u8], off: u64) -> Result<(), StoreFault> {
        match self.part.write_at(buf, off) {
            Ok(()) => Ok(()),
            Err(fault) => Err(store_fault(fault)),
        }
    }

    fn faults(&self) -> u64 {
        self.part.faults()
    }

    ghost whole_pages = { λ s page. lane_pages_whole (P.seen s.part) s.striped page (P.whole_pieces s.part page) };

    ghost small_count = { λ s. P.small_count s.part };
}
