//! The trait of folders of files.
//!
//! Where a folder tells its files, each call says by them what it answers, and leaves them and the parts that are out as they
//! were but for what it names. A folder that tells nothing, as one of a real disk, is bound by its count of faults alone.
ghost use Rattle.std.specs.Prelude.{◌≡◌, ◌≤◌, ◌<◌, false, [], ◌∷◌, length, None, OnOk, OnErr, IfOk, IfErr, IfSome};
ghost use Rattle.std.specs.List.{Contains};

use crate::part::Part;
use page_base::{Bytes, Layout, List, OutOfMemory};
use std::alloc::AllocError;
use thiserror::Error;

/// Why a call of a folder is refused. The lengths are in bytes.
#[derive(Clone, Copy, Debug, PartialEq, Eq, Error)]
pub enum FolderFault {
    #[error("missing")]
    Missing,
    #[error("too short {have} {need}")]
    TooShort { have: u64, need: u64 },
    /// The call failed. It carries the folder's count of faults after the call.
    #[error("folder fault {faults}")]
    Failed { faults: u64 },
    #[error("out of memory")]
    OutOfMemory,
}

impl From<AllocError> for FolderFault {
    ghost use Rattle.file_store.specs.declared.folder.FolderFault.TheVariants.{OutOfMemory};

    ghost from_gives = { λ _ fault. fault ≡ OutOfMemory };

    fn from(_: AllocError) -> FolderFault {
        FolderFault::OutOfMemory
    }
}

impl From<OutOfMemory> for FolderFault {
    ghost use Rattle.file_store.specs.declared.folder.FolderFault.TheVariants.{OutOfMemory};

    ghost from_gives = { λ _ fault. fault ≡ OutOfMemory };

    fn from(_: OutOfMemory) -> FolderFault {
        FolderFault::OutOfMemory
    }
}

/// How a file is shared out to the stripes of a layout: the pages of one region, in order from the file's first byte on.
#[derive(Clone, Copy, Debug, PartialEq, Eq)]
pub struct Cut {
    pub region: u16,
    pub pages: u32,
    pub layout: Layout,
    pub writable: bool,
}

/// Files by path, in bytes. A part is out from its opening until its `close_part`. Files may be longer than what is opened of
/// them; the further bytes are left alone.
pub trait Folder {
    type Part: Part + Drop;

    ghost use Rattle.page_base.specs.Lanes.{Rose};
    ghost use Rattle.file_store.specs.Parts.{WhereTold};
    ghost use Rattle.file_store.specs.Shelves.{FolderSeen, any_out, Closes};
    ghost use Rattle.file_store.specs.Folders.{HasFolderCause, IsFailed, RefusesHead, RefusesNew, RefusesWhole, OfFile};
    ghost use Rattle.file_store.specs.Folders.{TellsLength, TellsHead, TellsMissing, TellsShort, WritesNew, OnlyFile};
    ghost use Rattle.file_store.specs.Folders.{stripe_names, whole_name, need_of, OpensParts, AreMade, AreOut, IsOpenedWhole};

    /// What contracts see of the folder.
    ghost seen: { Self → FolderSeen };

    /// The length of a file, none where it is absent.
    fn length(&mut self, path: &Bytes) -> Result<Option<u64>, FolderFault>
        ensures value { OfFile (seen self.old) path.now.items (λ file. IfOk result (TellsLength file)) }
        ensures only { IfErr result IsFailed }
        ensures same { (seen self.new).told ≡ (seen self.old).told }
        ensures cause { HasFolderCause (seen self.old).count (seen self.new).count result };

    /// Reads the first bytes of a file, as many as fit or are there.
    fn read_head(&mut self, path: &Bytes, buf: &mut [u8]) -> Result<usize, FolderFault>
        ensures within { IfOk result (λ n. n ≤ length buf.new) }
        ensures only { IfErr result RefusesHead }
        ensures bytes { OfFile (seen self.old) path.now.items (λ file. TellsHead file buf.new result) }
        ensures same { (seen self.new).told ≡ (seen self.old).told }
        ensures cause { HasFolderCause (seen self.old).count (seen self.new).count result };

    /// Makes a file of these bytes, and the folder that it lies in where there is none.
    fn write_new(&mut self, path: &Bytes, bytes: &[u8]) -> Result<(), FolderFault>
        requires absent { OfFile (seen self.old) path.now.items (λ file. file ≡ None) }
        ensures written { OfFile (seen self.new) path.now.items (WritesNew bytes.now result) }
        ensures only { IfErr result RefusesNew }
        ensures others { WhereTold (OnlyFile path.now.items) (seen self.old).told (seen self.new).told }
        ensures cause { HasFolderCause (seen self.old).count (seen self.new).count result };

    /// Opens a file's first pages, one part for each stripe. After a refusal none of its parts is out.
    fn open_striped(&mut self, path: &Bytes, cut: &Cut) -> Result<List<Self::Part>, FolderFault>
        requires none_out { IfSome (seen self.old).told (λ s. any_out path.now.items s.out ≡ false) }
        ensures count { IfOk result (λ parts. length parts.items ≡ cut.now.layout.stripes) }
        ensures parts { OpensParts Self.Part.seen (seen self.old) path.now.items cut.now result }
        ensures made { IfOk result (λ parts. AreMade Self.Part.seen parts.items) }
        ensures out { OnOk result (AreOut (stripe_names path.now.items cut.now) (seen self.old) (seen self.new)) }
        ensures err { OnErr result ((seen self.new).told ≡ (seen self.old).told) }
        ensures missing { OfFile (seen self.old) path.now.items (λ file. TellsMissing file (need_of cut.now) result) }
        ensures cause { HasFolderCause (seen self.old).count (seen self.new).count result };

    /// Opens a file's first bytes as one part, which isn't made where the file is absent.
    fn open_whole(
        &mut self,
        path: &Bytes,
        length: u64,
        writable: bool,
    ) -> Result<Self::Part, FolderFault>
        requires none_out { IfSome (seen self.old).told (λ s. any_out path.now.items s.out ≡ false) }
        ensures part { IfOk result (λ p. IsOpenedWhole (seen self.old).told path.now.items length (Self.Part.seen p)) }
        ensures out { OnOk result (AreOut (whole_name path.now.items length ∷ []) (seen self.old) (seen self.new)) }
        ensures err { OnErr result ((seen self.new).told ≡ (seen self.old).told) }
        ensures only { IfErr result RefusesWhole }
        ensures short { OfFile (seen self.old) path.now.items (λ file. TellsShort file length result) }
        ensures cause { HasFolderCause (seen self.old).count (seen self.new).count result };

    /// Puts the part's bytes back into the file of its path. It takes no memory.
    fn close_part(&mut self, part: Self::Part)
        requires out { IfSome (seen self.old).told (λ s. Contains s.out (Self.Part.seen part).name) }
        ensures closed { WhereTold (Closes (Self.Part.seen part)) (seen self.old).told (seen self.new).told }
        ensures later { (seen self.old).count ≤ (seen self.new).count }
        ensures faults { 0 < (Self.Part.seen part).count → Rose (seen self.old).count (seen self.new).count };

    /// How many calls have failed, standing at the type's last value.
    fn faults(&self) -> u64
        ensures { result ≡ (seen self.now).count };
}
