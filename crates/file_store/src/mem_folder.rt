//! A folder in memory. It serves tests: its calls and those of its parts fail at stated numbers.
//!
//! Two invariants spare the closing of a part all memory and all refusals: each striped part that is out still finds its file
//! long enough (`fit`), and there is room for a new file for each part that is out (`room`).
ghost use Rattle.std.specs.Prelude.{◌≡◌, ◌<◌, ◌≤◌, ◌+◌, false, [], ◌∷◌, length, map, None, Some, vec_capacity, OnOk, OnErr, IfOk, IfErr, IfSome};
ghost use Rattle.std.specs.List.{list_any, Contains};
ghost use Rattle.file_store.specs.MemFiles.{files_in, made_of, told_files};
ghost use Rattle.file_store.specs.InsideMemFolders.{out_in, AreLongEnough};
ghost use Rattle.file_store.specs.FailingLists.{is_next, counted};

use crate::files::{FailingFolder, FailingPart, FolderCall, MemFile, OutPart};
use crate::folder::{Cut, Folder, FolderFault};
use crate::mem_part::{MemPart, Shape};
use crate::part::Part;
use crate::shelf::{bytes_of, put_back, put_outs, stripe_outs, stripe_parts, take_out, whole_part};
use page_base::{Bytes, List};
use std::alloc::Global;

/// Files in memory, by path. Its calls and those of its parts fail at stated numbers.
#[derive(Drop)]
pub struct MemFolder {
    alloc: Global,
    files: Vec<MemFile>,
    out: Vec<OutPart>,
    failing: Vec<FailingFolder>,
    failing_parts: Vec<FailingPart>,
    faults: u64,
    ghost fit: { AreLongEnough (files_in files.items) (out_in out.items) },
    ghost room: { length files.items + length out.items ≤ vec_capacity files },
}

/// Counts a call of this kind for this path, and says whether it fails.
fn strikes(failing: &mut [FailingFolder], call: FolderCall, path: &[u8]) -> bool
    ensures struck { result ≡ list_any (is_next call path.now) failing.old }
    ensures counted { failing.new ≡ map (counted call path.now) failing.old }
{
    let struck = failing.iter().any(|x| x.is_next(call, path));
    for each in failing.iter_mut() {
        each.count(call, path);
    }
    struck
}

impl MemFolder {
    ghost use Rattle.file_store.specs.declared.folder.FolderFault.TheVariants.{Failed};
    ghost use Rattle.file_store.specs.Folders.{HasReason};
    ghost use Rattle.file_store.specs.FailingCalls.{failing_calls, failing_part_calls};

    /// Of files with a path of their own each, of which the first at a path counts.
    pub fn new(
        alloc: Global,
        files: List<MemFile>,
        failing: List<FailingFolder>,
        failing_parts: List<FailingPart>,
    ) -> MemFolder
        ensures seen { ⟦<MemFolder as Folder>⟧.seen result ≡ made_of (files_in files.items) }
        ensures calls { failing_calls result ≡ failing.items }
        ensures part_calls { failing_part_calls result ≡ failing_parts.items }
    {
        MemFolder {
            alloc,
            files: files.into_vec(),
            out: Vec::new(alloc),
            failing: failing.into_vec(),
            failing_parts: failing_parts.into_vec(),
            faults: 0,
        }
    }

    /// The files, to be looked at.
    pub fn into_files(self) -> List<MemFile>
        ensures files { told_files (⟦<MemFolder as Folder>⟧.seen self) ≡ Some (files_in result.items) }
    {
        let MemFolder { files, .. } = self;
        List::from_vec(files)
    }

    /// Counts a failed call.
    fn fail(&mut self) -> FolderFault
        ensures same { self.new ≡ record self.old { faults = self.new.faults } }
        ensures later { self.old.faults ≤ self.new.faults }
        ensures reason { HasReason self.old.faults self.new.faults result }
        ensures is { result ≡ Failed self.new.faults }
    {
        self.faults = self.faults.saturating_add(1);
        FolderFault::Failed {
            faults: self.faults,
        }
    }
}

impl Folder for MemFolder {
    type Part = MemPart;

    ghost use Rattle.file_store.specs.InsideFolderSeen.{mem_folder_seen};
    ghost use Rattle.page_base.specs.Lanes.{Rose};
    ghost use Rattle.file_store.specs.Parts.{WhereTold};
    ghost use Rattle.file_store.specs.Shelves.{any_out, Closes};
    ghost use Rattle.file_store.specs.Folders.{HasFolderCause, IsFailed, RefusesHead, RefusesNew, RefusesWhole, OfFile};
    ghost use Rattle.file_store.specs.Folders.{TellsLength, TellsHead, TellsMissing, TellsShort, WritesNew, OnlyFile};
    ghost use Rattle.file_store.specs.Folders.{stripe_names, whole_name, need_of, OpensParts, AreMade, AreOut, IsOpenedWhole};
    ghost use Rattle.file_store.specs.FailingLists.{is_listed, listed_for};
    ghost use Rattle.file_store.specs.FailingCalls.{failing_calls, failing_part_calls, failing_in};
    ghost use Rattle.file_store.specs.FailingCalls.{CountsCall, FailsAsListed, AreListedFor};
    ghost use Rattle.file_store.specs.declared.files.FolderCall.TheVariants.{Length, ReadHead, WriteNew, OpenStriped, OpenWhole};

    ghost seen = { mem_folder_seen };

    fn length(&mut self, path: &Bytes) -> Result<Option<u64>, FolderFault>
        ensures value { OfFile (⟦<MemFolder as Folder>⟧.seen self.old) path.now.items
            (λ file. IfOk result (TellsLength file)) }
        ensures only { IfErr result IsFailed }
        ensures same { (⟦<MemFolder as Folder>⟧.seen self.new).told ≡ (⟦<MemFolder as Folder>⟧.seen self.old).told }
        ensures cause { HasFolderCause (⟦<MemFolder as Folder>⟧.seen self.old).count
            (⟦<MemFolder as Folder>⟧.seen self.new).count result }
        ensures counts { CountsCall Length path.now.items self.old self.new }
        ensures listed { FailsAsListed (is_listed Length path.now.items (failing_calls self.old)) result }
    {
        if strikes(
            self.failing.as_mut_slice(),
            FolderCall::Length,
            path.as_slice(),
        ) {
            return Err(self.fail());
        }
        match bytes_of(self.files.as_slice(), path.as_slice()) {
            Some(bytes) => Ok(Some(bytes.len() as u64)),
            None => Ok(None),
        }
    }

    fn read_head(&mut self, path: &Bytes, buf: &mut [u8]) -> Result<usize, FolderFault>
        ensures within { IfOk result (λ n. n ≤ length buf.new) }
        ensures only { IfErr result RefusesHead }
        ensures bytes { OfFile (⟦<MemFolder as Folder>⟧.seen self.old) path.now.items
            (λ file. TellsHead file buf.new result) }
        ensures same { (⟦<MemFolder as Folder>⟧.seen self.new).told ≡ (⟦<MemFolder as Folder>⟧.seen self.old).told }
        ensures cause { HasFolderCause (⟦<MemFolder as Folder>⟧.seen self.old).count
            (⟦<MemFolder as Folder>⟧.seen self.new).count result }
        ensures counts { CountsCall ReadHead path.now.items self.old self.new }
        ensures listed { FailsAsListed (is_listed ReadHead path.now.items (failing_calls self.old)) result }
    {
        let struck = strikes(
            self.failing.as_mut_slice(),
            FolderCall::ReadHead,
            path.as_slice(),
        );
        let Some(bytes) = bytes_of(self.files.as_slice(), path.as_slice()) else {
            return Err(FolderFault::Missing);
        };
        if struck {
            return Err(self.fail());
        }
        let count = buf.len().min(bytes.len());
        buf[..count].copy_from_slice(&bytes[..count]);
        Ok(count)
    }

    fn write_new(&mut self, path: &Bytes, bytes: &[u8]) -> Result<(), FolderFault>
        requires absent { OfFile (⟦<MemFolder as Folder>⟧.seen self.old) path.now.items (λ file. file ≡ None) }
        ensures written { OfFile (⟦<MemFolder as Folder>⟧.seen self.new) path.now.items (WritesNew bytes.now result) }
        ensures only { IfErr result RefusesNew }
        ensures others { WhereTold (OnlyFile path.now.items) (⟦<MemFolder as Folder>⟧.seen self.old).told
            (⟦<MemFolder as Folder>⟧.seen self.new).told }
        ensures cause { HasFolderCause (⟦<MemFolder as Folder>⟧.seen self.old).count
            (⟦<MemFolder as Folder>⟧.seen self.new).count result }
        ensures counts { CountsCall WriteNew path.now.items self.old self.new }
        ensures listed { FailsAsListed (is_listed WriteNew path.now.items (failing_calls self.old)) result }
    {
        if strikes(
            self.failing.as_mut_slice(),
            FolderCall::WriteNew,
            path.as_slice(),
        ) {
            return Err(self.fail());
        }
        let Ok(own_path) = Bytes::from_slice(self.alloc, path.as_slice()) else {
            return Err(FolderFault::OutOfMemory);
        };
        let Ok(own) = Bytes::from_slice(self.alloc, bytes) else {
            return Err(FolderFault::OutOfMemory);
        };
        if self.files.reserve_exact(self.out.len() + 1).is_err() {
            return Err(FolderFault::OutOfMemory);
        }
        let file = MemFile {
            path: own_path,
            bytes: own,
        };
        self.files.push_reserved(file);
        Ok(())
    }

    fn open_striped(&mut self, path: &Bytes, cut: &Cut) -> Result<List<MemPart>, FolderFault>
        requires none_out { IfSome (⟦<MemFolder as Folder>⟧.seen self.old).told
            (λ s. any_out path.now.items s.out ≡ false) }
        ensures count { IfOk result (λ parts. length parts.items ≡ cut.now.layout.stripes) }
        ensures parts { OpensParts ⟦<MemPart as Part>⟧.seen
            (⟦<MemFolder as Folder>⟧.seen self.old) path.now.items cut.now result }
        ensures made { IfOk result (λ parts. AreMade ⟦<MemPart as Part>⟧.seen parts.items) }
        ensures out { OnOk result (AreOut (stripe_names path.now.items cut.now) (⟦<MemFolder as Folder>⟧.seen self.old)
            (⟦<MemFolder as Folder>⟧.seen self.new)) }
        ensures err { OnErr result ((⟦<MemFolder as Folder>⟧.seen self.new).told ≡
            (⟦<MemFolder as Folder>⟧.seen self.old).told) }
        ensures missing { OfFile
            (⟦<MemFolder as Folder>⟧.seen self.old) path.now.items (λ file. TellsMissing file (need_of cut.now) result) }
        ensures cause { HasFolderCause (⟦<MemFolder as Folder>⟧.seen self.old).count
            (⟦<MemFolder as Folder>⟧.seen self.new).count result }
        ensures counts { CountsCall OpenStriped path.now.items self.old self.new }
        ensures listed { FailsAsListed (is_listed OpenStriped path.now.items (failing_calls self.old)) result }
        ensures lists { IfOk result (λ parts. AreListedFor path.now.items (failing_part_calls self.old) parts.items) }
    {
        let struck = strikes(
            self.failing.as_mut_slice(),
            FolderCall::OpenStriped,
            path.as_slice(),
        );
        let need = u64::from(cut.pages) * u64::from(cut.layout.page_size());
        let Some(bytes) = bytes_of(self.files.as_slice(), path.as_slice()) else {
            return Err(FolderFault::Missing);
        };
        let have = bytes.len() as u64;
        if have < need {
            return Err(FolderFault::TooShort { have, need });
        }
        if struck {
            return Err(self.fail());
        }
        let front = &bytes[..need as usize];
        let failing = self.failing_parts.as_slice();
        let Ok(parts) = stripe_parts(self.alloc, path.as_slice(), cut, front, failing) else {
            return Err(FolderFault::OutOfMemory);
        };
        let Ok(outs) = stripe_outs(self.alloc, path.as_slice(), cut) else {
            return Err(FolderFault::OutOfMemory);
        };
        if self.out.reserve_exact(outs.len()).is_err() {
            return Err(FolderFault::OutOfMemory);
        }
        if self
            .files
            .reserve_exact(self.out.len() + outs.len())
            .is_err()
        {
            return Err(FolderFault::OutOfMemory);
        }
        put_outs(&mut self.out, outs);
        Ok(parts)
    }

    fn open_whole(
        &mut self,
        path: &Bytes,
        length: u64,
        writable: bool,
    ) -> Result<MemPart, FolderFault>
        requires none_out { IfSome (⟦<MemFolder as Folder>⟧.seen self.old).told
            (λ s. any_out path.now.items s.out ≡ false) }
        ensures part { IfOk result (λ p. IsOpenedWhole
            (⟦<MemFolder as Folder>⟧.seen self.old).told path.now.items length
            (⟦<MemPart as Part>⟧.seen p)) }
        ensures out { OnOk result (AreOut (whole_name path.now.items length ∷ [])
            (⟦<MemFolder as Folder>⟧.seen self.old)
            (⟦<MemFolder as Folder>⟧.seen self.new)) }
        ensures err { OnErr result ((⟦<MemFolder as Folder>⟧.seen self.new).told ≡
            (⟦<MemFolder as Folder>⟧.seen self.old).told) }
        ensures only { IfErr result RefusesWhole }
        ensures short { OfFile (⟦<MemFolder as Folder>⟧.seen self.old) path.now.items
            (λ file. TellsShort file length result) }
        ensures cause { HasFolderCause (⟦<MemFolder as Folder>⟧.seen self.old).count
            (⟦<MemFolder as Folder>⟧.seen self.new).count result }
        ensures counts { CountsCall OpenWhole path.now.items self.old self.new }
        ensures listed { FailsAsListed (is_listed OpenWhole path.now.items (failing_calls self.old)) result }
        ensures lists { IfOk result (λ p. failing_in p ≡ listed_for path.now.items (failing_part_calls self.old)) }
    {
        let _read_only = !writable;
        let struck = strikes(
            self.failing.as_mut_slice(),
            FolderCall::OpenWhole,
            path.as_slice(),
        );
        let there = bytes_of(self.files.as_slice(), path.as_slice());
        if let Some(bytes) = there {
            let have = bytes.len() as u64;
            if have < length {
                return Err(FolderFault::TooShort { have, need: length });
            }
        }
        if struck {
            return Err(self.fail());
        }
        let failing = self.failing_parts.as_slice();
        let Ok(part) = whole_part(
            self.alloc,
            path.as_slice(),
            length,
            self.files.as_slice(),
            failing,
        ) else {
            return Err(FolderFault::OutOfMemory);
        };
        let Ok(own_path) = Bytes::from_slice(self.alloc, path.as_slice()) else {
            return Err(FolderFault::OutOfMemory);
        };
        if self.out.reserve_exact(1).is_err() {
            return Err(FolderFault::OutOfMemory);
        }
        if self.files.reserve_exact(self.out.len() + 1).is_err() {
            return Err(FolderFault::OutOfMemory);
        }
        self.out.push_reserved(OutPart {
            path: own_path,
            shape: Shape::Whole { size: length },
        });
        Ok(part)
    }

    fn close_part(&mut self, part: MemPart)
        requires out { IfSome (⟦<MemFolder as Folder>⟧.seen self.old).told (λ s. Contains s.out
            (⟦<MemPart as Part>⟧.seen part).name) }
        ensures closed { WhereTold (Closes (⟦<MemPart as Part>⟧.seen part)) (⟦<MemFolder as Folder>⟧.seen self.old).told
            (⟦<MemFolder as Folder>⟧.seen self.new).told }
        ensures later { (⟦<MemFolder as Folder>⟧.seen self.old).count ≤ (⟦<MemFolder as Folder>⟧.seen self.new).count }
        ensures faults { 0 < (⟦<MemPart as Part>⟧.seen part).count → Rose (⟦<MemFolder as Folder>⟧.seen self.old).count
            (⟦<MemFolder as Folder>⟧.seen self.new).count }
        ensures calls { failing_calls self.new ≡ failing_calls self.old }
        ensures part_calls { failing_part_calls self.new ≡ failing_part_calls self.old }
    {
        if part.faults() > 0 {
            self.faults = self.faults.saturating_add(1);
        }
        take_out(&mut self.out, part.path.as_slice(), part.shape);
        put_back(&mut self.files, part);
    }

    fn faults(&self) -> u64 {
        self.faults
    }
}
