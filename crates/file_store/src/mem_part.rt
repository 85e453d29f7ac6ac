//! A part of a file in memory: a copy of the file's bytes as far as the part reaches, which is put back when it is closed.
ghost use Rattle.std.specs.Prelude.{◌≡◌, ◌≤◌, ◌<◌, ◌+◌, ◌^◌, true, false, length, map, replicate, OnOk, OnErr};
ghost use Rattle.std.specs.List.{list_any};
ghost use Rattle.file_store.specs.Parts.{reach};
ghost use Rattle.file_store.specs.Shelves.{part_number};
ghost use Rattle.file_store.specs.InsideMemParts.{extent_of};
ghost use Rattle.file_store.specs.FailingLists.{is_next_in, counted_in};

use crate::files::{FailingPart, PartCall};
use crate::folder::Cut;
use crate::part::{Part, PartFault};
use page_base::{Bytes, List, OutOfMemory};
use std::alloc::Global;

/// What of its file a part is.
#[derive(Clone, Copy, Debug)]
pub enum Shape {
    Striped { cut: Cut, stripe: u32 },
    Whole { size: u64 },
}

impl Shape {
    /// The number of the part among those of its path.
    pub fn number(self) -> u32
        ensures { (path : _) → result ≡ part_number (extent_of path self) }
    {
        match self {
            Shape::Striped { stripe, .. } => stripe,
            Shape::Whole { .. } => 0,
        }
    }
}

/// The call of this kind that fails once so many were made, this one among them.
#[derive(Clone, Copy, Debug)]
pub(crate) struct Failing {
    pub(crate) call: PartCall,
    pub(crate) left: u64,
}

/// A part that keeps a copy of its file's bytes as far as it reaches. Its calls fail at stated numbers.
#[derive(Drop)]
pub struct MemPart {
    pub(crate) path: Bytes,
    pub(crate) shape: Shape,
    pub(crate) bytes: Bytes,
    pub(crate) made: bool,
    failing: Vec<Failing>,
    faults: u64,
    ghost counted: { faults < 2 ^ 64 },
    ghost sized: { length bytes.items ≡ reach (extent_of path.items shape) },
    ghost zeros: { made ≡ false → bytes.items ≡ replicate (reach (extent_of path.items shape)) 0 },
}

impl Failing {
    // Whether the next call of this kind fails.
    fn is_next(&self, call: PartCall) -> bool
        ensures { result ≡ is_next_in call self.now }
    {
        self.call == call && self.left == 1
    }

    // Counts a call of this kind.
    fn count(&mut self, call: PartCall)
        ensures { self.new ≡ counted_in call self.old }
    {
        if self.call == call {
            self.left = self.left.saturating_sub(1);
        }
    }
}

/// Counts a call of this kind, and says whether it fails.
fn strikes(failing: &mut [Failing], call: PartCall) -> bool
    ensures struck { result ≡ list_any (is_next_in call) failing.old }
    ensures counted { failing.new ≡ map (counted_in call) failing.old }
{
    let struck = failing.iter().any(|x| x.is_next(call));
    for each in failing.iter_mut() {
        each.count(call);
    }
    struck
}

impl MemPart {
    ghost use Rattle.page_base.specs.Lanes.{Rose};
    ghost use Rattle.file_store.specs.InsideMemSeen.{mem_seen, fresh_seen};
    ghost use Rattle.file_store.specs.FailingCalls.{failing_in};

    pub(crate) fn new(
        path: Bytes,
        shape: Shape,
        bytes: Bytes,
        made: bool,
        failing: Vec<Failing>,
    ) -> MemPart
        requires sized { length bytes.items ≡ reach (extent_of path.items shape) }
        requires zeros { made ≡ false → bytes.items ≡ replicate (reach (extent_of path.items shape)) 0 }
        ensures seen { mem_seen result ≡ fresh_seen path.items shape bytes.items made }
        ensures lists { failing_in result ≡ failing.items }
    {
        MemPart {
            path,
            shape,
            bytes,
            made,
            failing,
            faults: 0,
        }
    }

    /// Counts a failed call.
    fn fail(&mut self) -> PartFault
        ensures same { self.new ≡ record self.old { faults = self.new.faults; counted = self.new.counted } }
        ensures later { self.old.faults ≤ self.new.faults }
        ensures rose { Rose self.old.faults self.new.faults }
        ensures carried { result.faults ≡ self.new.faults }
    {
        self.faults = self.faults.saturating_add(1);
        PartFault {
            faults: self.faults,
        }
    }
}

impl Part for MemPart {
    ghost use Rattle.file_store.specs.InsideMemParts.{extent_of, mem_named, mem_pieces_whole};
    ghost use Rattle.file_store.specs.InsideMemSeen.{mem_seen};
    ghost use Rattle.store_trait.specs.Causes.{HasCause};
    ghost use Rattle.file_store.specs.Parts.{IsPartRange, TellsRange, HasWritten, OthersStay, IsZeroed};
    ghost use Rattle.file_store.specs.FailingCalls.{CountsIn};
    ghost use Rattle.file_store.specs.declared.files.PartCall.TheVariants.{Make, Read, Write};

    ghost seen = { mem_seen };

    fn made(&self) -> bool {
        self.made
    }

    fn make(&mut self) -> Result<(), PartFault>
        requires not_made { (⟦<MemPart as Part>⟧.seen self.old).made ≡ false }
        ensures ok { OnOk result ((⟦<MemPart as Part>⟧.seen self.new).made ≡ true) }
        ensures err { OnErr result ((⟦<MemPart as Part>⟧.seen self.new).made ≡ false) }
        ensures zeroed { OnOk result (IsZeroed (⟦<MemPart as Part>⟧.seen self.old).name.extent
            (⟦<MemPart as Part>⟧.seen self.old).told (⟦<MemPart as Part>⟧.seen self.new).told) }
        ensures kept { OnErr result ((⟦<MemPart as Part>⟧.seen self.new).told ≡
            (⟦<MemPart as Part>⟧.seen self.old).told) }
        ensures name { (⟦<MemPart as Part>⟧.seen self.new).name ≡ (⟦<MemPart as Part>⟧.seen self.old).name }
        ensures cause { HasCause (λ e. e.faults) (⟦<MemPart as Part>⟧.seen self.old).count
            (⟦<MemPart as Part>⟧.seen self.new).count result }
        ensures counts { CountsIn Make self.old self.new result }
    {
        if strikes(self.failing.as_mut_slice(), PartCall::Make) {
            return Err(self.fail());
        }
        self.made = true;
        Ok(())
    }

    fn read_at(&mut self, buf: &mut [u8], place: u64) -> Result<(), PartFault>
        requires made { (⟦<MemPart as Part>⟧.seen self.old).made ≡ true }
        requires range { IsPartRange (⟦<MemPart as Part>⟧.seen self.old).name.extent place (length buf.old) }
        ensures bytes { OnOk result (TellsRange (⟦<MemPart as Part>⟧.seen self.old) place buf.new) }
        ensures same { (⟦<MemPart as Part>⟧.seen self.new).told ≡ (⟦<MemPart as Part>⟧.seen self.old).told }
        ensures made { (⟦<MemPart as Part>⟧.seen self.new).made ≡ true }
        ensures name { (⟦<MemPart as Part>⟧.seen self.new).name ≡ (⟦<MemPart as Part>⟧.seen self.old).name }
        ensures cause { HasCause (λ e. e.faults) (⟦<MemPart as Part>⟧.seen self.old).count
            (⟦<MemPart as Part>⟧.seen self.new).count result }
        ensures counts { CountsIn Read self.old self.new result }
    {
        if strikes(self.failing.as_mut_slice(), PartCall::Read) {
            return Err(self.fail());
        }
        let start = place as usize;
        buf.copy_from_slice(&self.bytes.as_slice()[start..start + buf.len()]);
        Ok(())
    }

    fn write_at(&mut self, buf: &[u8], place: u64) -> Result<(), PartFault>
        requires made { (⟦<MemPart as Part>⟧.seen self.old).made ≡ true }
        requires range { IsPartRange (⟦<MemPart as Part>⟧.seen self.old).name.extent place (length buf.now) }
        ensures written { OnOk result (HasWritten (⟦<MemPart as Part>⟧.seen self.old)
            (⟦<MemPart as Part>⟧.seen self.new) place buf.now) }
        ensures others { OthersStay (⟦<MemPart as Part>⟧.seen self.old)
            (⟦<MemPart as Part>⟧.seen self.new) place (length buf.now) }
        ensures made { (⟦<MemPart as Part>⟧.seen self.new).made ≡ true }
        ensures name { (⟦<MemPart as Part>⟧.seen self.new).name ≡ (⟦<MemPart as Part>⟧.seen self.old).name }
        ensures cause { HasCause (λ e. e.faults) (⟦<MemPart as Part>⟧.seen self.old).count
            (⟦<MemPart as Part>⟧.seen self.new).count result }
        ensures counts { CountsIn Write self.old self.new result }
    {
        if strikes(self.failing.as_mut_slice(), PartCall::Write) {
            return Err(self.fail());
        }
        self.bytes.write_at(place as usize, buf);
        Ok(())
    }

    fn faults(&self) -> u64 {
        self.faults
    }

    ghost named = { λ s. mem_named s.path.items s.shape };

    ghost whole_pieces = { λ s p. mem_pieces_whole (extent_of s.path.items s.shape) s.bytes.items s.sized p };

    ghost small_count = { λ s. s.counted };
}
