//! Reading the lines of commands. A command goes to the script that has begun last.
ghost use Rattle.std.specs.Prelude.{◌≡◌, ◌<◌, ◌≤◌, length, map, IfSome, IsSome, OnOk, ◌+◌, ◌^◌, ◌++◌, [], ◌∷◌};
ghost use Rattle.page_base.specs.declared.limits.TheConstants.{MOST_REGIONS};
ghost use Rattle.workload_text.specs.Grammar.{region_from, size_at, writable_at};
ghost use Rattle.workload_text.specs.View.{region, command_line};
ghost use Rattle.workload_text.specs.Reading.{read_load, read_store, read_prefetch, read_flush, read_unmap};
ghost use Rattle.workload_text.specs.InsideState.{TakesBy, IsSound, said_by, lines_by};

use crate::field::{hex_bytes, is_name, number};
use crate::limits::{MOST_ACCESS_BYTES, MOST_COMMANDS, MOST_LOADED_BYTES, MOST_STORED_BYTES};
use crate::reading::{Reading, refused};
use crate::refusal::{LineFault, TextKind};
use crate::workload::{Command, MapLine};
use page_base::OutOfMemory;

fn region_of(maps: &[MapLine], name: &[u8]) -> Option<u16>
    requires { length maps.now ≤ MOST_REGIONS }
    ensures found { result ≡ region_from 0 (map region maps.now) name.now }
    ensures within { IfSome result (λ r. r < length maps.now) }
{
    for i in 0..maps.len() {
        if maps[i].name.as_slice() == name {
            return Some(i as u16);
        }
    }
    None
}

fn size_at(maps: &[MapLine], i: usize) -> u64
    requires { i < length maps.now }
    ensures { result ≡ size_at (map region maps.now) i }
{
    maps[i].length
}

fn writable_at(maps: &[MapLine], i: usize) -> bool
    requires { i < length maps.now }
    ensures { result ≡ writable_at (map region maps.now) i }
{
    maps[i].writable
}

impl Reading {
    /// Adds a command to the script that has begun; it loads so many bytes.
    fn add(&mut self, command: Command, loads: u32) -> Result<(), OutOfMemory>
        requires begun { IsSome self.old.current }
        requires few { self.old.commands < MOST_COMMANDS }
        requires room { self.old.loaded + loads < 2 ^ 32 }
        ensures lines { OnOk result (lines_by self.new ≡ lines_by self.old ++ command_line command ∷ []) }
        ensures regions { self.new.maps ≡ self.old.maps }
        ensures numbers { self.new.map_lines ≡ self.old.map_lines }
        ensures scripts { (said_by self.new).scripts ≡ (said_by self.old).scripts }
        ensures begun { IsSome self.new.current }
        ensures commands { OnOk result (self.new.commands ≡ self.old.commands + 1) }
        ensures loaded { OnOk result (self.new.loaded ≡ self.old.loaded + loads) }
    {
        match &mut self.current {
            None => unreachable!(),
            Some(script) => {
                script.commands.push(command)?;
                self.commands += 1;
                self.loaded += loads;
                Ok(())
            }
        }
    }

    #[tactic(auto, unfolding(crate::specs::Reading::read_load))]
    pub(crate) fn load(&mut self, name: &[u8], off: &[u8], len: &[u8]) -> Result<(), LineFault>
        requires { IsSound self.old }
        ensures { TakesBy self.old self.new (λ s. read_load s name.now off.now len.now) result }
    {
        if self.current.is_none() {
            return refused(TextKind::Order);
        }
        if !is_name(name) {
            return refused(TextKind::Name);
        }
        let Some(off) = number(off, 0, MOST_STORED_BYTES) else {
            return refused(TextKind::Number);
        };
        let Some(len) = number(len, 0, MOST_ACCESS_BYTES as u64) else {
            return refused(TextKind::Number);
        };
        let Some(region) = region_of(self.maps.as_slice(), name) else {
            return refused(TextKind::Unknown);
        };
        if off + len > size_at(self.maps.as_slice(), region as usize) {
            return refused(TextKind::Range);
        }
        if self.commands >= MOST_COMMANDS || u64::from(self.loaded) + len > MOST_LOADED_BYTES {
            return refused(TextKind::Many);
        }
        let len = len as u32;
        self.add(Command::Load { region, off, len }, len)?;
        Ok(())
    }

    #[tactic(auto, unfolding(crate::specs::Reading::read_store))]
    pub(crate) fn store(&mut self, name: &[u8], off: &[u8], hex: &[u8]) -> Result<(), LineFault>
        requires { IsSound self.old }
        ensures { TakesBy self.old self.new (λ s. read_store s name.now off.now hex.now) result }
    {
        if self.current.is_none() {
            return refused(TextKind::Order);
        }
        if !is_name(name) {
            return refused(TextKind::Name);
        }
        let Some(off) = number(off, 0, MOST_STORED_BYTES) else {
            return refused(TextKind::Number);
        };
        let Some(bytes) = hex_bytes(self.alloc, hex)? else {
            return refused(TextKind::Hex);
        };
        let Some(region) = region_of(self.maps.as_slice(), name) else {
            return refused(TextKind::Unknown);
        };
        if off + bytes.len() as u64 > size_at(self.maps.as_slice(), region as usize) {
            return refused(TextKind::Range);
        }
        if !writable_at(self.maps.as_slice(), region as usize) {
            return refused(TextKind::ReadOnly);
        }
        if self.commands >= MOST_COMMANDS {
            return refused(TextKind::Many);
        }
        self.add(Command::Store { region, off, bytes }, 0)?;
        Ok(())
    }

    #[tactic(auto, unfolding(crate::specs::Reading::read_prefetch))]
    pub(crate) fn prefetch(&mut self, name: &[u8], off: &[u8], len: &[u8]) -> Result<(), LineFault>
        requires { IsSound self.old }
        ensures { TakesBy self.old self.new (λ s. read_prefetch s name.now off.now len.now) result }
    {
        if self.current.is_none() {
            return refused(TextKind::Order);
        }
        if !is_name(name) {
            return refused(TextKind::Name);
        }
        let Some(off) = number(off, 0, MOST_STORED_BYTES) else {
            return refused(TextKind::Number);
        };
        let Some(len) = number(len, 0, MOST_STORED_BYTES) else {
            return refused(TextKind::Number);
        };
        let Some(region) = region_of(self.maps.as_slice(), name) else {
            return refused(TextKind::Unknown);
        };
        if off + len > size_at(self.maps.as_slice(), region as usize) {
            return refused(TextKind::Range);
        }
        if self.commands >= MOST_COMMANDS {
            return refused(TextKind::Many);
        }
        self.add(Command::Prefetch { region, off, len }, 0)?;
        Ok(())
    }

    #[tactic(auto, unfolding(crate::specs::Reading::read_flush))]
    pub(crate) fn flush(&mut self) -> Result<(), LineFault>
        requires { IsSound self.old }
        ensures { TakesBy self.old self.new (λ s. read_flush s) result }
    {
        if self.current.is_none() {
            return refused(TextKind::Order);
        }
        if self.commands >= MOST_COMMANDS {
            return refused(TextKind::Many);
        }
        self.add(Command::Flush, 0)?;
        Ok(())
    }

    #[tactic(auto, unfolding(crate::specs::Reading::read_unmap))]
    pub(crate) fn unmap(&mut self, name: &[u8]) -> Result<(), LineFault>
        requires { IsSound self.old }
        ensures { TakesBy self.old self.new (λ s. read_unmap s name.now) result }
    {
        if self.current.is_none() {
            return refused(TextKind::Order);
        }
        if !is_name(name) {
            return refused(TextKind::Name);
        }
        let Some(region) = region_of(self.maps.as_slice(), name) else {
            return refused(TextKind::Unknown);
        };
        if self.commands >= MOST_COMMANDS {
            return refused(TextKind::Many);
        }
        self.add(Command::Unmap { region }, 0)?;
        Ok(())
    }
}
