//! Reading a `map` line: a region, and where its bytes are kept.
ghost use Rattle.std.specs.Prelude.{◌≡◌};
ghost use Rattle.workload_text.specs.Reading.{read_memory, read_file, read_sparse, read_map};
ghost use Rattle.workload_text.specs.InsideCuts.{fields_left};
ghost use Rattle.workload_text.specs.InsideState.{as_map, TakesBy, IsSound};

use crate::cut::{four, has_empty_field, next_field, three, two};
use crate::field::{is_name, is_path, mode, number};
use crate::limits::{MOST_MEMORY_BYTES, MOST_STORED_BYTES};
use crate::reading::{Reading, refused};
use crate::refusal::{LineFault, TextKind};
use crate::workload::{MapLine, StoreKind};
use page_base::{Bytes, MOST_REGIONS};

impl Reading {
    /// Adds a region, where there are fewer than the most.
    fn add_region(
        &mut self,
        name: &[u8],
        kind: StoreKind,
        length: u64,
        writable: bool,
    ) -> Result<(), LineFault>
        requires sound { IsSound self.old }
        requires above { self.old.current ≡ None }
        ensures { TakesBy self.old self.new (as_map name.now kind length writable) result }
    {
        if self.maps.len() >= MOST_REGIONS {
            return refused(TextKind::Many);
        }
        let name = Bytes::from_slice(self.alloc, name)?;
        self.map_lines.push(self.line)?;
        self.maps.push(MapLine {
            name,
            kind,
            length,
            writable,
        })?;
        Ok(())
    }

    #[tactic(auto, unfolding(crate::specs::Reading::read_memory))]
    fn memory(&mut self, name: &[u8], size: &[u8], access: &[u8]) -> Result<(), LineFault>
        requires { IsSound self.old }
        ensures { TakesBy self.old self.new (λ s. read_memory s name.now size.now access.now) result }
    {
        if self.current.is_some() {
            return refused(TextKind::Order);
        }
        if !is_name(name) {
            return refused(TextKind::Name);
        }
        let Some(length) = number(size, 1, MOST_MEMORY_BYTES) else {
            return refused(TextKind::Number);
        };
        let Some(writable) = mode(access) else {
            return refused(TextKind::Mode);
        };
        self.add_region(name, StoreKind::Memory, length, writable)
    }

    #[tactic(auto, unfolding(crate::specs::Reading::read_file))]
    fn file(
        &mut self,
        name: &[u8],
        path: &[u8],
        size: &[u8],
        access: &[u8],
    ) -> Result<(), LineFault>
        requires { IsSound self.old }
        ensures { TakesBy self.old self.new (λ s. read_file s name.now path.now size.now access.now) result }
    {
        if self.current.is_some() {
            return refused(TextKind::Order);
        }
        if !is_name(name) {
            return refused(TextKind::Name);
        }
        if !is_path(path) {
            return refused(TextKind::Path);
        }
        let Some(length) = number(size, 1, MOST_STORED_BYTES) else {
            return refused(TextKind::Number);
        };
        let Some(writable) = mode(access) else {
            return refused(TextKind::Mode);
        };
        let path = Bytes::from_slice(self.alloc, path)?;
        self.add_region(name, StoreKind::File { path }, length, writable)
    }

    #[tactic(auto, unfolding(crate::specs::Reading::read_sparse))]
    fn sparse(
        &mut self,
        name: &[u8],
        path: &[u8],
        size: &[u8],
        file: &[u8],
        access: &[u8],
    ) -> Result<(), LineFault>
        requires { IsSound self.old }
        ensures { TakesBy self.old self.new (λ s. read_sparse s name.now path.now size.now file.now access.now) result }
    {
        if self.current.is_some() {
            return refused(TextKind::Order);
        }
        if !is_name(name) {
            return refused(TextKind::Name);
        }
        if !is_path(path) {
            return refused(TextKind::Path);
        }
        let Some(length) = number(size, 1, MOST_STORED_BYTES) else {
            return refused(TextKind::Number);
        };
        let Some(file) = number(file, 1, MOST_STORED_BYTES) else {
            return refused(TextKind::Number);
        };
        let Some(writable) = mode(access) else {
            return refused(TextKind::Mode);
        };
        let path = Bytes::from_slice(self.alloc, path)?;
        self.add_region(name, StoreKind::Sparse { path, file }, length, writable)
    }

    /// Takes what stands behind `map`.
    #[tactic(auto, unfolding(crate::specs::Reading::read_map))]
    pub(crate) fn map(&mut self, left: Option<&[u8]>) -> Result<(), LineFault>
        requires { IsSound self.old }
        ensures { TakesBy self.old self.new (λ s. read_map s (fields_left left.entry)) result }
    {
        let Some((name, left)) = next_field(left) else {
            return refused(TextKind::Line);
        };
        let Some((store, left)) = next_field(left) else {
            return refused(TextKind::Line);
        };
        if name.is_empty() {
            return refused(TextKind::Line);
        }
        if store == b"memory".as_slice() {
            return match two(left) {
                Some((size, mode)) => self.memory(name, size, mode),
                None => refused(TextKind::Line),
            };
        }
        if store == b"file".as_slice() {
            return match three(left) {
                Some((path, size, mode)) => self.file(name, path, size, mode),
                None => refused(TextKind::Line),
            };
        }
        if store == b"sparse".as_slice() {
            return match four(left) {
                Some((path, size, file, mode)) => self.sparse(name, path, size, file, mode),
                None => refused(TextKind::Line),
            };
        }
        if store.is_empty() || has_empty_field(left) {
            return refused(TextKind::Line);
        }
        refused(TextKind::Kind)
    }
}
