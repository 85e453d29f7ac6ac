//! One region of the table, and the rules that it is tested by.
ghost use Rattle.std.specs.Prelude.{◌≡◌, ◌<◌, ◌≤◌, ◌/◌, true, IfOk, IfSome, ◌++◌, length, nat_eq, codes};
ghost use Rattle.std.specs.List.{list_any, position, starts_with};
ghost use Rattle.std.specs.Option.{option_copied};
ghost use Rattle.std.specs.Str.{bytes_eq};
ghost use Rattle.page_base.specs.declared.limits.TheConstants.{MOST_PAGES};
ghost use Rattle.region_table.specs.Regions.{named_by, backing_of, group_of, shape_of};
ghost use Rattle.region_table.specs.Rules.{path_of, leads_into, shares_store, is_whole, has_good_length};

use crate::spec::{Kind, RegionSpec};
use page_base::{Bytes, OutOfMemory, RegionShape};
use std::alloc::Global;
use std::marker::Model;

/// The most files that a region in files may have.
pub const MOST_FILES: u64 = 4096;

/// A region that was added. Contracts see what was asked for, whatever room its bytes have.
#[derive(Debug, Drop)]
pub(crate) struct Region {
    spec: RegionSpec,
}

impl Model for Region {
    ghost use Rattle.page_base.specs.declared.limits.TheConstants.{MOST_PAGES};
    ghost use Rattle.region_table.specs.Regions.{NamedRegion, named_by};

    ghost Value = { NamedRegion };

    ghost view = { λ r. named_by r.spec };
}

impl Region {
    /// The region that is asked for, with bytes of its own.
    pub(crate) fn from_spec(alloc: Global, spec: &RegionSpec) -> Result<Region, OutOfMemory>
        ensures { IfOk result (λ r. r ≡ named_by spec.now) }
    {
        Ok(Region {
            spec: RegionSpec {
                name: Bytes::from_slice(alloc, spec.name.as_slice())?,
                kind: copy_of(alloc, &spec.kind)?,
                length: spec.length,
                writable: spec.writable,
            },
        })
    }

    pub(crate) fn has_name(&self, name: &[u8]) -> bool
        ensures { result ≡ bytes_eq self.now.name name.now }
    {
        self.spec.name.as_slice() == name
    }

    #[tactic(auto, unfolding(crate::specs::Rules::shares_store))]
    pub(crate) fn shares_store(&self, kind: &Kind) -> bool
        ensures { result ≡ shares_store self.now.backing (backing_of kind.now) }
    {
        match (path(&self.spec.kind), path(kind)) {
            (Some(own), Some(other)) => {
                own == other || leads_into(&self.spec.kind, other) || leads_into(kind, own)
            }
            _ => false,
        }
    }

    /// The length in bytes.
    pub(crate) fn length(&self) -> u64
        ensures { result ≡ self.now.size }
    {
        self.spec.length
    }

    #[tactic(auto, unfolding(crate::specs::Rules::has_good_length))]
    pub(crate) fn shape(&self, page_size: u32) -> RegionShape
        requires good { has_good_length page_size self.now ≡ true }
        requires sized { 1 ≤ page_size }
        requires few { self.now.size / page_size ≤ MOST_PAGES }
        ensures shape { result ≡ shape_of page_size self.now }
        ensures group { 1 ≤ result.group }
        ensures pages { 1 ≤ result.pages }
    {
        RegionShape {
            pages: (self.spec.length / u64::from(page_size)) as u32,
            group: self.group(page_size),
            writable: self.spec.writable,
        }
    }

    /// The pages that lie together.
    fn group(&self, page_size: u32) -> u32
        requires good { has_good_length page_size self.now ≡ true }
        requires sized { 1 ≤ page_size }
        requires few { self.now.size / page_size ≤ MOST_PAGES }
        ensures group { result ≡ group_of page_size self.now.backing }
        ensures some { 1 ≤ result }
    {
        match &self.spec.kind {
            Kind::Sparse { path: _, file } => (*file / u64::from(page_size)) as u32,
            _ => 1,
        }
    }
}

/// Whether one of the regions has this name.
pub(crate) fn has_name(regions: &[Region], name: &[u8]) -> bool
    ensures { result ≡ list_any (λ r. bytes_eq r.name name.now) regions.now }
{
    regions.iter().any(|r| r.has_name(name))
}

/// Whether one of the regions shares the store.
pub(crate) fn has_store(regions: &[Region], kind: &Kind) -> bool
    ensures { result ≡ list_any (λ r. shares_store r.backing (backing_of kind.now)) regions.now }
{
    regions.iter().any(|r| r.shares_store(kind))
}

/// The place of the first region of this name.
pub(crate) fn place_of_name(regions: &[Region], name: &[u8]) -> Option<usize>
    ensures place { result ≡ position (λ r. bytes_eq r.name name.now) regions.now }
    ensures below { IfSome result (λ i. i < length regions.now) }
{
    regions.iter().position(|r| r.has_name(name))
}

fn copy_of(alloc: Global, kind: &Kind) -> Result<Kind, OutOfMemory>
    ensures { IfOk result (λ k. backing_of k ≡ backing_of kind.now) }
{
    match kind {
        Kind::Memory => Ok(Kind::Memory),
        Kind::File { path } => {
            let path = Bytes::from_slice(alloc, path.as_slice())?;
            Ok(Kind::File { path })
        }
        Kind::Sparse { path, file } => {
            let path = Bytes::from_slice(alloc, path.as_slice())?;
            Ok(Kind::Sparse { path, file: *file })
        }
    }
}

fn path(kind: &Kind) -> Option<&[u8]>
    ensures { option_copied result ≡ path_of (backing_of kind.now) }
{
    match kind {
        Kind::Memory => None,
        Kind::File { path } => Some(path.as_slice()),
        Kind::Sparse { path, file: _ } => Some(path.as_slice()),
    }
}

fn leads_into(kind: &Kind, path: &[u8]) -> bool
    ensures { result ≡ leads_into (backing_of kind.now) path.now }
{
    match kind {
        Kind::Sparse {
            path: folder,
            file: _,
        } => is_below(folder.as_slice(), path),
        _ => false,
    }
}

fn is_below(folder: &[u8], path: &[u8]) -> bool
    ensures { result ≡ starts_with nat_eq path.now (folder.now ++ codes "/") }
{
    path.starts_with(folder) && path[folder.len()..].starts_with(b"/")
}

/// Whether the length and, where there are files, that of one file keep the rules on lengths.
#[tactic(auto, unfolding(crate::specs::Rules::has_good_length))]
pub(crate) fn has_good_length(page_size: u32, spec: &RegionSpec) -> bool
    requires { 1 ≤ page_size }
    ensures { result ≡ has_good_length page_size (named_by spec.now) }
{
    let page_size = u64::from(page_size);
    is_whole(page_size, spec.length)
        && match &spec.kind {
            Kind::Sparse { path: _, file } => {
                is_whole(page_size, *file)
                    && spec.length % *file == 0
                    && spec.length / *file <= MOST_FILES
            }
            _ => true,
        }
}

fn is_whole(page_size: u64, size: u64) -> bool
    requires { 1 ≤ page_size }
    ensures { result ≡ is_whole page_size size }
{
    size > 0 && size % page_size == 0
}
