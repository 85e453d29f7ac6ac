//! The rules on regions, tested on the `map` lines in order.
//!
//! The table of regions knows the rules; here the regions of a workload are put into one, and the first that it refuses is
//! named by its line.
ghost use Rattle.std.specs.Prelude.{◌≡◌, ◌≤◌, true, map, length, IfOk, OnOk, IfErr, Some, None};
ghost use Rattle.page_base.specs.Layouts.{is_page_size};
ghost use Rattle.page_base.specs.declared.limits.TheConstants.{MOST_REGIONS};
ghost use Rattle.region_table.specs.Regions.{named_by, backing_of};
ghost use Rattle.workload_text.specs.View.{backing_of as backing_of_line, region};
ghost use Rattle.script_run.specs.Fits.{has_whole_pages};
ghost use Rattle.script_run.specs.declared.regions.TableFault.TheVariants as fault;
ghost use Rattle.script_run.specs.RegionRules.{named_region, rule, maps_refusal, IfRegionRefused};

use page_base::{Bytes, OutOfMemory};
use region_table::{Kind, RegionFault, RegionSpec, RegionTable};
use std::alloc::Global;
use workload_text::{MapLine, StoreKind};

/// The rules on regions, in the order in which they are tested.
#[derive(Clone, Copy, Debug, PartialEq, Eq)]
pub enum RegionKind {
    /// An earlier region has this name.
    SameName,
    /// An earlier region has the same path, or one of the two lies in the other's folder.
    SameStore,
    /// The length, or that of one file, isn't made of whole pages, or the files don't fit the length.
    BadLength,
    /// All regions so far have more than `MOST_PAGES` pages.
    TooManyPages,
}

/// The first `map` line whose region breaks a rule, counted from 1, and the rule.
#[derive(Clone, Copy, Debug, PartialEq, Eq)]
pub struct RegionRefusal {
    pub line: u32,
    pub kind: RegionKind,
}

/// Why regions make no table.
#[derive(Clone, Copy, Debug)]
pub enum TableFault {
    Refused(RegionRefusal),
    OutOfMemory,
}

impl From<OutOfMemory> for TableFault {
    ghost from_gives = { λ _ e. e ≡ fault.OutOfMemory };

    fn from(_: OutOfMemory) -> TableFault {
        TableFault::OutOfMemory
    }
}

fn kind_of(alloc: Global, store: &StoreKind) -> Result<Kind, OutOfMemory>
    ensures { IfOk result (λ k. backing_of k ≡ backing_of_line store.now) }
{
    match store {
        StoreKind::Memory => Ok(Kind::Memory),
        StoreKind::File { path } => {
            let path = Bytes::from_slice(alloc, path.as_slice())?;
            Ok(Kind::File { path })
        }
        StoreKind::Sparse { path, file } => {
            let path = Bytes::from_slice(alloc, path.as_slice())?;
            Ok(Kind::Sparse { path, file: *file })
        }
    }
}

/// The region that a `map` line asks for.
fn spec_of(alloc: Global, map: &MapLine) -> Result<RegionSpec, OutOfMemory>
    ensures { IfOk result (λ s. named_by s ≡ named_region map.now) }
{
    Ok(RegionSpec {
        name: Bytes::from_slice(alloc, map.name.as_slice())?,
        kind: kind_of(alloc, &map.kind)?,
        length: map.length,
        writable: map.writable,
    })
}

/// The rule that is broken. Want of memory is none.
fn rule(fault: RegionFault) -> Option<RegionKind>
    ensures { result ≡ rule (Some fault) }
{
    match fault {
        RegionFault::SameName => Some(RegionKind::SameName),
        RegionFault::SameStore => Some(RegionKind::SameStore),
        RegionFault::BadLength => Some(RegionKind::BadLength),
        RegionFault::TooManyPages { pages: _ } => Some(RegionKind::TooManyPages),
        RegionFault::OutOfMemory => None,
    }
}

/// The table of the regions of these `map` lines, or the first region that breaks a rule behind those before it. `lines` are
/// the lines that the regions stand on.
pub fn table_of_maps(
    alloc: Global,
    page_size: u32,
    maps: &[MapLine],
    lines: &[u32],
) -> Result<RegionTable, TableFault>
    requires page_size { is_page_size page_size ≡ true }
    requires few { length maps.now ≤ MOST_REGIONS }
    requires as_many { length lines.now ≡ length maps.now }
    ensures table { IfOk result (λ t. t ≡ record { page_size = page_size; regions = map named_region maps.now }) }
    ensures accepted { OnOk result (maps_refusal page_size maps.now lines.now ≡ None) }
    ensures whole { OnOk result (has_whole_pages page_size (map region maps.now) ≡ true) }
    ensures refused { IfErr result (λ f. IfRegionRefused f (λ r. maps_refusal page_size maps.now lines.now ≡ Some r)) }
{
    let mut table = RegionTable::new(alloc, page_size)?;
    for i in 0..maps.len() {
        let spec = spec_of(alloc, &maps[i])?;
        match table.add(&spec) {
            Ok(_) => {}
            Err(fault) => {
                return match rule(fault) {
                    Some(kind) => Err(TableFault::Refused(RegionRefusal {
                        line: lines[i],
                        kind,
                    })),
                    None => Err(TableFault::OutOfMemory),
                };
            }
        }
    }
    Ok(table)
}
