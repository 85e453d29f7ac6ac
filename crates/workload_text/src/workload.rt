//! A workload as a value: regions, and scripts of commands on them.
//!
//! Contracts see it through `lines_of`, one flat list of lines, so the nesting here may change and
//! no statement does.
ghost use Rattle.std.specs.Prelude.{◌≡◌};
ghost use Rattle.std.specs.List.{list_all};
ghost use Rattle.workload_text.specs.View.{lines_of, command_line, region_line};
ghost use Rattle.workload_text.specs.Built.{is_built, is_built_line, is_in_memory, is_memory_line};

use page_base::{Bytes, List};

/// Where a region's bytes are kept.
#[derive(Drop)]
pub enum StoreKind {
    /// In memory, all zeros at first.
    Memory,
    /// The first bytes of one file.
    File { path: Bytes },
    /// Files of `file` bytes each, in the folder `path`.
    Sparse { path: Bytes, file: u64 },
}

/// One region; regions are numbered from 0 in order of their lines.
#[derive(Drop)]
pub struct MapLine {
    pub name: Bytes,
    pub kind: StoreKind,
    /// In bytes.
    pub length: u64,
    pub writable: bool,
}

/// One command; offsets and lengths are in bytes.
#[derive(Drop)]
pub enum Command {
    Load { region: u16, off: u64, len: u32 },
    Store { region: u16, off: u64, bytes: Bytes },
    Prefetch { region: u16, off: u64, len: u64 },
    Flush,
    Unmap { region: u16 },
}

/// The commands that one thread of a run makes, in order.
#[derive(Drop)]
pub struct Script {
    pub name: Bytes,
    pub commands: List<Command>,
}

#[derive(Drop)]
pub struct Workload {
    pub maps: List<MapLine>,
    pub scripts: List<Script>,
}

/// A workload and where its regions stand in the text.
#[derive(Drop)]
pub struct Parsed {
    pub workload: Workload,
    /// The line of each region, counted from 1.
    pub map_lines: List<u32>,
}

fn is_built_region(map: &MapLine) -> bool
    ensures { result ≡ is_built_line (region_line map.now) }
{
    matches!(&map.kind, StoreKind::Memory | StoreKind::File { path: _ })
}

fn is_built_command(command: &Command) -> bool
    ensures { result ≡ is_built_line (command_line command.now) }
{
    match command {
        Command::Prefetch {
            region: _,
            off: _,
            len: _,
        } => false,
        _ => true,
    }
}

fn are_built_regions(maps: &[MapLine]) -> bool
    ensures { result ≡ list_all (λ m. is_built_line (region_line m)) maps.now }
{
    maps.iter().all(|map| is_built_region(map))
}

fn are_built_commands(commands: &[Command]) -> bool
    ensures { result ≡ list_all (λ c. is_built_line (command_line c)) commands.now }
{
    commands.iter().all(|command| is_built_command(command))
}

fn are_built_scripts(scripts: &[Script]) -> bool
    ensures { result ≡ list_all (λ s. list_all (λ c. is_built_line (command_line c)) s.commands.items) scripts.now }
{
    scripts
        .iter()
        .all(|script| are_built_commands(script.commands.as_slice()))
}

/// Whether the program can run the workload so far: regions in memory or in one file each, and no prefetch.
pub fn is_built(workload: &Workload) -> bool
    ensures { result ≡ is_built (lines_of workload.now) }
{
    are_built_regions(workload.maps.as_slice()) && are_built_scripts(workload.scripts.as_slice())
}

fn is_memory_region(map: &MapLine) -> bool
    ensures { result ≡ is_memory_line (region_line map.now) }
{
    matches!(&map.kind, StoreKind::Memory)
}

fn are_memory_regions(maps: &[MapLine]) -> bool
    ensures { result ≡ list_all (λ m. is_memory_line (region_line m)) maps.now }
{
    maps.iter().all(|map| is_memory_region(map))
}

/// Whether all regions of the workload are in memory.
pub fn is_in_memory(workload: &Workload) -> bool
    ensures { result ≡ is_in_memory (lines_of workload.now) }
{
    are_memory_regions(workload.maps.as_slice())
}
