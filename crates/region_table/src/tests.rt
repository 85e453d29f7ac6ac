//! Worked tables of regions, and each call once on its happy path.
ghost use Rattle.std.specs.Prelude.{◌≡◌, [], IfOk};

use crate::{Kind, Piece, RegionFault, RegionSpec, RegionTable};
use page_base::{Bytes, Key, OutOfMemory};
use std::alloc::Global;

fn region(alloc: Global, name: &str, kind: Kind, length: u64) -> Result<RegionSpec, OutOfMemory> {
    Ok(RegionSpec {
        name: Bytes::from_slice(alloc, name.as_bytes())?,
        kind,
        length,
        writable: true,
    })
}

fn in_file(alloc: Global, name: &str, path: &str, length: u64) -> Result<RegionSpec, OutOfMemory> {
    let path = Bytes::from_slice(alloc, path.as_bytes())?;
    region(alloc, name, Kind::File { path }, length)
}

/// A region in files of `file` bytes, or in memory where `file` is none.
fn in_files(
    alloc: Global,
    path: &str,
    file: Option<u64>,
    length: u64,
) -> Result<RegionSpec, OutOfMemory> {
    match file {
        None => region(alloc, "files", Kind::Memory, length),
        Some(file) => {
            let path = Bytes::from_slice(alloc, path.as_bytes())?;
            region(alloc, "files", Kind::Sparse { path, file }, length)
        }
    }
}

/// A table with pages of 64 bytes.
fn table_of_small_pages(alloc: Global) -> Result<RegionTable, OutOfMemory>
    ensures { IfOk result (λ t. t.regions ≡ []) }
{
    RegionTable::new(alloc, 64)
}

/// What the second region is refused for behind the first.
fn fault_behind(
    alloc: Global,
    first: &RegionSpec,
    second: &RegionSpec,
) -> Result<Option<RegionFault>, RegionFault> {
    let mut table = table_of_small_pages(alloc)?;
    table.add(first)?;
    Ok(table.add(second).err())
}

#[test]
fn the_first_of_two_broken_rules_is_told(rt: HostRuntime) -> Result<(), RegionFault> {
    let alloc = rt.alloc();
    let first = in_file(alloc, "a", "disk/one", 128)?;
    for (name, path, length, want) in [
        ("a", "disk/one", 1, Some(RegionFault::SameName)),
        ("b", "disk/one", 1, Some(RegionFault::SameStore)),
        ("b", "disk", 67_108_865, Some(RegionFault::BadLength)),
        ("b", "disk", 64, None),
    ] {
        let second = in_file(alloc, name, path, length)?;
        assert_eq!(rt; fault_behind(alloc, &first, &second)?, want, "at {length}");
    }
    Ok(())
}

#[test]
fn one_store_lies_in_the_folder_of_another(rt: HostRuntime) -> Result<(), RegionFault> {
    let alloc = rt.alloc();
    let file = in_file(alloc, "a", "disk/one", 128)?;
    for (path, want) in [("disk", Some(RegionFault::SameStore)), ("dis", None)] {
        let folder = in_files(alloc, path, Some(64), 64)?;
        assert_eq!(rt;
            fault_behind(alloc, &file, &folder)?,
            want,
            "behind at {path}"
        );
        assert_eq!(rt;
            fault_behind(alloc, &folder, &file)?,
            want,
            "before at {path}"
        );
    }
    Ok(())
}

#[test]
fn lengths_and_files_are_whole(rt: HostRuntime) -> Result<(), RegionFault> {
    let alloc = rt.alloc();
    let first = in_file(alloc, "a", "disk", 128)?;
    for (length, file, want) in [
        (0, None, Some(RegionFault::BadLength)),
        (65, None, Some(RegionFault::BadLength)),
        (128, Some(0), Some(RegionFault::BadLength)),
        (128, Some(32), Some(RegionFault::BadLength)),
        (192, Some(128), Some(RegionFault::BadLength)),
        (262_208, Some(64), Some(RegionFault::BadLength)),
        (262_144, Some(64), None),
        (
            67_108_800,
            None,
            Some(RegionFault::TooManyPages { pages: 1_048_577 }),
        ),
        (67_108_736, None, None),
    ] {
        let second = in_files(alloc, "far", file, length)?;
        assert_eq!(rt; fault_behind(alloc, &first, &second)?, want, "at {length}");
    }
    Ok(())
}

#[test]
fn a_region_is_found_by_name(rt: HostRuntime) -> Result<(), RegionFault> {
    let alloc = rt.alloc();
    let mut table = table_of_small_pages(alloc)?;
    let files = in_files(alloc, "far", Some(128), 256)?;
    let number = table.add(&files)?;
    assert_eq!(rt; number, 0);
    assert_eq!(rt; table.count(), 1);
    assert_eq!(rt; table.find(b"files"), Some(0));
    assert_eq!(rt; table.find(b"file"), None);
    let shape = table.shape(0);
    assert_eq!(rt; shape.pages, 4);
    assert_eq!(rt; shape.group, 2);
    Ok(())
}

#[test]
fn a_range_is_cut_at_page_borders(rt: HostRuntime) -> Result<(), RegionFault> {
    let alloc = rt.alloc();
    let mut table = table_of_small_pages(alloc)?;
    let file = in_file(alloc, "heap", "disk", 192)?;
    table.add(&file)?;
    assert_eq!(rt; table.length(0), 192);
    let mut pieces = table.pieces(0, 60, 70);
    for (page, place, len) in [(0, 60, 4), (1, 0, 64), (2, 0, 2)] {
        let key = Key { region: 0, page };
        assert_eq!(rt; pieces.next(), Some(Piece { key, place, len }), "at {page}");
    }
    assert_eq!(rt; pieces.next(), None);
    Ok(())
}
