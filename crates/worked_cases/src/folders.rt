//! Folders at work, in memory and on real files.
ghost use Rattle.std.specs.Prelude.{◌≡◌, [], true, false, IfOk, IfSome};
ghost use Rattle.file_store.specs.Shelves.{any_out};

use file_store::{Cut, DirFolder, FileLane, Folder, FolderFault, MemFile, MemFolder};
use page_base::{Bytes, Layout, List, OutOfMemory};
use std::fs;
use std::process::Abort;
use std::test::Fail;
use store_trait::Store;

/// A folder of the file `f`, whose calls don't fail.
fn folder_of(rt: &HostRuntime, bytes: &[u8]) -> Result<MemFolder, OutOfMemory>
    ensures { IfOk result (λ f. IfSome (⟦<MemFolder as Folder>⟧.seen f).told (λ s. s.out ≡ [])) }
{
    let mut files = List::new(rt.alloc());
    files.push(MemFile {
        path: Bytes::from_slice(rt.alloc(), b"f")?,
        bytes: Bytes::from_slice(rt.alloc(), bytes)?,
    })?;
    let no_call = List::new(rt.alloc());
    let no_part_call = List::new(rt.alloc());
    Ok(MemFolder::new(rt.alloc(), files, no_call, no_part_call))
}

#[test]
fn a_folder_in_memory_is_looked_at(rt: HostRuntime) -> Result<(), OutOfMemory> {
    let mut folder = folder_of(&rt, b"123456")?;
    let there = Bytes::from_slice(rt.alloc(), b"f")?;
    let absent = Bytes::from_slice(rt.alloc(), b"g")?;
    let mut head = [0u8; 4];
    assert_eq!(rt; folder.length(&there), Ok(Some(6)));
    assert_eq!(rt; folder.length(&absent), Ok(None));
    assert_eq!(rt; folder.read_head(&there, &mut head), Ok(4));
    assert_eq!(rt; head.as_slice(), b"1234".as_slice());
    assert_eq!(rt;
        folder.read_head(&absent, &mut head),
        Err(FolderFault::Missing)
    );
    assert_eq!(rt; folder.faults(), 0);
    Ok(())
}

/// Writes the second page of a file through its lane, and closes the lane's part.
fn write_second_page<F: Folder>(folder: &mut F, path: &Bytes, cut: &Cut) -> bool
    requires none_out { IfSome (F.seen folder.old).told (λ s. any_out path.now.items s.out ≡ false) }
    requires page_size { cut.now.layout.page_size ≡ 64 }
    requires stripes { cut.now.layout.stripes ≡ 2 }
    requires pages { (cut.now.region ≡ 0) × (cut.now.pages ≡ 3) }
{
    let Ok(parts) = folder.open_striped(path, cut) else {
        return false;
    };
    let mut parts = parts.into_vec();
    let mut lane = FileLane::new(parts.remove(1));
    let written = lane.write_to_store(&[9u8; 64], 64).is_ok();
    folder.close_part(lane.into_part());
    written
}

/// Three pages in two stripes.
fn three_pages(layout: Layout) -> Cut
    ensures { result ≡ record { region = 0; pages = 3; layout = layout; writable = true } }
{
    Cut {
        region: 0,
        pages: 3,
        layout,
        writable: true,
    }
}

/// One page of three is written; the other pages, and the bytes behind them, are as they were.
fn has_second_page(rt: &impl Abort, file: &[u8]) {
    let mut wanted = [7u8; 200];
    for i in 64..128 {
        wanted[i] = 9;
    }
    assert_eq!(rt; file, wanted.as_slice());
}

#[test]
fn a_part_that_was_written_is_in_its_file_when_it_is_closed(rt: HostRuntime) -> Result<(), Fail> {
    let mut folder = folder_of(&rt, &[7u8; 200])?;
    let path = Bytes::from_slice(rt.alloc(), b"f")?;
    let cut = three_pages(Layout::new(64, 2, 2)?);
    assert!(rt; write_second_page(&mut folder, &path, &cut));
    let files = folder.into_files();
    assert_eq!(rt; files.len(), 1);
    has_second_page(&rt, files.get(0).bytes.as_slice());
    Ok(())
}

#[test]
fn a_lane_over_a_real_file_writes_its_page(rt: HostRuntime) -> Result<(), Fail> {
    let path = Bytes::from_slice(rt.alloc(), b"file_store_lane.bin")?;
    let _ = fs::remove_file(&rt, "file_store_lane.bin");
    let mut folder = DirFolder::new(rt.alloc(), rt.clone()?);
    assert_eq!(rt; folder.write_new(&path, &[7u8; 200]), Ok(()));
    assert_eq!(rt; folder.length(&path), Ok(Some(200)));
    let cut = three_pages(Layout::new(64, 2, 2)?);
    assert!(rt; write_second_page(&mut folder, &path, &cut));
    let mut head = [0u8; 200];
    assert_eq!(rt; folder.read_head(&path, &mut head), Ok(200));
    has_second_page(&rt, &head);
    assert_eq!(rt; folder.faults(), 0);
    fs::remove_file(&rt, "file_store_lane.bin")?;
    Ok(())
}

#[test]
fn a_file_that_does_not_fit_is_refused(rt: HostRuntime) -> Result<(), OutOfMemory> {
    let mut folder = folder_of(&rt, b"123456")?;
    let there = Bytes::from_slice(rt.alloc(), b"f")?;
    let absent = Bytes::from_slice(rt.alloc(), b"g")?;
    let Ok(layout) = Layout::new(64, 1, 1) else {
        panic!(rt; "the layout is accepted");
    };
    let cut = Cut {
        region: 0,
        pages: 1,
        layout,
        writable: false,
    };
    let short = folder.open_striped(&there, &cut).err();
    assert_eq!(rt; short, Some(FolderFault::TooShort { have: 6, need: 64 }));
    assert_eq!(rt;
        folder.open_striped(&absent, &cut).err(),
        Some(FolderFault::Missing)
    );
    Ok(())
}

#[test]
fn what_is_no_file_is_refused(rt: HostRuntime) -> Result<(), Fail> {
    let mut folder = DirFolder::new(rt.alloc(), rt.clone()?);
    let absent = Bytes::from_slice(rt.alloc(), b"file_store_absent.bin")?;
    let here = Bytes::from_slice(rt.alloc(), b".")?;
    assert_eq!(rt; folder.length(&absent), Ok(None));
    assert_eq!(rt;
        folder.read_head(&absent, &mut [0u8; 4]),
        Err(FolderFault::Missing)
    );
    assert_eq!(rt;
        folder.length(&here),
        Err(FolderFault::Failed { faults: 1 })
    );
    assert_eq!(rt; folder.faults(), 1);
    Ok(())
}
