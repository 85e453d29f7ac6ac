//! Sparse stores: made, refused and opened again, in folders in memory.
ghost use Rattle.std.specs.Prelude.{◌≡◌, [], IfOk, IfSome};
ghost use Rattle.sparse_store.specs.Files.{IsShape};

use file_store::{FailingFolder, Folder, FolderCall, MemFile, MemFolder};
use page_base::{Bytes, List, OutOfMemory};
use sparse_store::{Meta, SparseFault, SparseStore};
use std::alloc::Global;
use std::process::Abort;

/// A file's path and its bytes.
type Row<'a> = (&'a [u8], &'a [u8]);

/// The metadata of four files of 128 bytes.
const FOUR: &[u8] = b"umap-sparse 1\nsize 512\nfile 128\n";

fn four_files() -> Meta
    ensures shape { IsShape result }
{
    Meta {
        size: 512,
        file: 128,
    }
}

/// A folder of these files, of whose calls of one kind for one path the first fails.
fn folder_of(
    alloc: Global,
    rows: &[Row<'_>],
    failing: Option<(FolderCall, &[u8])>,
) -> Result<MemFolder, OutOfMemory>
    ensures { IfOk result (λ f. IfSome (⟦<MemFolder as Folder>⟧.seen f).told (λ s. s.out ≡ [])) }
{
    let mut files = List::new(alloc);
    for (path, bytes) in rows {
        files.push(MemFile {
            path: Bytes::from_slice(alloc, path)?,
            bytes: Bytes::from_slice(alloc, bytes)?,
        })?;
    }
    let mut calls = List::new(alloc);
    if let Some((call, path)) = failing {
        calls.push(FailingFolder {
            path: Bytes::from_slice(alloc, path)?,
            call,
            number: 1,
        })?;
    }
    let no_part_call = List::new(alloc);
    Ok(MemFolder::new(alloc, files, calls, no_part_call))
}

/// Makes a store of four files and closes it: why it was refused, if it was, and what the folder holds then.
fn create(mut folder: MemFolder, dir: &Bytes) -> (Option<SparseFault>, List<MemFile>)
    requires none_out { IfSome (⟦<MemFolder as Folder>⟧.seen folder).told (λ s. s.out ≡ []) }
{
    let refused = match SparseStore::create(&mut folder, dir, four_files()) {
        Ok(store) => {
            store.close(&mut folder);
            None
        }
        Err(fault) => Some(fault),
    };
    (refused, folder.into_files())
}

/// Opens a store of four files and closes it.
fn open(mut folder: MemFolder, dir: &Bytes) -> (Option<SparseFault>, List<MemFile>)
    requires none_out { IfSome (⟦<MemFolder as Folder>⟧.seen folder).told (λ s. s.out ≡ []) }
{
    let refused = match SparseStore::open(&mut folder, dir, four_files(), true) {
        Ok(store) => {
            store.close(&mut folder);
            None
        }
        Err(fault) => Some(fault),
    };
    (refused, folder.into_files())
}

/// The folder holds these files and no other.
fn holds(rt: &impl Abort, files: &List<MemFile>, wanted: &[Row<'_>]) {
    assert_eq!(rt; files.len(), wanted.len());
    for (file, row) in files.as_slice().iter().zip(wanted.iter()) {
        assert_eq!(rt; file.path.as_slice(), row.0);
        assert_eq!(rt; file.bytes.as_slice(), row.1);
    }
}

/// Of a folder of these files, what a creation answers and what is there then.
fn creates(
    rt: &impl Abort,
    alloc: Global,
    before: &[Row<'_>],
    wanted: Option<SparseFault>,
    after: &[Row<'_>],
) -> Result<(), OutOfMemory> {
    let dir = Bytes::from_slice(alloc, b"d")?;
    let (refused, files) = create(folder_of(alloc, before, None)?, &dir);
    assert_eq!(rt; refused, wanted);
    holds(rt, &files, after);
    Ok(())
}

#[test]
fn a_store_is_created_where_none_is(rt: HostRuntime) -> Result<(), OutOfMemory> {
    let long = [7u8; 200];
    let short = [7u8; 127];
    let meta: Row<'_> = (b"d/_metadata", FOUR);
    let other: Row<'_> = (b"d/_metadata", b"x");
    let longer: Row<'_> = (b"d/1", &long);
    let shorter: Row<'_> = (b"d/3", &short);
    let exists = Some(SparseFault::Exists);
    let too_short = Some(SparseFault::TooShort {
        have: 127,
        need: 128,
    });
    creates(&rt, rt.alloc(), &[], None, &[meta])?;
    creates(&rt, rt.alloc(), &[longer], None, &[longer, meta])?;
    creates(&rt, rt.alloc(), &[other], exists, &[other])?;
    creates(
        &rt,
        rt.alloc(),
        &[other, shorter],
        exists,
        &[other, shorter],
    )?;
    creates(
        &rt,
        rt.alloc(),
        &[longer, shorter],
        too_short,
        &[longer, shorter],
    )?;
    Ok(())
}

#[test]
fn a_creation_ends_at_a_failed_call(rt: HostRuntime) -> Result<(), OutOfMemory> {
    let dir = Bytes::from_slice(rt.alloc(), b"d")?;
    let calls: [(FolderCall, &[u8]); 2] = [
        (FolderCall::Length, b"d/_metadata"),
        (FolderCall::OpenWhole, b"d/2"),
    ];
    for call in calls {
        let (refused, files) = create(folder_of(rt.alloc(), &[], Some(call))?, &dir);
        assert_eq!(rt; refused, Some(SparseFault::Failed { faults: 1 }));
        holds(&rt, &files, &[]);
    }
    let unwritten = (FolderCall::WriteNew, b"d/_metadata".as_slice());
    let (refused, _files) = create(folder_of(rt.alloc(), &[], Some(unwritten))?, &dir);
    assert_eq!(rt; refused, Some(SparseFault::Failed { faults: 1 }));
    Ok(())
}

#[test]
fn a_store_is_opened_by_its_metadata(rt: HostRuntime) -> Result<(), OutOfMemory> {
    let dir = Bytes::from_slice(rt.alloc(), b"d")?;
    let larger = SparseFault::SizeMismatch {
        kept: 1024,
        asked: 512,
    };
    let finer = SparseFault::SizeMismatch {
        kept: 64,
        asked: 128,
    };
    let rows: [(&[u8], Option<SparseFault>); 7] = [
        (FOUR, None),
        (b"", Some(SparseFault::BadMeta { byte: 0 })),
        (&FOUR[..20], Some(SparseFault::BadMeta { byte: 20 })),
        (
            b"umap-sparse 2\nsize 512\nfile 128\n",
            Some(SparseFault::BadMeta { byte: 12 }),
        ),
        (
            b"umap-sparse 1\nsize 512\nfile 128\n\n",
            Some(SparseFault::BadMeta { byte: 32 }),
        ),
        (b"umap-sparse 1\nsize 1024\nfile 64\n", Some(larger)),
        (b"umap-sparse 1\nsize 512\nfile 64\n", Some(finer)),
    ];
    for (text, wanted) in rows {
        let meta: Row<'_> = (b"d/_metadata", text);
        let (refused, files) = open(folder_of(rt.alloc(), &[meta], None)?, &dir);
        assert_eq!(rt; refused, wanted);
        holds(&rt, &files, &[meta]);
    }
    Ok(())
}

#[test]
fn a_store_is_refused_that_is_not_all_there(rt: HostRuntime) -> Result<(), OutOfMemory> {
    let dir = Bytes::from_slice(rt.alloc(), b"d")?;
    let short = [7u8; 127];
    let meta: Row<'_> = (b"d/_metadata", FOUR);
    let shorter: Row<'_> = (b"d/3", &short);
    let (missing, _files) = open(folder_of(rt.alloc(), &[shorter], None)?, &dir);
    assert_eq!(rt; missing, Some(SparseFault::Missing));
    let (too_short, _files) = open(folder_of(rt.alloc(), &[meta, shorter], None)?, &dir);
    assert_eq!(rt;
        too_short,
        Some(SparseFault::TooShort {
            have: 127,
            need: 128
        })
    );
    let unread = (FolderCall::ReadHead, b"d/_metadata".as_slice());
    let (failed, files) = open(folder_of(rt.alloc(), &[meta], Some(unread))?, &dir);
    assert_eq!(rt; failed, Some(SparseFault::Failed { faults: 1 }));
    holds(&rt, &files, &[meta]);
    Ok(())
}
