//! A store of many files, created and opened over a folder, and closed.
ghost use Rattle.std.specs.Prelude.{◌≡◌, ◌≤◌, [], ◌∷◌, true, map, Some, None, is_some, IfSome, IfOk, IfErr, OnOk, OnErr};
ghost use Rattle.page_base.specs.Lanes.{Rose};
ghost use Rattle.file_store.specs.Parts.{WhereTold};
ghost use Rattle.file_store.specs.Folders.{AreOut, OfFile, HasFolderCause, WritesNew, OnlyFile, RefusesNew, IsFailed, IsOpenedWhole, whole_name};
ghost use Rattle.sparse_store.specs.Contents.{contents_of, joined_in};
ghost use Rattle.sparse_store.specs.Closings.{ArePartsOut, ClosesEach, HasSame, any_fault};
ghost use Rattle.sparse_store.specs.Files.{IsShape, NoneOutIn, AreFilesOpened, file_names, file_path};
ghost use Rattle.sparse_store.specs.InsideStores.{AreFiles};
ghost use Rattle.sparse_store.specs.Metas.{meta_text, IsMeta};
ghost use Rattle.sparse_store.specs.Openings.{TellsCreating, TellsOpening, RefusesCreating, RefusesOpening};
ghost use Rattle.sparse_store.specs.InsideOpenings.{TellsFiles};
ghost use Rattle.sparse_store.specs.Openings.{HasSparseCause, Creates, LeavesFiles, OfFiles};
ghost use Rattle.sparse_store.specs.InsideOpenings.{RefusesFiles, TellsMeta, RefusesMeta, NoneOutAt, TellsShortOne};

use crate::close::close_parts;
use crate::fault::SparseFault;
use crate::meta::{META_ROOM, Meta, read_meta, write_meta};
use crate::paths::{file_path, meta_path};
use file_store::{Folder, FolderFault, Part};
use page_base::{Bytes, List};

/// The most files of a store.
pub const MOST_FILES: u64 = 4096;

/// The files of one length in a folder, in order of number, as one sequence of bytes.
#[derive(Drop)]
pub struct SparseStore<P: Part> {
    pub(crate) dir: Bytes,
    pub(crate) shape: Meta,
    pub(crate) parts: List<P>,
    pub(crate) ghost shaped: { IsShape shape },
    pub(crate) ghost files: { AreFiles P.seen dir.items shape parts.items },
}

/// Opens the file of this number.
fn open_file<F: Folder>(
    folder: &mut F,
    dir: &Bytes,
    number: u64,
    length: u64,
    writable: bool,
) -> Result<F::Part, SparseFault>
    requires none_out { IfSome (F.seen folder.old).told (λ s. NoneOutAt dir.now.items number s.out) }
    ensures part { IfOk result (λ p. IsOpenedWhole
        (F.seen folder.old).told (file_path dir.now.items number) length (F.Part.seen p)) }
    ensures out { OnOk result (AreOut (whole_name (file_path dir.now.items number) length ∷ [])
        (F.seen folder.old) (F.seen folder.new)) }
    ensures err { OnErr result ((F.seen folder.new).told ≡ (F.seen folder.old).told) }
    ensures only { IfErr result RefusesFiles }
    ensures short { OfFile (F.seen folder.old) (file_path dir.now.items number)
        (λ file. TellsShortOne file length result) }
    ensures cause { HasSparseCause (F.seen folder.old).count (F.seen folder.new).count result }
{
    let path = file_path(dir, number)?;
    let part = folder.open_whole(&path, length, writable)?;
    Ok(part)
}

/// Opens the files in rising order of number. After a refusal no part of them is out.
fn open_files<F: Folder>(
    folder: &mut F,
    dir: &Bytes,
    shape: Meta,
    writable: bool,
) -> Result<List<F::Part>, SparseFault>
    requires shape { IsShape shape }
    requires none_out { IfSome (F.seen folder.old).told (λ s. NoneOutIn dir.now.items s.out) }
    ensures parts { IfOk result (λ parts. AreFilesOpened
        F.Part.seen (F.seen folder.old).told dir.now.items shape parts.items) }
    ensures names { IfOk result (λ parts. map (λ part. (F.Part.seen part).name) parts.items ≡
        file_names dir.now.items shape) }
    ensures out { OnOk result (AreOut (file_names dir.now.items shape) (F.seen folder.old) (F.seen folder.new)) }
    ensures err { OnErr result (WhereTold HasSame (F.seen folder.old).told (F.seen folder.new).told) }
    ensures only { IfErr result RefusesFiles }
    ensures shows { OfFiles (F.seen folder.old) (λ files. TellsFiles files dir.now.items shape result) }
    ensures cause { HasSparseCause (F.seen folder.old).count (F.seen folder.new).count result }
{
    let count = shape.size / shape.file;
    let mut parts = List::new(dir.allocator());
    parts.reserve(count as usize)?;
    for number in 0..count {
        match open_file(folder, dir, number, shape.file, writable) {
            Ok(part) => parts.put(part),
            Err(fault) => {
                close_parts(folder, parts.into_vec());
                return Err(fault);
            }
        }
    }
    Ok(parts)
}

/// Looks at the metadata: nothing where it is that of the numbers that are asked for.
fn look<F: Folder>(folder: &mut F, path: &Bytes, asked: Meta) -> Result<(), SparseFault>
    ensures same { (F.seen folder.new).told ≡ (F.seen folder.old).told }
    ensures only { IfErr result RefusesMeta }
    ensures shows { OfFile (F.seen folder.old) path.now.items (λ there. TellsMeta there asked result) }
    ensures cause { HasSparseCause (F.seen folder.old).count (F.seen folder.new).count result }
{
    let mut head = [0u8; META_ROOM + 1];
    let count = folder.read_head(path, &mut head)?;
    let kept = match read_meta(&head[..count]) {
        Ok(kept) => kept,
        Err(bad) => return Err(SparseFault::from(bad)),
    };
    if kept.size != asked.size {
        return Err(SparseFault::SizeMismatch {
            kept: kept.size,
            asked: asked.size,
        });
    }
    if kept.file != asked.file {
        return Err(SparseFault::SizeMismatch {
            kept: kept.file,
            asked: asked.file,
        });
    }
    Ok(())
}

/// Writes the metadata of a new store.
fn write_text<F: Folder>(folder: &mut F, path: &Bytes, shape: Meta) -> Result<(), FolderFault>
    requires shape { IsMeta shape }
    requires absent { OfFile (F.seen folder.old) path.now.items (λ file. file ≡ None) }
    ensures written { OfFile (F.seen folder.new) path.now.items (WritesNew (meta_text shape) result) }
    ensures only { IfErr result RefusesNew }
    ensures others { WhereTold (OnlyFile path.now.items) (F.seen folder.old).told (F.seen folder.new).told }
    ensures cause { HasFolderCause (F.seen folder.old).count (F.seen folder.new).count result }
{
    let mut text = [0u8; META_ROOM];
    let end = write_meta(shape, &mut text);
    folder.write_new(path, &text[..end])
}

/// Whether a file is there.
fn stands<F: Folder>(folder: &mut F, path: &Bytes) -> Result<bool, FolderFault>
    ensures there { OfFile (F.seen folder.old) path.now.items (λ file. IfOk result (λ there. there ≡ is_some file)) }
    ensures only { IfErr result IsFailed }
    ensures same { (F.seen folder.new).told ≡ (F.seen folder.old).told }
    ensures cause { HasFolderCause (F.seen folder.old).count (F.seen folder.new).count result }
{
    match folder.length(path) {
        Ok(length) => Ok(length.is_some()),
        Err(fault) => Err(fault),
    }
}

impl<P: Part + Drop> SparseStore<P> {
    /// Makes a store of zeros in a folder that has none: its metadata, and no file that isn't there.
    pub fn create<F: Folder<Part = P>>(
        folder: &mut F,
        dir: &Bytes,
        shape: Meta,
    ) -> Result<SparseStore<P>, SparseFault>
        requires shape { IsShape shape }
        requires none_out { IfSome (F.seen folder.old).told (λ s. NoneOutIn dir.now.items s.out) }
        ensures dir { IfOk result (λ store. store.dir.items ≡ dir.now.items) }
        ensures shape { IfOk result (λ store. store.shape ≡ shape) }
        ensures parts { IfOk result (λ store. AreFilesOpened
            P.seen (F.seen folder.old).told dir.now.items shape store.parts.items) }
        ensures contents { OfFiles (F.seen folder.old) (λ files. IfOk result (λ store.
            contents_of (map P.seen store.parts.items) ≡ Some (joined_in files dir.now.items shape))) }
        ensures ours { IfOk result (λ store. ArePartsOut P.seen (F.seen folder.new) store.parts.items) }
        ensures created { OnOk result (WhereTold (Creates dir.now.items shape)
            (F.seen folder.old).told (F.seen folder.new).told) }
        ensures err { IfErr result (λ fault. WhereTold (LeavesFiles dir.now.items shape fault)
            (F.seen folder.old).told (F.seen folder.new).told) }
        ensures only { IfErr result RefusesCreating }
        ensures shows { OfFiles (F.seen folder.old) (λ files. TellsCreating files dir.now.items shape result) }
        ensures cause { HasSparseCause (F.seen folder.old).count (F.seen folder.new).count result }
    {
        let meta = meta_path(dir)?;
        let own = Bytes::from_slice(dir.allocator(), dir.as_slice())?;
        if stands(folder, &meta)? {
            return Err(SparseFault::Exists);
        }
        let parts = open_files(folder, dir, shape, true)?;
        match write_text(folder, &meta, shape) {
            Ok(()) => Ok(SparseStore {
                dir: own,
                shape,
                parts,
            }),
            Err(fault) => {
                close_parts(folder, parts.into_vec());
                Err(SparseFault::from(fault))
            }
        }
    }

    /// Opens the store in a folder, whose metadata has to be that of the numbers that are asked for. Nothing is written.
    pub fn open<F: Folder<Part = P>>(
        folder: &mut F,
        dir: &Bytes,
        asked: Meta,
        writable: bool,
    ) -> Result<SparseStore<P>, SparseFault>
        requires shape { IsShape asked }
        requires none_out { IfSome (F.seen folder.old).told (λ s. NoneOutIn dir.now.items s.out) }
        ensures dir { IfOk result (λ store. store.dir.items ≡ dir.now.items) }
        ensures shape { IfOk result (λ store. store.shape ≡ asked) }
        ensures parts { IfOk result (λ store. AreFilesOpened
            P.seen (F.seen folder.old).told dir.now.items asked store.parts.items) }
        ensures contents { OfFiles (F.seen folder.old) (λ files. IfOk result (λ store.
            contents_of (map P.seen store.parts.items) ≡ Some (joined_in files dir.now.items asked))) }
        ensures ours { IfOk result (λ store. ArePartsOut P.seen (F.seen folder.new) store.parts.items) }
        ensures out { OnOk result (AreOut (file_names dir.now.items asked) (F.seen folder.old) (F.seen folder.new)) }
        ensures err { OnErr result (WhereTold HasSame (F.seen folder.old).told (F.seen folder.new).told) }
        ensures only { IfErr result RefusesOpening }
        ensures shows { OfFiles (F.seen folder.old) (λ files. TellsOpening files dir.now.items asked result) }
        ensures cause { HasSparseCause (F.seen folder.old).count (F.seen folder.new).count result }
    {
        let meta = meta_path(dir)?;
        let own = Bytes::from_slice(dir.allocator(), dir.as_slice())?;
        look(folder, &meta, asked)?;
        let parts = open_files(folder, dir, asked, writable)?;
        Ok(SparseStore {
            dir: own,
            shape: asked,
            parts,
        })
    }

    /// Closes the parts of all files. The folder's count rises where a call of a part failed. It takes no memory.
    pub fn close<F: Folder<Part = P>>(self, folder: &mut F)
        requires out { ArePartsOut P.seen (F.seen folder.old) self.parts.items }
        ensures closed { WhereTold (ClosesEach (map P.seen self.parts.items))
            (F.seen folder.old).told (F.seen folder.new).told }
        ensures later { (F.seen folder.old).count ≤ (F.seen folder.new).count }
        ensures faults { any_fault (map P.seen self.parts.items) ≡ true →
            Rose (F.seen folder.old).count (F.seen folder.new).count }
    {
        let SparseStore {
            dir: _,
            shape: _,
            parts,
        } = self;
        close_parts(folder, parts.into_vec());
    }
}
