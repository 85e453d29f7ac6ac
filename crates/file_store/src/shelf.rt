//! The files of a folder in memory, and the parts of them that are out.
ghost use Rattle.std.specs.Prelude.{◌≡◌, ◌<◌, ◌≤◌, ◌+◌, ◌*◌, ◌++◌, true, false, length, IfSome, IfNone, IfOk, None, Some, drop, replicate, MatchOption, ⊤, vec_len, vec_capacity};
ghost use Rattle.file_store.specs.Shelves.{file_at, without};
ghost use Rattle.file_store.specs.Folders.{stripe_names};
ghost use Rattle.file_store.specs.InsideFolders.{whole_seen, PutsStripe};
ghost use Rattle.file_store.specs.InsideMemParts.{name_of};
ghost use Rattle.file_store.specs.InsideMemSeen.{mem_seen, AreStripesOf};
ghost use Rattle.file_store.specs.MemFiles.{files_in};
ghost use Rattle.file_store.specs.FailingLists.{listed_for};
ghost use Rattle.file_store.specs.FailingCalls.{failing_in, AreListedFor};
ghost use Rattle.file_store.specs.InsideMemFolders.{out_in, IsFirstAt, HasLength, IsLongEnough, PutsPart, PutsFront, PutsStripeAt, OthersStayAt, TakesOneRoom};

use crate::files::{FailingPart, MemFile, OutPart};
use crate::folder::Cut;
use crate::mem_part::{Failing, MemPart, Shape};
use page_base::laws::lists_by_place;
use page_base::{Bytes, Key, List, OutOfMemory};
use std::alloc::Global;

/// The place of the file of this path.
pub(crate) fn find_file(files: &[MemFile], path: &[u8]) -> Option<usize>
    ensures some { IfSome result (IsFirstAt path.now files.now) }
    ensures none { IfNone result (file_at (files_in files.now) path.now ≡ None) }
{
    for at in 0..files.len() {
        if files[at].path.as_slice() == path {
            return Some(at);
        }
    }
    None
}

/// The bytes of the file of this path.
pub(crate) fn bytes_of<'a>(files: &'a [MemFile], path: &[u8]) -> Option<&'a [u8]>
    ensures some { IfSome result (λ bytes. file_at (files_in files.now) path.now ≡ Some bytes.now) }
    ensures none { IfNone result (file_at (files_in files.now) path.now ≡ None) }
{
    match find_file(files, path) {
        Some(at) => Some(files[at].bytes.as_slice()),
        None => None,
    }
}

/// Writes one stripe's pages over those of a file.
pub(crate) fn put_pages(file: &mut Bytes, bytes: &[u8], cut: &Cut, stripe: u32)
    requires file { cut.now.pages * cut.now.layout.page_size ≤ length file.old.items }
    requires bytes { length bytes.now ≡ cut.now.pages * cut.now.layout.page_size }
    ensures { (path : _) → PutsStripe path cut.now stripe bytes.now file.old.items file.new.items }
{
    let size = cut.layout.page_size() as usize;
    for page in 0..cut.pages {
        let key = Key {
            region: cut.region,
            page,
        };
        if cut.layout.stripe_of(key, 1) == stripe {
            let start = page as usize * size;
            file.write_at(start, &bytes[start..start + size]);
        }
    }
}

/// The parts of one file, one for each stripe, over its first bytes.
pub(crate) fn stripe_parts(
    alloc: Global,
    path: &[u8],
    cut: &Cut,
    bytes: &[u8],
    failing: &[FailingPart],
) -> Result<List<MemPart>, OutOfMemory>
    requires { length bytes.now ≡ cut.now.pages * cut.now.layout.page_size }
    ensures count { IfOk result (λ parts. length parts.items ≡ cut.now.layout.stripes) }
    ensures parts { IfOk result (λ parts. AreStripesOf path.now cut.now bytes.now parts.items) }
    ensures lists { IfOk result (λ parts. AreListedFor path.now failing.now parts.items) }
{
    lists_by_place::<MemPart>();
    let stripes = cut.layout.stripes();
    let mut parts = List::new(alloc);
    parts.reserve(stripes as usize)?;
    for stripe in 0..stripes {
        let shape = Shape::Striped { cut: *cut, stripe };
        let own_path = Bytes::from_slice(alloc, path)?;
        let own = Bytes::from_slice(alloc, bytes)?;
        let own_failing = failing_of(alloc, failing, path)?;
        parts.put(MemPart::new(own_path, shape, own, true, own_failing));
    }
    Ok(parts)
}

fn zeros(alloc: Global, count: usize) -> Result<Bytes, OutOfMemory>
    ensures { IfOk result (λ b. b.items ≡ replicate count 0) }
{
    match vec![in alloc; 0u8; count] {
        Ok(zeros) => Ok(Bytes::from_vec(zeros)),
        Err(_) => Err(OutOfMemory),
    }
}

/// A part of the first bytes of a file, or of zeros where there is no file.
pub(crate) fn whole_part(
    alloc: Global,
    path: &[u8],
    size: u64,
    files: &[MemFile],
    failing: &[FailingPart],
) -> Result<MemPart, OutOfMemory>
    requires { MatchOption (file_at (files_in files.now) path.now) ⊤ (λ bytes. size ≤ length bytes) }
    ensures seen { IfOk result
        (λ part. mem_seen part ≡ whole_seen path.now size (file_at (files_in files.now) path.now)) }
    ensures lists { IfOk result (λ part. failing_in part ≡ listed_for path.now failing.now) }
{
    let own_path = Bytes::from_slice(alloc, path)?;
    let own_failing = failing_of(alloc, failing, path)?;
    let shape = Shape::Whole { size };
    match bytes_of(files, path) {
        Some(bytes) => {
            let own = Bytes::from_slice(alloc, &bytes[..size as usize])?;
            Ok(MemPart::new(own_path, shape, own, true, own_failing))
        }
        None => {
            let own = zeros(alloc, size as usize)?;
            Ok(MemPart::new(own_path, shape, own, false, own_failing))
        }
    }
}

/// The calls that fail of a part of this path.
pub(crate) fn failing_of(
    alloc: Global,
    failing: &[FailingPart],
    path: &[u8],
) -> Result<Vec<Failing>, OutOfMemory>
    ensures { IfOk result (λ own. own.items ≡ listed_for path.now failing.now) }
{
    let mut own = Vec::new(alloc);
    for each in failing {
        if each.path.as_slice() == path {
            let next = Failing {
                call: each.call,
                left: each.number,
            };
            if own.push(next).is_err() {
                return Err(OutOfMemory);
            }
        }
    }
    Ok(own)
}

/// What is kept of one file's parts that are out.
pub(crate) fn stripe_outs(
    alloc: Global,
    path: &[u8],
    cut: &Cut,
) -> Result<Vec<OutPart>, OutOfMemory>
    ensures { IfOk result (λ outs. out_in outs.items ≡ stripe_names path.now cut.now) }
{
    let stripes = cut.layout.stripes();
    let mut outs = List::new(alloc);
    outs.reserve(stripes as usize)?;
    for stripe in 0..stripes {
        let path = Bytes::from_slice(alloc, path)?;
        let shape = Shape::Striped { cut: *cut, stripe };
        outs.put(OutPart { path, shape });
    }
    Ok(outs.into_vec())
}

/// Moves all of `more` behind `outs`.
pub(crate) fn put_outs(outs: &mut Vec<OutPart>, mut more: Vec<OutPart>)
    requires { vec_len outs.old + vec_len more ≤ vec_capacity outs.old }
    ensures { out_in outs.new.items ≡ out_in outs.old.items ++ out_in more.items }
{
    'moving: while !more.is_empty() {
        outs.push_reserved(more.remove(0));
    }
}

/// Takes away the part of this path and number.
pub(crate) fn take_out(outs: &mut Vec<OutPart>, path: &[u8], shape: Shape)
    ensures names { out_in outs.new.items ≡ without (name_of path.now shape) (out_in outs.old.items) }
    ensures capacity { vec_capacity outs.new ≡ vec_capacity outs.old }
{
    let number = shape.number();
    outs.retain(|x| !(x.path.as_slice() == path && x.shape.number() == number));
}

/// Writes over the front of a file, or makes it longer.
fn put_front(file: &mut Bytes, front: Bytes)
    ensures { file.new.items ≡ front.items ++ drop (length front.items) file.old.items }
{
    if front.len() <= file.len() {
        file.write_at(0, front.as_slice());
    } else {
        *file = front;
    }
}

/// Puts bytes over the front of the file of this path, which stands at `at`.
fn put_over(files: &mut [MemFile], at: usize, path: &[u8], bytes: Bytes)
    requires { IsFirstAt path.now files.old at }
    ensures here { PutsFront path.now bytes.items files.old files.new }
    ensures elsewhere { OthersStayAt path.now files.old files.new }
{
    put_front(&mut files[at].bytes, bytes);
}

/// Puts the bytes of a whole part back, into a new file where there is none.
fn put_whole(files: &mut Vec<MemFile>, path: Bytes, bytes: Bytes)
    requires { vec_len files.old < vec_capacity files.old }
    ensures here { PutsFront path.items bytes.items files.old.items files.new.items }
    ensures elsewhere { OthersStayAt path.items files.old.items files.new.items }
    ensures room { TakesOneRoom files.old files.new }
{
    match find_file(files.as_slice(), path.as_slice()) {
        Some(at) => put_over(files.as_mut_slice(), at, path.as_slice(), bytes),
        None => files.push_reserved(MemFile { path, bytes }),
    }
}

/// Puts one stripe's pages back.
fn put_striped(files: &mut [MemFile], path: &[u8], bytes: &[u8], cut: &Cut, stripe: u32)
    requires file { HasLength (cut.now.pages * cut.now.layout.page_size) (file_at (files_in files.old) path.now) }
    requires bytes { length bytes.now ≡ cut.now.pages * cut.now.layout.page_size }
    ensures here { PutsStripeAt path.now cut.now stripe bytes.now files.old files.new }
    ensures elsewhere { OthersStayAt path.now files.old files.new }
{
    if let Some(at) = find_file(files, path) {
        put_pages(&mut files[at].bytes, bytes, cut, stripe);
    }
}

/// Puts a part back into the file of its path. It takes no memory.
pub(crate) fn put_back(files: &mut Vec<MemFile>, part: MemPart)
    requires fits { IsLongEnough part.path.items part.shape files.old.items }
    requires room { vec_len files.old < vec_capacity files.old }
    ensures back { PutsPart (mem_seen part) (files_in files.old.items) (files_in files.new.items) }
    ensures room { TakesOneRoom files.old files.new }
{
    let MemPart {
        path,
        shape,
        bytes,
        made,
        ..
    } = part;
    if !made {
        return;
    }
    match shape {
        Shape::Striped { cut, stripe } => put_striped(
            files.as_mut_slice(),
            path.as_slice(),
            bytes.as_slice(),
            &cut,
            stripe,
        ),
        Shape::Whole { .. } => put_whole(files, path, bytes),
    }
}
