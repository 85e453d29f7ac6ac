//! The folder that the program runs in. It tells no files: what it answers is bound by its count of faults alone, and that it
//! names the right file is by reading it.
ghost use Rattle.std.specs.Prelude.{◌≡◌, ◌≤◌, None, length, IfOk, IfSome};

use crate::dir_part::DirPart;
use crate::folder::{Cut, Folder, FolderFault};
use crate::mem_part::Shape;
use page_base::laws::lists_by_place;
use page_base::{Bytes, List};
use std::alloc::Global;
use std::fs::{File, OpenOptions};
use std::io::{Read, Write};
use std::rt::Files;
use std::{fs, io};

/// Files by path, relative to the folder that the program runs in.
#[derive(Drop)]
pub struct DirFolder<R> {
    rt: R,
    alloc: Global,
    faults: u64,
}

/// A path that isn't UTF-8 names no file.
fn text_of(path: &Bytes) -> io::Result<&str>
    ensures same { IfOk result (λ text. text.now ≡ path.now.items) }
{
    match str::from_utf8(path.as_slice()) {
        Ok(text) => Ok(text),
        Err(_) => Err(io::ErrorKind::InvalidInput.into()),
    }
}

/// The length of a regular file, none where there is nothing of this name.
fn length_of<R: Files<File = File>>(rt: &R, path: &str) -> io::Result<Option<u64>> {
    match fs::metadata(rt, path) {
        Ok(found) if found.is_file() => Ok(Some(found.len())),
        Ok(_) => Err(io::ErrorKind::InvalidInput.into()),
        Err(error) if error.kind() == io::ErrorKind::NotFound => Ok(None),
        Err(error) => Err(error),
    }
}

/// The length of a file that can be read, and written where it is to be; none where there is none.
fn length_to_open<R: Files<File = File>>(
    rt: &R,
    path: &str,
    writable: bool,
) -> io::Result<Option<u64>> {
    let found = length_of(rt, path)?;
    if found.is_some() {
        OpenOptions::new()
            .read(true)
            .write(writable)
            .open(rt, path)?;
    }
    Ok(found)
}

/// Reads from the start on until the buffer is full or the file ends.
fn read_start(file: &mut File, buf: &mut [u8]) -> io::Result<usize>
    ensures within { IfOk result (λ n. n ≤ length buf.new) }
{
    let mut at = 0;
    while at < buf.len() {
        let count = file.read(&mut buf[at..])?;
        if count == 0 {
            break;
        }
        at += count;
    }
    Ok(at)
}

/// Reads a file's first bytes, none where there is no file.
fn read_file<R: Files<File = File>>(
    rt: &R,
    path: &Bytes,
    buf: &mut [u8],
) -> io::Result<Option<usize>>
    ensures within { IfOk result (λ read. IfSome read (λ n. n ≤ length buf.new)) }
{
    match fs::open(rt, text_of(path)?) {
        Ok(mut file) => Ok(Some(read_start(&mut file, buf)?)),
        Err(error) if error.kind() == io::ErrorKind::NotFound => Ok(None),
        Err(error) => Err(error),
    }
}

/// Makes a file of these bytes, and the folders that it lies in.
fn write_file<R: Files<File = File>>(rt: &R, path: &Bytes, bytes: &[u8]) -> io::Result<()> {
    let text = text_of(path)?;
    if let Some(end) = text.rfind('/') {
        fs::create_dir_all(rt, &text[..end])?;
    }
    File::create_new(rt, text)?.write_all(bytes)
}

impl<R: Files<File = File> + Clone + Drop> DirFolder<R> {
    ghost use Rattle.std.specs.Prelude.{IfErr};
    ghost use Rattle.file_store.specs.Folders.{HasReason, IsFailed};
    ghost use Rattle.file_store.specs.InsideDirParts.{IsFreshPart};

    /// The folder that the program runs in.
    pub fn new(alloc: Global, rt: R) -> DirFolder<R>
        ensures seen { ⟦<DirFolder<R> as Folder>⟧.seen result ≡ record { told = None; count = 0 } }
    {
        DirFolder {
            rt,
            alloc,
            faults: 0,
        }
    }

    /// Counts a failed call.
    fn fail(&mut self) -> FolderFault
        ensures later { self.old.faults ≤ self.new.faults }
        ensures reason { HasReason self.old.faults self.new.faults result }
        ensures failed { IsFailed result }
    {
        self.faults = self.faults.saturating_add(1);
        FolderFault::Failed {
            faults: self.faults,
        }
    }

    /// A part that was just opened.
    fn part(
        &self,
        path: &str,
        shape: Shape,
        length: u64,
        made: bool,
    ) -> Result<DirPart<R>, FolderFault>
        ensures part { IfOk result (IsFreshPart path.now shape made) }
        ensures memory { IfErr result (λ e. e ≡ FolderFault.OutOfMemory) }
    {
        let rt = self.rt.clone()?;
        let path = String::from_str(self.alloc, path)?;
        Ok(DirPart {
            rt,
            path,
            shape,
            length,
            made,
            faults: 0,
        })
    }
}

impl<R: Files<File = File> + Clone + Drop> Folder for DirFolder<R> {
    type Part = DirPart<R>;

    ghost use Rattle.std.specs.Prelude.{None};

    ghost seen = { λ s. record { told = None; count = s.faults } };

    fn length(&mut self, path: &Bytes) -> Result<Option<u64>, FolderFault> {
        let Ok(text) = text_of(path) else {
            return Err(self.fail());
        };
        match length_of(&self.rt, text) {
            Ok(found) => Ok(found),
            Err(_) => Err(self.fail()),
        }
    }

    fn read_head(&mut self, path: &Bytes, buf: &mut [u8]) -> Result<usize, FolderFault> {
        match read_file(&self.rt, path, buf) {
            Ok(Some(count)) => Ok(count),
            Ok(None) => Err(FolderFault::Missing),
            Err(_) => Err(self.fail()),
        }
    }

    fn write_new(&mut self, path: &Bytes, bytes: &[u8]) -> Result<(), FolderFault> {
        match write_file(&self.rt, path, bytes) {
            Ok(()) => Ok(()),
            Err(_) => Err(self.fail()),
        }
    }

    fn open_striped(&mut self, path: &Bytes, cut: &Cut) -> Result<List<DirPart<R>>, FolderFault> {
        lists_by_place::<DirPart<R>>();
        let Ok(text) = text_of(path) else {
            return Err(self.fail());
        };
        let Ok(found) = length_to_open(&self.rt, text, cut.writable) else {
            return Err(self.fail());
        };
        let need = u64::from(cut.pages) * u64::from(cut.layout.page_size());
        let Some(have) = found else {
            return Err(FolderFault::Missing);
        };
        if have < need {
            return Err(FolderFault::TooShort { have, need });
        }
        let stripes = cut.layout.stripes();
        let mut parts = List::new(self.alloc);
        parts.reserve(stripes as usize)?;
        for stripe in 0..stripes {
            parts.put(self.part(text, Shape::Striped { cut: *cut, stripe }, need, true)?);
        }
        Ok(parts)
    }

    fn open_whole(
        &mut self,
        path: &Bytes,
        length: u64,
        writable: bool,
    ) -> Result<DirPart<R>, FolderFault> {
        let Ok(text) = text_of(path) else {
            return Err(self.fail());
        };
        let Ok(found) = length_to_open(&self.rt, text, writable) else {
            return Err(self.fail());
        };
        if let Some(have) = found {
            if have < length {
                return Err(FolderFault::TooShort { have, need: length });
            }
        }
        self.part(text, Shape::Whole { size: length }, length, found.is_some())
    }

    fn close_part(&mut self, part: DirPart<R>) {
        if part.faults > 0 {
            self.faults = self.faults.saturating_add(1);
        }
    }

    fn faults(&self) -> u64 {
        self.faults
    }
}
