//! A part of a real file. It keeps the file's path and opens the file anew at each call, so that no limit on open files is
//! met. It tells no contents.
//!
//! That these few lines read and write the file and the place that they name is by reading them: no contract can say what a
//! file holds. Every error counts as a fault, and so does a read or a write that ends before all bytes have moved.
ghost use Rattle.std.specs.Prelude.{◌≡◌, ◌≤◌, ◌<◌, ◌^◌};

use crate::mem_part::Shape;
use crate::part::{Part, PartFault};
use std::fs::{File, OpenOptions};
use std::os::unix::fs::FileExt;
use std::rt::Files;
use std::{fs, io};

/// A part of a real file.
#[derive(Drop)]
pub struct DirPart<R> {
    pub(crate) rt: R,
    pub(crate) path: String,
    pub(crate) shape: Shape,
    pub(crate) length: u64,
    pub(crate) made: bool,
    pub(crate) faults: u64,
    pub ghost counted: { faults < 2 ^ 64 },
}

fn read_part<R: Files<File = File>>(
    rt: &R,
    path: &String,
    buf: &mut [u8],
    place: u64,
) -> io::Result<()> {
    fs::open(rt, path)?.read_exact_at(buf, place)
}

fn write_part<R: Files<File = File>>(
    rt: &R,
    path: &String,
    buf: &[u8],
    place: u64,
) -> io::Result<()> {
    OpenOptions::new()
        .write(true)
        .open(rt, path)?
        .write_all_at(buf, place)
}

/// Makes the file, of so many zeros, and the folders that it lies in.
fn make_file<R: Files<File = File>>(rt: &R, path: &str, length: u64) -> io::Result<()> {
    if let Some(end) = path.rfind('/') {
        fs::create_dir_all(rt, &path[..end])?;
    }
    fs::create(rt, path)?.set_len(length)
}

impl<R> DirPart<R> {
    ghost use Rattle.page_base.specs.Lanes.{Rose};

    /// Counts a failed call.
    fn fail(&mut self) -> PartFault
        ensures same { self.new ≡ record self.old { faults = self.new.faults; counted = self.new.counted } }
        ensures later { self.old.faults ≤ self.new.faults }
        ensures rose { Rose self.old.faults self.new.faults }
        ensures carried { result.faults ≡ self.new.faults }
    {
        self.faults = self.faults.saturating_add(1);
        PartFault {
            faults: self.faults,
        }
    }
}

impl<R: Files<File = File>> Part for DirPart<R> {
    ghost use Rattle.std.specs.Prelude.{[], string_bytes};
    ghost use Rattle.file_store.specs.InsideMemParts.{name_of, mem_named};

    ghost seen = { λ p. record { name = name_of (string_bytes p.path) p.shape; made = p.made; told = []; count = p.faults } };

    ghost named = { λ p. mem_named (string_bytes p.path) p.shape };

    ghost whole_pieces = { λ p k. tt };

    ghost small_count = { λ p. p.counted };

    fn made(&self) -> bool {
        self.made
    }

    fn make(&mut self) -> Result<(), PartFault> {
        if make_file(&self.rt, self.path.as_str(), self.length).is_err() {
            return Err(self.fail());
        }
        self.made = true;
        Ok(())
    }

    fn read_at(&mut self, buf: &mut [u8], place: u64) -> Result<(), PartFault> {
        match read_part(&self.rt, &self.path, buf, place) {
            Ok(()) => Ok(()),
            Err(_) => Err(self.fail()),
        }
    }

    fn write_at(&mut self, buf: &[u8], place: u64) -> Result<(), PartFault> {
        match write_part(&self.rt, &self.path, buf, place) {
            Ok(()) => Ok(()),
            Err(_) => Err(self.fail()),
        }
    }

    fn faults(&self) -> u64 {
        self.faults
    }
}
