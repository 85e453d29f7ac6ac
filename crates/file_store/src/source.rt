//! Where input comes from.
//!
//! A source may fail at any read, and then says so by its count of faults.
ghost use Rattle.std.specs.Prelude.{◌≡◌, ◌<◌, ℕ, List, [], length, min, not, Option, Some, IsOk, IfOk, is_ok};
ghost use Rattle.std.specs.Io.{ReadsAtMost};
ghost use Rattle.std.specs.Io.KnownBytes.{ReadConsumes};
ghost use Rattle.store_trait.specs.Causes.{HasCause};
ghost use Rattle.file_store.specs.Streams.{read_fails, after_read};

use page_base::{Bytes, List};
use std::io::Read;
use std::marker::Model;
use thiserror::Error;

/// A read failed. It carries the source's count of faults after the call.
#[derive(Clone, Copy, Debug, PartialEq, Eq, Error)]
#[error("source fault {faults}")]
pub struct SourceFault {
    pub faults: u64,
}

pub trait Source {
    /// The bytes that are left, where the source tells them.
    ghost left: { Self → Option (List ℕ) };

    /// How many reads have failed.
    ghost fault_count: { Self → ℕ };

    /// Gives the next bytes, as many as it likes up to the length of `buf`. `Ok(0)` is the end of input.
    fn read(&mut self, buf: &mut [u8]) -> Result<usize, SourceFault>
        requires room { 0 < length buf.old }
        ensures bound { ReadsAtMost result buf.new }
        ensures bytes { ReadConsumes (left self.old) (left self.new) result buf.new }
        ensures cause { HasCause (λ e. e.faults) (fault_count self.old) (fault_count self.new) result };
}

/// Bytes in memory. The reads of stated numbers, counted from 1, fail, and no others do. A read that doesn't fail gives
/// as many bytes as there is room for, or are left.
#[derive(Drop)]
pub struct MemSource {
    contents: Bytes,
    at: usize,
    failing: List<u64>,
    reads: u64,
    faults: u64,
}

impl Model for MemSource {
    ghost use Rattle.std.specs.Prelude.{◌≤◌, drop, length};
    ghost use Rattle.file_store.specs.Streams.{SourceSeen};

    ghost Value = { SourceSeen };

    ghost view = { λ s. record {
      left = drop s.at s.contents.items;
      failing = s.failing.items;
      reads = s.reads;
      faults = s.faults;
    } };

    ghost invariant = { λ s. s.at ≤ length s.contents.items };
}

impl MemSource {
    /// A source of these bytes, from the first on; `failing` has the numbers, counted from 1, of the reads that fail.
    pub fn new(contents: Bytes, failing: List<u64>) -> MemSource
        ensures { result ≡ record { left = contents.items; failing = failing.items; reads = 0; faults = 0 } }
    {
        MemSource {
            contents,
            at: 0,
            failing,
            reads: 0,
            faults: 0,
        }
    }
}

impl Source for MemSource {
    ghost left = { λ s. Some s.left };

    ghost fault_count = { λ s. s.faults };

    fn read(&mut self, buf: &mut [u8]) -> Result<usize, SourceFault>
        requires room { 0 < length buf.old }
        ensures bound { ReadsAtMost result buf.new }
        ensures bytes { ReadConsumes (Some self.old.left) (Some self.new.left) result buf.new }
        ensures cause { HasCause (λ e. e.faults) self.old.faults self.new.faults result }
        ensures quiet { self.old.failing ≡ [] → IsOk result }
        ensures fails { is_ok result ≡ not (read_fails self.old) }
        ensures count { IfOk result (λ n. n ≡ min (length buf.old) (length self.old.left)) }
        ensures after { self.new ≡ after_read self.old (length buf.old) }
    {
        self.reads = self.reads.saturating_add(1);
        if self.failing.as_slice().contains(&self.reads) {
            self.faults = self.faults.saturating_add(1);
            return Err(SourceFault {
                faults: self.faults,
            });
        }
        let rest = &self.contents.as_slice()[self.at..];
        let count = buf.len().min(rest.len());
        buf[..count].copy_from_slice(&rest[..count]);
        self.at += count;
        Ok(count)
    }
}

/// A reader of std, such as standard input. Its failed reads are counted.
#[derive(Drop)]
pub struct StdSource<R> {
    inner: R,
    faults: u64,
}

impl<R: Read> StdSource<R> {
    /// A source over a reader of std, none of whose reads has failed yet.
    pub fn new(inner: R) -> StdSource<R>
        ensures left { ⟦<StdSource<R> as Source>⟧.left result ≡ R.remaining inner }
        ensures count { ⟦<StdSource<R> as Source>⟧.fault_count result ≡ 0 }
    {
        StdSource { inner, faults: 0 }
    }
}

impl<R: Read> Source for StdSource<R> {
    ghost left = { λ s. R.remaining s.inner };

    ghost fault_count = { λ s. s.faults };

    fn read(&mut self, buf: &mut [u8]) -> Result<usize, SourceFault> {
        match self.inner.read(buf) {
            Ok(count) => Ok(count),
            Err(_) => {
                self.faults = self.faults.saturating_add(1);
                Err(SourceFault {
                    faults: self.faults,
                })
            }
        }
    }
}
