//! Where output goes.
//!
//! A sink may fail at any write, and then says so by its count of faults. What it took before it failed is a front part
//! of what was given.
ghost use Rattle.std.specs.Prelude.{◌≡◌, ◌≤◌, ℕ, List, [], length, not, Option, Some, IsOk, OnOk, OnErr, is_ok, take};
ghost use Rattle.std.specs.Option.{option_map};
ghost use Rattle.std.specs.Io.KnownBytes.{Appends};
ghost use Rattle.store_trait.specs.Causes.{HasCause};
ghost use Rattle.file_store.specs.Streams.{AppendsFront, failing_at, write_fails, after_write};

use page_base::{Bytes, List};
use std::io::Write;
use std::marker::Model;
use thiserror::Error;

/// A write failed. It carries the sink's count of faults after the call.
#[derive(Clone, Copy, Debug, PartialEq, Eq, Error)]
#[error("sink fault {faults}")]
pub struct SinkFault {
    pub faults: u64,
}

pub trait Sink {
    /// The bytes that were written, where the sink tells them.
    ghost written: { Self → Option (List ℕ) };

    /// How many writes have failed.
    ghost fault_count: { Self → ℕ };

    /// Writes all of these bytes; a fault says that only a front part of them may be written, and how many writes
    /// have failed.
    fn write_all(&mut self, bytes: &[u8]) -> Result<(), SinkFault>
        ensures ok { OnOk result (Appends (written self.old) (written self.new) bytes.now) }
        ensures err { OnErr result (AppendsFront (written self.old) (written self.new) bytes.now) }
        ensures cause { HasCause (λ e. e.faults) (fault_count self.old) (fault_count self.new) result };
}

/// The write of this number, counted from 1, takes at most so many bytes and fails.
#[derive(Clone, Copy, Debug, PartialEq, Eq)]
pub struct FailingWrite {
    pub number: u64,
    pub takes: usize,
}

/// Appends to the bytes that it was made with, as far as these have room. A write fails where its number is stated, or
/// where there isn't room enough for it, and nowhere else.
#[derive(Drop)]
pub struct MemSink {
    bytes: Bytes,
    failing: List<FailingWrite>,
    writes: u64,
    faults: u64,
}

impl Model for MemSink {
    ghost use Rattle.file_store.specs.Streams.{SinkSeen};

    ghost Value = { SinkSeen };

    ghost view = { λ s. record {
      written = s.bytes.items;
      spare = s.bytes.spare;
      failing = s.failing.items;
      writes = s.writes;
      faults = s.faults;
    } };
}

impl MemSink {
    /// A sink that puts bytes behind these, and whose listed writes fail; it takes no memory beyond the spare room of
    /// `bytes`.
    pub fn new(bytes: Bytes, failing: List<FailingWrite>) -> MemSink
        ensures { result ≡ record {
          written = bytes.items;
          spare = bytes.spare;
          failing = failing.items;
          writes = 0;
          faults = 0;
        } }
    {
        MemSink {
            bytes,
            failing,
            writes: 0,
            faults: 0,
        }
    }

    /// All bytes that it holds: those that it was made with, and behind them those that were written.
    pub fn into_bytes(self) -> Bytes
        ensures { result.items ≡ self.written }
    {
        self.bytes
    }
}

/// How many bytes the write of this number takes at most, where it is to fail.
fn takes_at(failing: &[FailingWrite], number: u64) -> Option<usize>
    ensures { result ≡ option_map (λ f. f.takes) (failing_at failing.now number) }
{
    match failing.iter().find(|each| each.number == number) {
        Some(each) => Some(each.takes),
        None => None,
    }
}

impl Sink for MemSink {
    ghost written = { λ s. Some s.written };

    ghost fault_count = { λ s. s.faults };

    fn write_all(&mut self, bytes: &[u8]) -> Result<(), SinkFault>
        ensures ok { OnOk result (Appends (Some self.old.written) (Some self.new.written) bytes.now) }
        ensures err { OnErr result (AppendsFront (Some self.old.written) (Some self.new.written) bytes.now) }
        ensures cause { HasCause (λ e. e.faults) self.old.faults self.new.faults result }
        ensures quiet { self.old.failing ≡ [] → length bytes.now ≤ self.old.spare → IsOk result }
        ensures fails { is_ok result ≡ not (write_fails self.old bytes.now) }
        ensures after { self.new ≡ after_write self.old bytes.now }
    {
        self.writes = self.writes.saturating_add(1);
        let failing = takes_at(self.failing.as_slice(), self.writes);
        let wanted = failing.unwrap_or(bytes.len()).min(bytes.len());
        let count = wanted.min(self.bytes.spare());
        self.bytes.put_all(&bytes[..count]);
        if failing.is_none() && count == bytes.len() {
            return Ok(());
        }
        self.faults = self.faults.saturating_add(1);
        Err(SinkFault {
            faults: self.faults,
        })
    }
}

/// A writer of std, such as standard output. Its failed writes are counted, and so is a write that takes nothing.
#[derive(Drop)]
pub struct StdSink<W> {
    inner: W,
    faults: u64,
}

impl<W: Write> StdSink<W> {
    /// A sink over a writer of std, none of whose writes has failed yet.
    pub fn new(inner: W) -> StdSink<W>
        ensures written { ⟦<StdSink<W> as Sink>⟧.written result ≡ W.contents inner }
        ensures count { ⟦<StdSink<W> as Sink>⟧.fault_count result ≡ 0 }
    {
        StdSink { inner, faults: 0 }
    }
}

/// How many bytes the writer took, none where the write failed.
fn write_some<W: Write>(writer: &mut W, bytes: &[u8]) -> usize
    ensures within { result ≤ length bytes.now }
    ensures bytes { Appends (W.contents writer.old) (W.contents writer.new) (take result bytes.now) }
{
    match writer.write(bytes) {
        Ok(count) => count,
        Err(_) => 0,
    }
}

impl<W: Write> Sink for StdSink<W> {
    ghost written = { λ s. W.contents s.inner };

    ghost fault_count = { λ s. s.faults };

    fn write_all(&mut self, bytes: &[u8]) -> Result<(), SinkFault> {
        let mut at = 0;
        while at < bytes.len() {
            let taken = write_some(&mut self.inner, &bytes[at..]);
            if taken == 0 {
                self.faults = self.faults.saturating_add(1);
                return Err(SinkFault {
                    faults: self.faults,
                });
            }
            at += taken;
        }
        Ok(())
    }
}
