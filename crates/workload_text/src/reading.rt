//! The reader: what has been read so far, and how one more line is taken.
//!
//! The methods for the forms stand in `maps`, `scripts` and `commands`. Each tests in the order in
//! which the kinds of refusal come, and its clause says that it takes what the reading function reads.
ghost use Rattle.std.specs.Prelude.{◌≡◌, IfOk, []};
ghost use Rattle.workload_text.specs.Grammar.{nothing};
ghost use Rattle.workload_text.specs.View.{lines_of};
ghost use Rattle.workload_text.specs.Reading.{read_word, read_line, read_text_line};
ghost use Rattle.workload_text.specs.InsideCuts.{fields_left};
ghost use Rattle.workload_text.specs.InsideState.{TakesBy, TakesText, IsSound, said_by, lines_by};

use crate::cut::{is_silent, next_field, one, three};
use crate::refusal::{LineFault, TextKind};
use crate::workload::{MapLine, Parsed, Script, Workload};
use page_base::{List, OutOfMemory};
use std::alloc::Global;

/// What has been read so far.
#[derive(Drop)]
pub struct Reading {
    pub(crate) alloc: Global,
    /// The number of the line that is being read.
    pub(crate) line: u32,
    pub(crate) maps: List<MapLine>,
    pub(crate) map_lines: List<u32>,
    /// The scripts before the one that commands go to.
    pub(crate) scripts: List<Script>,
    pub(crate) current: Option<Script>,
    pub(crate) commands: u32,
    pub(crate) loaded: u32,
}

pub(crate) fn refused(kind: TextKind) -> Result<(), LineFault>
    ensures { result ≡ Err (LineFault.Refused kind) }
{
    Err(LineFault::Refused(kind))
}

impl Reading {
    pub fn new(alloc: Global) -> Reading
        ensures lines { lines_by result ≡ [] }
        ensures said { said_by result ≡ nothing }
        ensures numbers { result.map_lines.items ≡ [] }
        ensures sound { IsSound result }
    {
        Reading {
            alloc,
            line: 0,
            maps: List::new(alloc),
            map_lines: List::new(alloc),
            scripts: List::new(alloc),
            current: None,
            commands: 0,
            loaded: 0,
        }
    }

    /// Takes the line of this number.
    #[tactic(auto, unfolding(crate::specs::Reading::read_text_line))]
    pub fn take(&mut self, number: u32, text: &[u8]) -> Result<(), LineFault>
        requires { IsSound self.old }
        ensures { TakesText number self.old self.new (read_text_line (said_by self.old) text.now) result }
    {
        if is_silent(text) {
            return Ok(());
        }
        self.line = number;
        self.spoken(text)
    }

    fn spoken(&mut self, text: &[u8]) -> Result<(), LineFault>
        requires { IsSound self.old }
        ensures { TakesBy self.old self.new (λ s. read_line s text.now) result }
    {
        match next_field(Some(text)) {
            Some((word, left)) => self.word(word, left),
            None => refused(TextKind::Line),
        }
    }

    #[tactic(auto, unfolding(crate::specs::Reading::read_word))]
    fn word(&mut self, word: &[u8], left: Option<&[u8]>) -> Result<(), LineFault>
        requires { IsSound self.old }
        ensures { TakesBy self.old self.new (λ s. read_word s word.now (fields_left left.entry)) result }
    {
        if word == b"load".as_slice() {
            return match three(left) {
                Some((name, off, len)) => self.load(name, off, len),
                None => refused(TextKind::Line),
            };
        }
        if word == b"store".as_slice() {
            return match three(left) {
                Some((name, off, hex)) => self.store(name, off, hex),
                None => refused(TextKind::Line),
            };
        }
        if word == b"prefetch".as_slice() {
            return match three(left) {
                Some((name, off, len)) => self.prefetch(name, off, len),
                None => refused(TextKind::Line),
            };
        }
        if word == b"script".as_slice() {
            return match one(left) {
                Some(name) => self.begin(name),
                None => refused(TextKind::Line),
            };
        }
        if word == b"map".as_slice() {
            return self.map(left);
        }
        if word == b"unmap".as_slice() {
            return match one(left) {
                Some(name) => self.unmap(name),
                None => refused(TextKind::Line),
            };
        }
        if word == b"flush".as_slice() {
            return match next_field(left) {
                Some(_) => refused(TextKind::Line),
                None => self.flush(),
            };
        }
        refused(TextKind::Line)
    }

    pub fn finish(self) -> Result<Parsed, OutOfMemory>
        ensures lines { IfOk result (λ p. lines_of p.workload ≡ lines_by self) }
        ensures numbers { IfOk result (λ p. p.map_lines ≡ self.map_lines) }
    {
        let Reading {
            alloc: _,
            line: _,
            maps,
            map_lines,
            mut scripts,
            current,
            commands: _,
            loaded: _,
        } = self;
        if let Some(last) = current {
            scripts.push(last)?;
        }
        Ok(Parsed {
            workload: Workload { maps, scripts },
            map_lines,
        })
    }
}
