//! What the command ends with.
ghost use Rattle.std.specs.Prelude.{◌≡◌, ◌+◌, ◌≤◌, ◌++◌, length, take};
ghost use Rattle.std.specs.Fmt.{decimal};
ghost use Rattle.call_words.specs.Calls.{option_text, setting_text};
ghost use Rattle.umapsh.specs.Status.{status_code, status_text, kind_text, rule_text, refusal_text, words_text, stop_text};

use crate::refusal::Refusal;
use call_words::{OptionName, SettingName, WordsFault};
use file_store::FolderFault;
use script_run::RegionKind;
use workload_text::TextKind;

#[derive(Clone, Copy, Debug, PartialEq, Eq)]
pub enum Status {
    /// Every line ran, and every reply was written.
    Done,
    /// A line names a fault of its store, or a last write failed.
    StoreFault,
    /// The input is no workload that can be run; lines are counted from 1, and line 0 is the text as a whole.
    Refused { line: u32, kind: Refusal },
    Words(WordsFault),
    /// The first region that couldn't be opened, by its number, and why; never for want of memory.
    Folder { region: u16, fault: FolderFault },
    /// There was no memory to begin with.
    Memory,
    /// The output couldn't be written to its end. It carries the sink's count of faults.
    SinkFault { faults: u64 },
    /// The input couldn't be read to its end. It carries the source's count of faults.
    SourceFault { faults: u64 },
}

/// Writes a text into `out` from `at` on, and answers where it ends.
fn put(out: &mut [u8; 128], at: usize, text: &[u8]) -> usize
    requires { at + length text.now ≤ 128 }
    ensures end { result ≡ at + length text.now }
    ensures bytes { take result out.new ≡ take at out.old ++ text.now }
{
    out[at..at + text.len()].copy_from_slice(text);
    at + text.len()
}

/// Writes a number in decimal.
fn put_number(out: &mut [u8; 128], at: usize, number: u64) -> usize
    requires { at + 20 ≤ 128 }
    ensures end { result ≡ at + length (decimal number) }
    ensures short { result ≤ at + 20 }
    ensures bytes { take result out.new ≡ take at out.old ++ decimal number }
{
    let mut buffer = itoa::Buffer::new();
    put(out, at, buffer.format(number).as_bytes())
}

fn kind_name(kind: TextKind) -> &'static [u8]
    ensures text { result.now ≡ kind_text kind }
    ensures short { length result.now ≤ 8 }
{
    match kind {
        TextKind::Long => b"long",
        TextKind::Unended => b"unended",
        TextKind::Line => b"line",
        TextKind::Kind => b"kind",
        TextKind::Order => b"order",
        TextKind::Name => b"name",
        TextKind::Path => b"path",
        TextKind::Number => b"number",
        TextKind::Hex => b"hex",
        TextKind::Mode => b"mode",
        TextKind::Unknown => b"unknown",
        TextKind::Double => b"double",
        TextKind::Range => b"range",
        TextKind::ReadOnly => b"readonly",
        TextKind::Many => b"many",
    }
}

fn rule_name(kind: RegionKind) -> &'static [u8]
    ensures text { result.now ≡ rule_text kind }
    ensures short { length result.now ≤ 14 }
{
    match kind {
        RegionKind::SameName => b"same name",
        RegionKind::SameStore => b"same store",
        RegionKind::BadLength => b"bad length",
        RegionKind::TooManyPages => b"too many pages",
    }
}

fn refusal_name(kind: Refusal) -> &'static [u8]
    ensures text { result.now ≡ refusal_text kind }
    ensures short { length result.now ≤ 14 }
{
    match kind {
        Refusal::Text(kind) => kind_name(kind),
        Refusal::Region(kind) => rule_name(kind),
        Refusal::Unbuilt => b"unbuilt",
    }
}

fn option_name(name: OptionName) -> &'static [u8]
    ensures text { result.now ≡ option_text name }
    ensures short { length result.now ≤ 31 }
{
    name.text().as_bytes()
}

fn setting_name(name: SettingName) -> &'static [u8]
    ensures text { result.now ≡ setting_text name }
    ensures short { length result.now ≤ 31 }
{
    name.text().as_bytes()
}

/// Writes why words and variables are refused, in at most 40 bytes.
fn put_words(out: &mut [u8; 128], at: usize, fault: WordsFault) -> usize
    requires { at + 40 ≤ 128 }
    ensures short { result ≤ at + 40 }
    ensures bytes { take result out.new ≡ take at out.old ++ words_text fault }
{
    match fault {
        WordsFault::NoCommand | WordsFault::UnknownCommand | WordsFault::Words => {
            put(out, at, b"words")
        }
        WordsFault::BadOption { name } => {
            let at = put(out, at, b"option --");
            put(out, at, option_name(name))
        }
        WordsFault::BadSetting { name } => {
            let at = put(out, at, b"setting ");
            put(out, at, setting_name(name))
        }
    }
}

/// Writes why a region couldn't be opened, in at most 51 bytes.
fn put_stop(out: &mut [u8; 128], at: usize, fault: FolderFault) -> usize
    requires { at + 51 ≤ 128 }
    ensures short { result ≤ at + 51 }
    ensures bytes { take result out.new ≡ take at out.old ++ stop_text fault }
{
    match fault {
        FolderFault::Missing => put(out, at, b"missing"),
        FolderFault::TooShort { have, need } => {
            let at = put(out, at, b"too short ");
            let at = put_number(out, at, have);
            let at = put(out, at, b" ");
            put_number(out, at, need)
        }
        FolderFault::Failed { faults } => {
            let at = put(out, at, b"failed ");
            put_number(out, at, faults)
        }
        FolderFault::OutOfMemory => put(out, at, b"out of memory"),
    }
}

impl Status {
    /// The program's exit status.
    pub fn code(&self) -> u8
        ensures { result ≡ status_code self.now }
    {
        match self {
            Status::Done => 0,
            Status::StoreFault => 1,
            Status::Refused { line: _, kind: _ } => 2,
            Status::Words(_) => 3,
            Status::Folder {
                region: _,
                fault: _,
            } => 4,
            Status::Memory => 5,
            Status::SinkFault { faults: _ } => 6,
            Status::SourceFault { faults: _ } => 7,
        }
    }

    /// The line for standard error, with its line feed. It answers the number of bytes.
    pub fn text(&self, out: &mut [u8; 128]) -> usize
        ensures short { result ≤ 128 }
        ensures bytes { take result out.new ≡ status_text self.now }
    {
        match self {
            Status::Done => 0,
            Status::StoreFault => put(out, 0, b"umapsh: store fault\n"),
            Status::Refused { line, kind } => {
                let at = put(out, 0, b"umapsh: line ");
                let at = put_number(out, at, u64::from(*line));
                let at = put(out, at, b": ");
                let at = put(out, at, refusal_name(*kind));
                put(out, at, b"\n")
            }
            Status::Words(fault) => {
                let at = put(out, 0, b"umapsh: ");
                let at = put_words(out, at, *fault);
                put(out, at, b" refused\n")
            }
            Status::Folder { region, fault } => {
                let at = put(out, 0, b"umapsh: region ");
                let at = put_number(out, at, u64::from(*region));
                let at = put(out, at, b": ");
                let at = put_stop(out, at, *fault);
                put(out, at, b"\n")
            }
            Status::Memory => put(out, 0, b"umapsh: out of memory\n"),
            Status::SinkFault { faults: _ } => put(out, 0, b"umapsh: output failed\n"),
            Status::SourceFault { faults: _ } => put(out, 0, b"umapsh: input failed\n"),
        }
    }
}
