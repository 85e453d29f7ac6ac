//! Why a text is no workload.
//!
//! The kinds stand in the order in which the tests of one line come.

ghost use Rattle.std.specs.Prelude.{◌≡◌};
ghost use Rattle.workload_text.specs.InsideAnswers.{text_fault_at};
ghost use Rattle.workload_text.specs.declared.refusal.TextFault.TheVariants as text;
ghost use Rattle.workload_text.specs.declared.refusal.LineFault.TheVariants as line;

use page_base::OutOfMemory;

#[derive(Clone, Copy, Debug, PartialEq, Eq)]
pub enum TextKind {
    /// The text has more than `MOST_TEXT_BYTES`.
    Long,
    /// The last line has no line feed.
    Unended,
    /// A field is empty, the first word is unknown, or the number of fields isn't the form's.
    Line,
    /// The third word of a `map` line is no kind of store.
    Kind,
    /// A `map` line behind a `script` line, or a command above all of them.
    Order,
    /// This kind and the next four: the first misspelt field from the left is one of these.
    Name,
    Path,
    Number,
    Hex,
    Mode,
    /// No `map` line has the region's name.
    Unknown,
    /// An earlier script has the name.
    Double,
    /// The range ends behind its region.
    Range,
    /// A store to a region that is mapped `ro`.
    ReadOnly,
    /// A limit on regions, scripts, commands or loaded bytes is passed.
    Many,
}

#[derive(Clone, Copy, Debug)]
pub enum TextFault {
    /// Lines are counted from 1; line 0 is the text as a whole.
    Refused { line: u32, kind: TextKind },
    OutOfMemory,
}

impl From<OutOfMemory> for TextFault {
    ghost from_gives = { λ _ e. e ≡ text.OutOfMemory };

    fn from(_: OutOfMemory) -> TextFault {
        TextFault::OutOfMemory
    }
}

/// Why one line isn't taken.
pub enum LineFault {
    Refused(TextKind),
    OutOfMemory,
}

impl From<OutOfMemory> for LineFault {
    ghost from_gives = { λ _ e. e ≡ line.OutOfMemory };

    fn from(_: OutOfMemory) -> LineFault {
        LineFault::OutOfMemory
    }
}

impl LineFault {
    /// The fault of a text that has this line.
    pub fn at(self, line: u32) -> TextFault
        ensures { result ≡ text_fault_at line self }
    {
        match self {
            LineFault::Refused(kind) => TextFault::Refused { line, kind },
            LineFault::OutOfMemory => TextFault::OutOfMemory,
        }
    }
}
