//! What is wrong with a script, and where.
ghost use Rattle.std.specs.Prelude.{◌≡◌, Some};
ghost use Rattle.std.specs.Fmt.{padded};
ghost use Rattle.script.specs.Words.{text_of};
ghost use Rattle.script.specs.Refusals.{refusal_text};
ghost use Rattle.script.specs.declared.fault.Stop.TheVariants as stop;

use std::alloc::AllocError;
use std::error::Error;
use std::fmt;

/// The test of a line that failed.
#[derive(Clone, Copy, Debug, PartialEq, Eq)]
pub enum Word {
    /// The first word is none of the table, or the number of words is wrong.
    Word,
    /// Not a path.
    Path,
    /// The path was put or dropped since the last commit.
    Twice,
    /// Not a decimal number, or above 4,194,304.
    Number,
    /// Fewer bytes are left, or neither an LF nor the end follows them.
    Count,
    /// Not a name.
    Name,
    /// An earlier transaction or request has this name.
    Taken,
    /// The transaction was not opened, or was closed.
    Open,
    /// Not an absolute label.
    Label,
    /// No earlier request has this name.
    Unknown,
    /// The request was waited for, and cannot be cancelled.
    Answered,
    /// The request was cancelled.
    Cancelled,
}

impl Word {
    /// The word as it prints.
    pub fn text(self) -> &'static str
        ensures { result.now ≡ text_of self }
    {
        match self {
            Word::Word => "word",
            Word::Path => "path",
            Word::Twice => "twice",
            Word::Number => "number",
            Word::Count => "count",
            Word::Name => "name",
            Word::Taken => "taken",
            Word::Open => "open",
            Word::Label => "label",
            Word::Unknown => "unknown",
            Word::Answered => "answered",
            Word::Cancelled => "cancelled",
        }
    }
}

impl fmt::Display for Word {
    ghost output = { λ word. Some (text_of word) };

    ghost styled_output = { λ word options. Some (padded options (text_of word)) };

    fn fmt<W: fmt::Write>(&self, f: &mut fmt::Formatter<W>) -> fmt::Result {
        f.pad(self.text())
    }
}

/// Why a script was refused.
#[derive(Clone, Copy, Debug, PartialEq, Eq)]
pub enum ScriptRefusal {
    /// The first line with a fault, and there the first test that fails. The line's number is 1
    /// plus the LFs before it, those in put bytes counted.
    Fault { line: usize, word: Word },
    /// The script has more than 4,194,304 bytes.
    TooLong,
    /// Memory was refused.
    NoMemory,
}

impl fmt::Display for ScriptRefusal {
    ghost output = { λ refusal. Some (refusal_text refusal) };

    fn fmt<W: fmt::Write>(&self, f: &mut fmt::Formatter<W>) -> fmt::Result {
        match self {
            ScriptRefusal::Fault { line, word } => write!(f, "line {line}: {word}"),
            ScriptRefusal::TooLong => f.write_str("script too long"),
            ScriptRefusal::NoMemory => f.write_str("no memory"),
        }
    }
}

impl Error for ScriptRefusal {}

/// Why a line was not taken.
#[derive(Clone, Copy)]
pub(crate) enum Stop {
    Fault(Word),
    NoMemory,
}

impl From<AllocError> for Stop {
    ghost from_gives = { λ _ e. e ≡ stop.NoMemory };

    fn from(_: AllocError) -> Stop {
        Stop::NoMemory
    }
}
