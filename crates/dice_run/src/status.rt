//! How a run ended.
ghost use Rattle.std.specs.Prelude.{◌≡◌};
ghost use Rattle.dice_run.specs.Run.{code_of};

/// How a run ended.
#[derive(Clone, Copy, Debug, PartialEq, Eq)]
pub enum Status {
    /// The whole output was written; the script of a `run` was read to its end.
    Done,
    /// The words of the command line were refused; nothing was read or written.
    WordsRefused,
    /// The source failed; nothing was written.
    ReadFailed,
    /// The sink failed; it holds a beginning of the output, or of the line of the script's fault.
    WriteFailed,
    /// The script is too long or not in the grammar; its first fault was written.
    ScriptRefused,
    /// Memory was refused; nothing was written.
    NoMemory,
}

impl Status {
    /// The program's exit status.
    pub fn code(self) -> u8
        ensures { result ≡ code_of self }
    {
        match self {
            Status::Done => 0,
            Status::WordsRefused => 2,
            Status::ReadFailed => 3,
            Status::WriteFailed => 4,
            Status::ScriptRefused => 5,
            Status::NoMemory => 6,
        }
    }
}
