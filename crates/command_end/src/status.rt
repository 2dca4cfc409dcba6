//! How a command ends.

ghost use Rattle.std.specs.Prelude.{◌≡◌};

/// How a command ends.
#[derive(Clone, Copy, PartialEq, Eq)]
pub enum Status {
    /// What was asked for is done and printed whole: a report of a payment, a listing, a summary, a PSBT, an accepted report, a
    /// settlement, or a desk's replies.
    Done,
    /// The words are no command.
    Usage,
    /// A file, or what it asks for, is refused.
    Input,
    /// A file wasn't read.
    ReadFault,
    /// The log wasn't written, or what was to be printed wasn't printed whole.
    WriteFault,
    /// The keeper of jobs failed.
    KeepFault,
    /// There was not enough memory.
    Memory,
    /// The kept job is refused: it isn't there, isn't that of the files, or doesn't bear what it says.
    Saved,
    /// A file or the parts of a job are longer than their limit, there are more coins than a book holds, a row of the ladder
    /// keeps more than 10,000 groups, or a job has made all its tries.
    Limit,
    /// The tries are used up, a search is open, and nothing is taken.
    Unfinished,
    /// Nothing pays for what is asked.
    NoSelection,
    /// A report isn't accepted with its log.
    CheckRefused,
    /// A report is of no payment, or a signed transaction isn't that payment or doesn't pay what was asked.
    Settle,
}

impl Status {
    ghost use Rattle.command_end.specs.StatusCode.{code_of};

    /// The status that the process ends with.
    pub fn code(self) -> u8
        ensures { result ≡ code_of self }
    {
        match self {
            Status::Done => 0,
            Status::Usage => 2,
            Status::Input => 3,
            Status::ReadFault => 4,
            Status::WriteFault => 5,
            Status::KeepFault => 6,
            Status::Memory => 7,
            Status::Saved => 8,
            Status::Limit => 9,
            Status::Unfinished => 10,
            Status::NoSelection => 11,
            Status::CheckRefused => 12,
            Status::Settle => 13,
        }
    }
}
