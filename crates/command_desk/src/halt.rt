//! Why a line of a script isn't done.

ghost use Rattle.std.specs.Prelude.{◌≡◌};
ghost use Rattle.command_desk.specs.Halts.{put_halt_of, read_halt_of};

use fund_shelf::{Fault, ReadError};

/// Why a line isn't done. The run of the script ends there.
#[derive(Clone, Copy, PartialEq, Eq)]
pub enum Halt {
    /// A read of the line's file failed.
    Unread,
    /// The line's file is longer than its limit.
    TooLong,
    /// The sink failed in the reply.
    Unwritten,
    /// The sink found no memory in the reply.
    Full,
    /// There was not enough memory.
    Memory,
}

/// Why a line isn't done whose file wasn't read whole.
pub fn read_halt(error: ReadError) -> Halt
    ensures { result ≡ read_halt_of error }
{
    match error {
        ReadError::Failed => Halt::Unread,
        ReadError::TooLong => Halt::TooLong,
        ReadError::Memory => Halt::Memory,
    }
}

/// Why a line isn't done whose reply wasn't put whole.
pub fn put_halt(fault: Fault) -> Halt
    ensures { result ≡ put_halt_of fault }
{
    match fault {
        Fault::Failed => Halt::Unwritten,
        Fault::Memory => Halt::Full,
    }
}
