//! Why a file lists no payments.

ghost use Rattle.std.specs.Prelude.{◌≡◌};
ghost use Rattle.pay_words.specs.declared.line_fault.LineFault.TheVariants.{Memory as OutOfMemory};

use fund_base::Memory;
use std::alloc::{AllocError, AllocFailed};

/// Why a file lists no payments, in the order in which they are told.
#[derive(Clone, Copy)]
pub enum LineFault {
    /// The file is longer than [`crate::PAY_FILE_LIMIT`].
    TooLong,
    /// The file is no text in UTF-8.
    NotText,
    /// No comma stands in the line of this number, counted from 0.
    NoComma(usize),
    /// The file has no line.
    NoLine,
    /// There was not enough memory.
    Memory,
}

impl From<Memory> for LineFault {
    ghost from_gives = { λ _ e. e ≡ OutOfMemory };

    fn from(_e: Memory) -> LineFault {
        LineFault::Memory
    }
}

impl From<AllocError> for LineFault {
    ghost from_gives = { λ _ e. e ≡ OutOfMemory };

    fn from(_e: AllocError) -> LineFault {
        LineFault::Memory
    }
}

impl<T: Drop> From<AllocFailed<T>> for LineFault {
    ghost from_gives = { λ _ e. e ≡ OutOfMemory };

    fn from(_e: AllocFailed<T>) -> LineFault {
        LineFault::Memory
    }
}
