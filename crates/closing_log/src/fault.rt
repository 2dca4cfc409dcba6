//! Why a text couldn't be read.

ghost use Rattle.std.specs.Prelude.{◌≡◌};
ghost use Rattle.closing_log.specs.declared.fault.LineFault.TheVariants as lines;
ghost use Rattle.closing_log.specs.declared.fault.LogTextFault.TheVariants as faults;

use std::alloc::{AllocError, AllocFailed};

/// Why a part of a text couldn't be read.
#[derive(Drop)]
pub enum LineFault<'a> {
    /// The text leaves its grammar: these bytes are left where no text goes on as they do.
    Form(&'a [u8]),
    /// There was not enough memory.
    Memory,
}

impl<'a> From<&'a [u8]> for LineFault<'a> {
    ghost from_gives = { λ stop e. e ≡ lines.Form stop };

    fn from(stop: &'a [u8]) -> LineFault<'a> {
        LineFault::Form(stop)
    }
}

impl<'a> From<AllocError> for LineFault<'a> {
    ghost from_gives = { λ _ e. e ≡ lines.Memory };

    fn from(_e: AllocError) -> LineFault<'a> {
        LineFault::Memory
    }
}

impl<'a, T: Drop> From<AllocFailed<T>> for LineFault<'a> {
    ghost from_gives = { λ _ e. e ≡ lines.Memory };

    fn from(_e: AllocFailed<T>) -> LineFault<'a> {
        LineFault::Memory
    }
}

/// Why bytes weren't read as a log.
#[derive(Clone, Copy, PartialEq, Eq)]
pub enum LogTextFault {
    /// The bytes are no text of a log. The place is that of the first byte at which no text goes on as the bytes do,
    /// or their length where they end too early; `sections` counts the sections whose lines all stand before it.
    Form { place: u64, sections: u64 },
    /// There was not enough memory.
    Memory,
}

impl From<AllocError> for LogTextFault {
    ghost from_gives = { λ _ e. e ≡ faults.Memory };

    fn from(_e: AllocError) -> LogTextFault {
        LogTextFault::Memory
    }
}

impl<T: Drop> From<AllocFailed<T>> for LogTextFault {
    ghost from_gives = { λ _ e. e ≡ faults.Memory };

    fn from(_e: AllocFailed<T>) -> LogTextFault {
        LogTextFault::Memory
    }
}
