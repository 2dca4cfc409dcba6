//! Why a PSBT isn't made whole.

ghost use Rattle.std.specs.Prelude.{◌≡◌};
ghost use Rattle.command_complete.specs.declared.fault.CompleteFault.TheVariants.{Memory as OutOfMemory};

use fund_base::{Memory, OutPoint};
use std::alloc::{AllocError, AllocFailed};

/// Why a PSBT isn't made whole: what is wrong with the first input at which something is, by the input's index, from 0, and
/// the outpoint that it spends.
#[derive(Clone, Copy, PartialEq, Eq)]
pub enum CompleteFault {
    /// No whole transaction stands beside the input, and the book has no coin at the outpoint.
    Missing(u64, OutPoint),
    /// The output that stands beside the input isn't that of the whole transaction at the outpoint's index.
    OtherOutput(u64, OutPoint),
    /// There was not enough memory.
    Memory,
}

impl From<Memory> for CompleteFault {
    ghost from_gives = { λ _ e. e ≡ OutOfMemory };

    fn from(_e: Memory) -> CompleteFault {
        CompleteFault::Memory
    }
}

impl From<AllocError> for CompleteFault {
    ghost from_gives = { λ _ e. e ≡ OutOfMemory };

    fn from(_e: AllocError) -> CompleteFault {
        CompleteFault::Memory
    }
}

impl<T: Drop> From<AllocFailed<T>> for CompleteFault {
    ghost from_gives = { λ _ e. e ≡ OutOfMemory };

    fn from(_e: AllocFailed<T>) -> CompleteFault {
        CompleteFault::Memory
    }
}
