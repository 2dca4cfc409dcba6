//! Why a run can't go on from what is kept, and why its log isn't accepted.

ghost use Rattle.std.specs.Prelude.{◌≡◌};
ghost use Rattle.search_run.specs.declared.fault.RestoreRefused.TheVariants as refused;
ghost use Rattle.search_run.specs.declared.fault.VerifyFault.TheVariants as verified;

use fund_base::Memory;
use log_checker::LogFault;
use std::alloc::{AllocError, AllocFailed};

/// Why a run can't go on from a saved position and a log. Of several reasons the first in this order is told.
#[derive(Clone, Copy, PartialEq, Eq)]
pub enum RestoreRefused {
    /// The section at this index isn't that of the search to which the run comes there: its row, its stage or its
    /// digest is another. An open section comes after the closed ones; it is also wrong where there is none, and
    /// where the saved row or stage is another.
    Section(u64),
    /// No search of the open section's problem may stand at the saved position with its letters.
    IllFormed,
    /// The closed section at this index has an answer that isn't admissible for its problem.
    Answer(u64),
    /// There was not enough memory.
    Memory,
}

impl From<Memory> for RestoreRefused {
    ghost from_gives = { λ _ e. e ≡ refused.Memory };

    fn from(_e: Memory) -> RestoreRefused {
        RestoreRefused::Memory
    }
}

impl From<AllocError> for RestoreRefused {
    ghost from_gives = { λ _ e. e ≡ refused.Memory };

    fn from(_e: AllocError) -> RestoreRefused {
        RestoreRefused::Memory
    }
}

impl<T: Drop> From<AllocFailed<T>> for RestoreRefused {
    ghost from_gives = { λ _ e. e ≡ refused.Memory };

    fn from(_e: AllocFailed<T>) -> RestoreRefused {
        RestoreRefused::Memory
    }
}

/// Why the log of a run isn't accepted.
#[derive(Clone, Copy, PartialEq, Eq)]
pub enum VerifyFault {
    /// The section at this index, the first one that is refused, with its first fault.
    Log(u64, LogFault),
    /// There was not enough memory.
    Memory,
}

impl From<Memory> for VerifyFault {
    ghost from_gives = { λ _ e. e ≡ verified.Memory };

    fn from(_e: Memory) -> VerifyFault {
        VerifyFault::Memory
    }
}
