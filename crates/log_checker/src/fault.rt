//! What may be the matter with a log.

ghost use Rattle.std.specs.Prelude.{◌≡◌};
ghost use Rattle.log_checker.specs.declared.fault.LogFault.TheVariants as fault;

use fund_base::Memory;
use std::alloc::{AllocError, AllocFailed};

/// Why a log doesn't prove its answer. Places count the letters from 0, from the checker's start; a place that doesn't
/// fit is the greatest `u64`. Of two faults at one letter the one that stands first here is named.
#[derive(Clone, Copy, PartialEq, Eq)]
pub enum LogFault {
    /// The byte at this place is no letter of a log.
    UnknownToken(u64),
    /// The letter at this place isn't allowed at its node: any but A, or an A below `lo`.
    ReasonFalse(u64),
    /// The tree was closed before the letter at this place.
    TooLong(u64),
    /// The log ends, and its tree isn't closed.
    Open,
    /// The tree is closed, and the answer wasn't met. It can't come, since an answer that is admissible is always met.
    AnswerNotMet,
    /// The A at this place stands at an admissible selection that is no worse than the answer, as far as was read.
    BetterMet(u64),
    /// The answer with which the checker was to be made isn't an admissible selection of the problem.
    AnswerNotAdmissible,
    /// There was not enough memory to make the checker.
    Memory,
}

impl From<Memory> for LogFault {
    ghost from_gives = { λ _ e. e ≡ fault.Memory };

    fn from(_e: Memory) -> LogFault {
        LogFault::Memory
    }
}

impl From<AllocError> for LogFault {
    ghost from_gives = { λ _ e. e ≡ fault.Memory };

    fn from(_e: AllocError) -> LogFault {
        LogFault::Memory
    }
}

impl<T: Drop> From<AllocFailed<T>> for LogFault {
    ghost from_gives = { λ _ e. e ≡ fault.Memory };

    fn from(_e: AllocFailed<T>) -> LogFault {
        LogFault::Memory
    }
}
