//! What may be the matter with a wide log.

ghost use Rattle.std.specs.Prelude.{◌≡◌};
ghost use Rattle.wide_check.specs.declared.fault.WideFault.TheVariants as fault;

use fund_base::Memory;
use std::alloc::{AllocError, AllocFailed};

/// Why a log doesn't prove its answer. Places count the letters from 0, from the checker's start; a place that doesn't
/// fit is the greatest `u64`. Of two faults at one letter the one that stands first here is named.
#[derive(Clone, Copy, PartialEq, Eq)]
pub enum WideFault {
    /// The byte at this place is no letter of a log.
    UnknownToken(u64),
    /// The letter at this place isn't allowed at its node, and is no B. Right behind an I that made the chosen places a
    /// selection, only B and V are allowed.
    ReasonFalse(u64),
    /// The tree was closed before the letter at this place.
    TooLong(u64),
    /// The log ends, and its tree isn't closed.
    Open,
    /// The tree is closed, and no B stood at the answer. It can't come, since an answer that is a selection is always met.
    AnswerNotMet,
    /// The B at this place isn't allowed: no selection was just entered there, or there is no answer, or the selection is
    /// another one that wastes less than the answer, or as much where the answer wasn't met yet.
    BetterMet(u64),
    /// The answer with which the checker was to be made isn't a selection of the problem.
    AnswerNotAdmissible,
    /// There was not enough memory to make the checker.
    Memory,
}

impl From<Memory> for WideFault {
    ghost from_gives = { λ _ e. e ≡ fault.Memory };

    fn from(_e: Memory) -> WideFault {
        WideFault::Memory
    }
}

impl From<AllocError> for WideFault {
    ghost from_gives = { λ _ e. e ≡ fault.Memory };

    fn from(_e: AllocError) -> WideFault {
        WideFault::Memory
    }
}

impl<T: Drop> From<AllocFailed<T>> for WideFault {
    ghost from_gives = { λ _ e. e ≡ fault.Memory };

    fn from(_e: AllocFailed<T>) -> WideFault {
        WideFault::Memory
    }
}
