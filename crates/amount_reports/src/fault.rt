//! Why a report couldn't be read.

ghost use Rattle.std.specs.Prelude.{◌≡◌};
ghost use Rattle.amount_reports.specs.declared.fault.AmountFault.TheVariants as faults;

use std::alloc::{AllocError, AllocFailed};

/// Why bytes weren't read as a report.
#[derive(Clone, Copy, PartialEq, Eq)]
pub enum AmountFault {
    /// The bytes are no such report.
    Form,
    /// There was not enough memory.
    Memory,
}

impl From<AllocError> for AmountFault {
    ghost from_gives = { λ _ e. e ≡ faults.Memory };

    fn from(_e: AllocError) -> AmountFault {
        AmountFault::Memory
    }
}

impl<T: Drop> From<AllocFailed<T>> for AmountFault {
    ghost from_gives = { λ _ e. e ≡ faults.Memory };

    fn from(_e: AllocFailed<T>) -> AmountFault {
        AmountFault::Memory
    }
}
