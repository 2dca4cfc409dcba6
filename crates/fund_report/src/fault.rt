//! Why a report couldn't be read.

ghost use Rattle.std.specs.Prelude.{◌≡◌};
ghost use Rattle.fund_report.specs.declared.fault.ReportFault.TheVariants as faults;

use std::alloc::{AllocError, AllocFailed};

/// Why bytes weren't read as a report.
#[derive(Clone, Copy, PartialEq, Eq)]
pub enum ReportFault {
    /// The bytes are no report. The place is that of the first byte at which no report goes on as the bytes do, or
    /// their length where they end too early.
    Form(u64),
    /// There was not enough memory.
    Memory,
}

impl From<AllocError> for ReportFault {
    ghost from_gives = { λ _ e. e ≡ faults.Memory };

    fn from(_e: AllocError) -> ReportFault {
        ReportFault::Memory
    }
}

impl<T: Drop> From<AllocFailed<T>> for ReportFault {
    ghost from_gives = { λ _ e. e ≡ faults.Memory };

    fn from(_e: AllocFailed<T>) -> ReportFault {
        ReportFault::Memory
    }
}
