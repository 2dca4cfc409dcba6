//! Why bytes aren't read as the report of a payment by the wide search.

ghost use Rattle.std.specs.Prelude.{◌≡◌};
ghost use Rattle.wide_report.specs.declared.fault.WideReportFault.TheVariants as faults;

use fund_base::Memory;

/// Why bytes aren't read as the report of a payment by the wide search.
#[derive(Clone, Copy, PartialEq, Eq)]
pub enum WideReportFault {
    /// The bytes are no such report.
    Form,
    /// There was not enough memory.
    Memory,
}

impl From<Memory> for WideReportFault {
    ghost from_gives = { λ _ e. e ≡ faults.Memory };

    fn from(_e: Memory) -> WideReportFault {
        WideReportFault::Memory
    }
}
