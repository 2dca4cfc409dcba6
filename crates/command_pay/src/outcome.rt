//! How a payment ends.

use crate::report::PaidReport;
use command_end::Status;
use payment_files::NewFile;

/// How a payment ends that words ask for.
#[derive(Drop)]
pub enum Ending {
    /// It is paid: its report and its log. The new files that are asked for are written.
    Paid(PaidReport, Vec<u8>),
    /// There is a payment, of which the first is the fee and the second the greatest that is taken, in satoshi. No file is
    /// written.
    FeeAboveMaximum(u64, u64),
    /// There is none: the status, and the lines that say why. No file is written.
    NotPaid(Status, Vec<u8>),
    /// This file wasn't written, and those that are asked for before it were. There is one of its name, or the system refuses it.
    Unwritten(NewFile),
    /// There was not enough memory.
    Memory,
}
