//! How a sweep ends.

use amount_reports::SweptReport;
use command_end::Status;

/// How a payment of all coins ends that words ask for.
#[derive(Drop)]
pub enum Ending {
    /// It is paid: its report. The new file of the PSBT is written, where it is asked for.
    Swept(SweptReport),
    /// There is a payment, of which the first is the fee and the second the greatest that is taken, in satoshi. No file is
    /// written.
    FeeAboveMaximum(u64, u64),
    /// There is none: the status, and the lines that say why. No file is written.
    NotSwept(Status, Vec<u8>),
    /// The file of the PSBT wasn't written. There is one of its name, or the system refuses it.
    Unwritten,
    /// There was not enough memory.
    Memory,
}
