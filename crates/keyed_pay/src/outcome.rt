//! How a payment ends whose PSBT gets what keys tell of it.

use command_pay::{Ending, PaidReport};
use psbt_keys::KeyFault;

/// How a payment ends whose PSBT gets what keys tell of it.
#[derive(Drop)]
pub enum KeyedEnding {
    /// It is paid: its report and its log as without keys, and the text of its PSBT with the keys. The new files that are asked for
    /// are written, that of the PSBT with the keys.
    Keyed(PaidReport, Vec<u8>, Vec<u8>),
    /// It is paid, and this keeps what the keys tell from its PSBT. No PSBT is written.
    Unkeyed(KeyFault),
    /// It is paid, and the file of its PSBT wasn't written. There is one of its name, or the system refuses it.
    Unwritten,
    /// It is paid, and there was not enough memory for its PSBT with the keys, or for the writing of it.
    Memory,
    /// It isn't paid, and ends as without keys.
    Unpaid(Ending),
}
