//! Why a signed transaction isn't told to settle a payment.

ghost use Rattle.std.specs.Prelude.{◌≡◌};
ghost use Rattle.command_settle.specs.declared.stop.Stop.TheVariants as stops;

use fund_base::Memory;
use fund_files::FileRefusal;
use settle_check::SettleFault;
use std::alloc::{AllocError, AllocFailed};
use tx_codec::TxFault;

/// A file that is read.
#[derive(Clone, Copy)]
pub enum SettleFile {
    Wallet,
    Request,
    Report,
    Tx,
}

/// Why the files are refused.
#[derive(Drop)]
pub enum Refusal {
    /// The wallet or the request is refused.
    File(FileRefusal),
    /// The report has more than 67,108,864 bytes.
    LongReport,
    /// The file of the transaction has more than 1,048,576 bytes.
    LongTx,
    /// The file of the transaction isn't hex.
    NotHex,
    /// Its bytes are no transaction: the first fault.
    NotTx(TxFault),
    /// The transaction doesn't settle the payment: the first rule that is broken.
    Unsettled(SettleFault),
}

/// Why the command stops before it says that a payment is settled.
#[derive(Drop)]
pub enum Stop {
    /// A read of the file failed.
    Read(SettleFile),
    /// The files are refused.
    Refused(Refusal),
    /// There was not enough memory.
    Memory,
}

impl From<Memory> for Stop {
    ghost from_gives = { λ _ e. e ≡ stops.Memory };

    fn from(_memory: Memory) -> Stop {
        Stop::Memory
    }
}

impl From<AllocError> for Stop {
    ghost from_gives = { λ _ e. e ≡ stops.Memory };

    fn from(_e: AllocError) -> Stop {
        Stop::Memory
    }
}

impl<T: Drop> From<AllocFailed<T>> for Stop {
    ghost from_gives = { λ _ e. e ≡ stops.Memory };

    fn from(_e: AllocFailed<T>) -> Stop {
        Stop::Memory
    }
}
