//! Why bytes aren't a transaction.

ghost use Rattle.std.specs.Prelude.{◌≡◌};
ghost use Rattle.tx_codec.specs.declared.fault.TxFault.TheVariants.{Memory};
ghost use Rattle.tx_codec.specs.Fault.{cut_fault};

use fund_base::CutFault;
use std::alloc::{AllocError, AllocFailed};

/// What is wrong with a transaction's text: the first fault in reading order.
#[derive(Clone, Copy, PartialEq, Eq)]
pub enum TxFault {
    /// The bytes end within the field that begins at this place.
    Truncated(u64),
    /// The CompactSize at this place isn't in its shortest spelling.
    LongCompact(u64),
    /// With the value of the output of this index, the sum of the values is above 21,000,000 bitcoin. An
    /// index above 4,294,967,295 counts as that number.
    ValueRange(u32),
    /// There is no input.
    NoInputs,
    /// There is no output.
    NoOutputs,
    /// A marker 00 isn't followed by a flag 01 (BIP 144).
    BadFlag,
    /// The transaction has the segregated form, and every witness is empty.
    EmptyWitness,
    /// Bytes stand after the transaction, from this place on.
    Trailing(u64),
    /// There was not enough memory.
    Memory,
}

impl From<CutFault> for TxFault {
    ghost from_gives = { λ cut e. e ≡ cut_fault cut };

    fn from(cut: CutFault) -> TxFault {
        match cut {
            CutFault::Truncated(place) => TxFault::Truncated(place),
            CutFault::LongCompact(place) => TxFault::LongCompact(place),
        }
    }
}

impl From<AllocError> for TxFault {
    ghost from_gives = { λ _ e. e ≡ Memory };

    fn from(_e: AllocError) -> TxFault {
        TxFault::Memory
    }
}

impl<T: Drop> From<AllocFailed<T>> for TxFault {
    ghost from_gives = { λ _ e. e ≡ Memory };

    fn from(_e: AllocFailed<T>) -> TxFault {
        TxFault::Memory
    }
}
