//! Why bytes aren't a PSBT.

ghost use Rattle.std.specs.Prelude.{◌≡◌};
ghost use Rattle.psbt_codec.specs.declared.fault.PsbtFault.TheVariants.{Memory as OutOfMemory};
ghost use Rattle.psbt_codec.specs.Fault.{cut_fault};

use fund_base::{CutFault, Memory};
use std::alloc::{AllocError, AllocFailed};
use tx_codec::TxFault;

/// What is wrong with the bytes of a PSBT: the first fault in reading order. A place counts from the
/// PSBT's first byte.
#[derive(Clone, Copy, PartialEq, Eq)]
pub enum PsbtFault {
    /// The bytes don't begin with the five of every PSBT.
    Magic,
    /// The bytes end within the field that begins at this place.
    Truncated(u64),
    /// The CompactSize at this place isn't in its shortest spelling.
    LongCompact(u64),
    /// The pair that begins at this place has the key of one before it in its map.
    RepeatKey(u64),
    /// The global map has no unsigned transaction.
    NoUnsigned,
    /// The unsigned transaction can't be read. A place in the fault counts from the transaction's first
    /// byte. In version 2 the maps tell of no inputs, of no outputs, or of values above 21,000,000 bitcoin. It
    /// never holds [`TxFault::Memory`].
    Unsigned(TxFault),
    /// A script of the unsigned transaction isn't empty.
    NotBare,
    /// The pair that begins at this place isn't as its type asks: the type doesn't end within the key, or
    /// it is one that is read and the key has more than the type, or the value isn't of its form.
    Field(u64),
    /// The PSBT is of this version, and neither of version 0 nor of version 2.
    Version(u32),
    /// The whole previous transaction of the input of this index doesn't have the txid that the input
    /// spends, or has no output of the index that it spends. An index that doesn't fit counts as the
    /// greatest that does.
    WrongParent(u32),
    /// Bytes stand after the last map, from this place on.
    Trailing(u64),
    /// The text isn't base64 with padding.
    NotBase64,
    /// There was not enough memory.
    Memory,
    /// A global map of version 2 has the unsigned transaction, in the pair that begins at this place.
    Mixed(u64),
    /// A map of version 2 doesn't have this type, which it needs.
    Lacking(u8),
    /// The input of this index asks for a lock time of the transaction, by time or by height. An index that
    /// doesn't fit counts as the greatest that does.
    RequiredLock(u32),
}

impl From<CutFault> for PsbtFault {
    ghost from_gives = { λ cut e. e ≡ cut_fault cut };

    fn from(cut: CutFault) -> PsbtFault {
        match cut {
            CutFault::Truncated(place) => PsbtFault::Truncated(place),
            CutFault::LongCompact(place) => PsbtFault::LongCompact(place),
        }
    }
}

impl From<Memory> for PsbtFault {
    ghost from_gives = { λ _ e. e ≡ OutOfMemory };

    fn from(_e: Memory) -> PsbtFault {
        PsbtFault::Memory
    }
}

impl From<AllocError> for PsbtFault {
    ghost from_gives = { λ _ e. e ≡ OutOfMemory };

    fn from(_e: AllocError) -> PsbtFault {
        PsbtFault::Memory
    }
}

impl<T: Drop> From<AllocFailed<T>> for PsbtFault {
    ghost from_gives = { λ _ e. e ≡ OutOfMemory };

    fn from(_e: AllocFailed<T>) -> PsbtFault {
        PsbtFault::Memory
    }
}
