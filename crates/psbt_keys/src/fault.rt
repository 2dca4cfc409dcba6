//! Why keys can't be added to a PSBT.

ghost use Rattle.std.specs.Prelude.{◌≡◌};
ghost use Rattle.psbt_codec.specs.declared.fault.PsbtFault.TheVariants.{Memory as OutOfMemory};
ghost use Rattle.psbt_keys.specs.declared.fault.KeyFault.TheVariants.{Psbt};
ghost use Rattle.psbt_keys.specs.declared.fault.MapFault.TheVariants.{Memory as NoMemory};

use fund_base::Memory;
use psbt_codec::PsbtFault;
use std::alloc::{AllocError, AllocFailed};

/// Why keys can't be added to a PSBT: the first cause, in the order of its maps. A number that doesn't fit counts as the
/// greatest that does.
#[derive(Clone, Copy, PartialEq, Eq)]
pub enum KeyFault {
    /// The bytes are no PSBT, or there was not enough memory ([`PsbtFault::Memory`]).
    Psbt(PsbtFault),
    /// The global map has the extended public key of this number, from 0, with another origin.
    Global(u32),
    /// The map of the input of this index has a pair with the key of one that is due and another value. Its type stands beside
    /// the index: 04 for the redeem script, 05 for the witness script, 06 and 16 for a key, 17 for the internal key.
    Input(u32, u8),
    /// So the map of the output of this index: type 00 for the redeem script, 01 for the witness script, 02 and 07 for a key, 05
    /// for the internal key.
    Output(u32, u8),
}

impl From<PsbtFault> for KeyFault {
    ghost from_gives = { λ fault e. e ≡ Psbt fault };

    fn from(fault: PsbtFault) -> KeyFault {
        KeyFault::Psbt(fault)
    }
}

impl From<Memory> for KeyFault {
    ghost from_gives = { λ _ e. e ≡ Psbt OutOfMemory };

    fn from(_e: Memory) -> KeyFault {
        KeyFault::Psbt(PsbtFault::Memory)
    }
}

impl From<AllocError> for KeyFault {
    ghost from_gives = { λ _ e. e ≡ Psbt OutOfMemory };

    fn from(_e: AllocError) -> KeyFault {
        KeyFault::Psbt(PsbtFault::Memory)
    }
}

impl<T: Drop> From<AllocFailed<T>> for KeyFault {
    ghost from_gives = { λ _ e. e ≡ Psbt OutOfMemory };

    fn from(_e: AllocFailed<T>) -> KeyFault {
        KeyFault::Psbt(PsbtFault::Memory)
    }
}

/// Why pairs can't be added to one map.
#[derive(Clone, Copy, PartialEq, Eq)]
pub enum MapFault {
    /// The map has the key of the due pair at this place, of this type, with another value.
    Differs(usize, u8),
    /// There was not enough memory.
    Memory,
}

impl From<Memory> for MapFault {
    ghost from_gives = { λ _ e. e ≡ NoMemory };

    fn from(_e: Memory) -> MapFault {
        MapFault::Memory
    }
}

impl From<AllocError> for MapFault {
    ghost from_gives = { λ _ e. e ≡ NoMemory };

    fn from(_e: AllocError) -> MapFault {
        MapFault::Memory
    }
}

impl<T: Drop> From<AllocFailed<T>> for MapFault {
    ghost from_gives = { λ _ e. e ≡ NoMemory };

    fn from(_e: AllocFailed<T>) -> MapFault {
        MapFault::Memory
    }
}
