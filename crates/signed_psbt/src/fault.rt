//! Why no signed transaction can be taken from a PSBT.

ghost use Rattle.std.specs.Prelude.{◌≡◌};
ghost use Rattle.psbt_codec.specs.declared.fault.PsbtFault.TheVariants.{Memory as OutOfMemory};
ghost use Rattle.signed_psbt.specs.declared.fault.SignedFault.TheVariants.{Psbt};

use fund_base::Memory;
use psbt_codec::PsbtFault;
use std::alloc::{AllocError, AllocFailed};

/// Why bytes hold no signed transaction: the first cause. An index that doesn't fit counts as the greatest that does.
#[derive(Clone, Copy, PartialEq, Eq)]
pub enum SignedFault {
    /// They are no PSBT, or there was not enough memory ([`PsbtFault::Memory`]).
    Psbt(PsbtFault),
    /// The input of this index isn't signed: its map has neither a final script nor a final witness (BIP 174, types 07 and
    /// 08).
    Unsigned(u32),
    /// The final witness of the input of this index isn't a number of byte strings and each behind its length.
    Witness(u32),
}

impl From<PsbtFault> for SignedFault {
    ghost from_gives = { λ fault e. e ≡ Psbt fault };

    fn from(fault: PsbtFault) -> SignedFault {
        SignedFault::Psbt(fault)
    }
}

impl From<Memory> for SignedFault {
    ghost from_gives = { λ _ e. e ≡ Psbt OutOfMemory };

    fn from(_e: Memory) -> SignedFault {
        SignedFault::Psbt(PsbtFault::Memory)
    }
}

impl From<AllocError> for SignedFault {
    ghost from_gives = { λ _ e. e ≡ Psbt OutOfMemory };

    fn from(_e: AllocError) -> SignedFault {
        SignedFault::Psbt(PsbtFault::Memory)
    }
}

impl<T: Drop> From<AllocFailed<T>> for SignedFault {
    ghost from_gives = { λ _ e. e ≡ Psbt OutOfMemory };

    fn from(_e: AllocFailed<T>) -> SignedFault {
        SignedFault::Psbt(PsbtFault::Memory)
    }
}
