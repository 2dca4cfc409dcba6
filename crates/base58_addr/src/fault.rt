//! What may be wrong with an address.

ghost use Rattle.std.specs.Prelude.{◌≡◌};
ghost use Rattle.base58_addr.specs.declared.fault.Base58Fault.TheVariants.{Memory};

use std::alloc::{AllocError, AllocFailed};

/// Why a text is no address: the first of these that holds, in this order.
#[derive(Clone, Copy, PartialEq, Eq)]
pub enum Base58Fault {
    /// A character is not one of the 58 letters.
    Letter,
    /// It does not stand for exactly 25 bytes: a version of 1 byte, a hash of 20 and a checksum of 4.
    Length,
    /// The last four bytes are not the first four of the double SHA-256 of those before them.
    Checksum,
    /// The version is neither 0, of a public key hash, nor 5, of a script hash.
    Version,
    /// There was not enough memory.
    Memory,
}

impl From<AllocError> for Base58Fault {
    ghost from_gives = { λ _ e. e ≡ Memory };

    fn from(_e: AllocError) -> Base58Fault {
        Base58Fault::Memory
    }
}

impl<T: Drop> From<AllocFailed<T>> for Base58Fault {
    ghost from_gives = { λ _ e. e ≡ Memory };

    fn from(_e: AllocFailed<T>) -> Base58Fault {
        Base58Fault::Memory
    }
}
