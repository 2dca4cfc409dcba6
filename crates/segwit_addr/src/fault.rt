//! What may be wrong with an address.

ghost use Rattle.std.specs.Prelude.{◌≡◌};
ghost use Rattle.segwit_addr.specs.declared.fault.AddrFault.TheVariants.{Memory};

use std::alloc::{AllocError, AllocFailed};

/// Why a text is no address: the first of these that holds, tested as Length of the text, Case, Separator, Letter,
/// Checksum, Network, Version, Padding, and Length of the program.
#[derive(Clone, Copy, PartialEq, Eq)]
pub enum AddrFault {
    /// It has both an upper case and a lower case letter of ASCII.
    Case,
    /// There is no `1`, or nothing before the last one, or there are fewer than seven characters after it.
    Separator,
    /// A character before the separator is not in 33 to 126, or one after it is not in the alphabet.
    Letter,
    /// The checksum is neither that of bech32 nor that of bech32m.
    Checksum,
    /// The human-readable part is not `bc`.
    Network,
    /// The version is above 16, or its checksum is that of the other encoding: 0 takes bech32, 1 to 16 take bech32m.
    Version,
    /// The text has fewer than 8 bytes or more than 90, or the program not 2 to 40, or at version 0 neither 20 nor 32.
    Length,
    /// Five bits or more are left over after the program's bytes, or one that is not zero.
    Padding,
    /// There was not enough memory.
    Memory,
}

impl From<AllocError> for AddrFault {
    ghost from_gives = { λ _ e. e ≡ Memory };

    fn from(_e: AllocError) -> AddrFault {
        AddrFault::Memory
    }
}

impl<T: Drop> From<AllocFailed<T>> for AddrFault {
    ghost from_gives = { λ _ e. e ≡ Memory };

    fn from(_e: AllocFailed<T>) -> AddrFault {
        AddrFault::Memory
    }
}
