//! Why a keys file is refused.

ghost use Rattle.std.specs.Prelude.{◌≡◌};
ghost use Rattle.json_fields.specs.declared.fault.FieldFault.TheVariants.{Memory as NoMemory};
ghost use Rattle.keys_text.specs.declared.fault.KeysFault.TheVariants.{Field};

use fund_base::Memory;
use json_fields::FieldFault;
use std::alloc::{AllocError, AllocFailed};

/// What is wrong with a keys file: the first in the order in which it is tested. An index above 4,294,967,295 counts as that
/// number.
#[derive(Drop)]
pub enum KeysFault {
    /// The form of a JSON file isn't kept, or there was not enough memory. The whole has the name `root`. The kind of
    /// `path` is a path of at most 255 steps, that of `fingerprint` 4 bytes, that of `internal` 32 bytes, and that of
    /// `keys` and `xpubs` a list of at most 1,000 entries.
    Field(FieldFault),
    /// The script at this index of `scripts` stands before it too, is empty, or is longer than 10,000 bytes.
    Script(u32),
    /// The entry there has a redeem script, and its script doesn't pay to a script hash (BIP 16).
    Redeem(u32),
    /// The entry there has a witness script, and the witness program of its redeem script, or else of its script, isn't
    /// version 0 with the SHA-256 of that (BIP 141).
    Witness(u32),
    /// The entry there has an internal key and its script doesn't pay to taproot, or the other way round (BIP 341).
    Internal(u32),
    /// The key at the second index of the entry at the first isn't a compressed public key; or, beside an internal key, isn't
    /// that key.
    Key(u32, u32),
    /// The key at the second index of the entry at the first stands before it in the entry.
    RepeatKey(u32, u32),
    /// The key at this index of `xpubs` isn't an extended public key of 78 bytes, or its depth isn't the number of the
    /// steps of its path (BIP 32 and BIP 174).
    Xpub(u32),
    /// The key at this index of `xpubs` stands before it too.
    RepeatXpub(u32),
}

impl From<FieldFault> for KeysFault {
    ghost from_gives = { λ f e. e ≡ Field f };

    fn from(fault: FieldFault) -> KeysFault {
        KeysFault::Field(fault)
    }
}

impl From<Memory> for KeysFault {
    ghost from_gives = { λ _ e. e ≡ Field NoMemory };

    fn from(_e: Memory) -> KeysFault {
        KeysFault::Field(FieldFault::Memory)
    }
}

impl From<AllocError> for KeysFault {
    ghost from_gives = { λ _ e. e ≡ Field NoMemory };

    fn from(_e: AllocError) -> KeysFault {
        KeysFault::Field(FieldFault::Memory)
    }
}

impl<T: Drop> From<AllocFailed<T>> for KeysFault {
    ghost from_gives = { λ _ e. e ≡ Field NoMemory };

    fn from(_e: AllocFailed<T>) -> KeysFault {
        KeysFault::Field(FieldFault::Memory)
    }
}
