//! The keys file, read whole.

ghost use Rattle.std.specs.Prelude.{◌≡◌, ◌≢◌, ◌∷◌, [], Err, IfErr, IfOk, Ok, OnOk};
ghost use Rattle.fund_shelf.specs.Causes.{Asks, OnlyReads};
ghost use Rattle.keys_text.specs.KeysText.{keys_of};
ghost use Rattle.keys_files.specs.KeysFile.{HasKeys, IsKeysWithin, StopsAtBytes, StopsAtKeys, fault_stop_of, read_stop_of};

use crate::stop::KeysStop;
use fund_shelf::{ReadError, Shelf, read_whole};
use json_fields::FieldFault;
use keys_text::{Keys, KeysFault, read_keys};
use std::alloc::Global;

/// The greatest length of a keys file, in bytes.
const LIMIT: usize = 16_777_216;

/// Why the reading stops at a keys file that wasn't read whole.
fn read_stop(error: ReadError) -> KeysStop
    ensures { result ≡ read_stop_of error }
{
    match error {
        ReadError::Failed => KeysStop::Read,
        ReadError::TooLong => KeysStop::TooLong,
        ReadError::Memory => KeysStop::Memory,
    }
}

/// Why the reading stops at a keys file with this fault.
fn fault_stop(fault: KeysFault) -> KeysStop
    ensures { result ≡ fault_stop_of fault }
{
    match fault {
        KeysFault::Field(FieldFault::Memory) => KeysStop::Memory,
        _ => KeysStop::Refused(fault),
    }
}

/// The bytes of the keys file, which has this name and at most 16,777,216 bytes.
fn read_bytes<H: Shelf>(alloc: Global, name: &str, shelf: &mut H) -> Result<Vec<u8>, KeysStop>
    ensures bytes { H.tells → IfOk result (λ bytes. bytes.items ≡ (H.view shelf.old).files name.now) }
    ensures fits { H.tells → OnOk result (IsKeysWithin ((H.view shelf.old).files name.now)) }
    ensures stop { IfErr result (StopsAtKeys H.tells name.now (H.view shelf.old) (H.view shelf.new)) }
    ensures frame { OnlyReads H.tells (H.view shelf.old) (H.view shelf.new) }
    ensures unfailed { result ≢ Err KeysStop.Read → (H.view shelf.new).reads ≡ (H.view shelf.old).reads }
    ensures asked { H.tells → Asks (name.now ∷ []) (H.view shelf.old).asked (H.view shelf.new).asked }
{
    match read_whole(alloc, shelf, name, LIMIT) {
        Ok(bytes) => Ok(bytes),
        Err(error) => Err(read_stop(error)),
    }
}

/// The keys that the bytes of a keys file are.
fn keys_in(alloc: Global, bytes: &[u8]) -> Result<Keys, KeysStop>
    ensures keys { IfOk result (λ k. keys_of bytes.now ≡ Ok k) }
    ensures stop { IfErr result (StopsAtBytes bytes.now) }
{
    match read_keys(alloc, bytes) {
        Ok(keys) => Ok(keys),
        Err(fault) => Err(fault_stop(fault)),
    }
}

/// The keys of the file of this name, which has at most 16,777,216 bytes; or why it isn't taken. It is refused for its length
/// before its form, no other file is asked for, and none is written.
pub fn read_keys_file<H: Shelf>(alloc: Global, name: &str, shelf: &mut H) -> Result<Keys, KeysStop>
    ensures keys { H.tells → IfOk result (HasKeys ((H.view shelf.old).files name.now)) }
    ensures stop { IfErr result (StopsAtKeys H.tells name.now (H.view shelf.old) (H.view shelf.new)) }
    ensures frame { OnlyReads H.tells (H.view shelf.old) (H.view shelf.new) }
    ensures unfailed { result ≢ Err KeysStop.Read → (H.view shelf.new).reads ≡ (H.view shelf.old).reads }
    ensures asked { H.tells → Asks (name.now ∷ []) (H.view shelf.old).asked (H.view shelf.new).asked }
{
    let bytes = read_bytes(alloc, name, shelf)?;
    keys_in(alloc, &bytes)
}
