//! The text of a PSBT with what keys tell of it.

ghost use Rattle.std.specs.Prelude.{◌≢◌, IfErr, IfOk};
ghost use Rattle.psbt_codec.specs.declared.fault.PsbtFault.TheVariants.{Memory as OutOfMemory};
ghost use Rattle.psbt_keys.specs.declared.fault.KeyFault.TheVariants.{Psbt};
ghost use Rattle.keys_files.specs.Keyed.{IsKeyedText, IsTextFault};

use keys_text::Keys;
use psbt_codec::{from_text, to_text};
use psbt_keys::{KeyFault, add_keys};
use std::alloc::Global;

/// The text of a PSBT, in base64, with what the keys tell of it: how the keys of each input and of each output are derived, and
/// their scripts ([`psbt_keys::add_keys`]). Every pair that stands there stays, and what is signed stays the same.
///
/// [`KeyFault::Psbt`]: the text is no PSBT, or there was not enough memory. Otherwise the first map that has the key of a due
/// pair with another value: [`KeyFault::Global`], [`KeyFault::Input`] or [`KeyFault::Output`].
pub fn add_keys_to_text(alloc: Global, text: &[u8], keys: &Keys) -> Result<Vec<u8>, KeyFault>
    ensures keyed { IfOk result (λ v. IsKeyedText keys.now text.now v.items) }
    ensures fault { IfErr result (λ e. e ≢ Psbt OutOfMemory → IsTextFault keys.now text.now e) }
{
    let bytes = from_text(alloc, text)?;
    let keyed = add_keys(alloc, &bytes, keys)?;
    let text = to_text(alloc, &keyed)?;
    Ok(text)
}
