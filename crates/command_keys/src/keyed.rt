//! A PSBT file with what keys tell of it.

ghost use Rattle.std.specs.Prelude.{◌≢◌, IfErr, IfOk};
ghost use Rattle.psbt_codec.specs.declared.fault.PsbtFault.TheVariants.{Memory as OutOfMemory};
ghost use Rattle.psbt_keys.specs.declared.fault.KeyFault.TheVariants.{Psbt};
ghost use Rattle.keys_files.specs.Keyed.{IsTextFault};
ghost use Rattle.command_complete.specs.Made.{line_of};
ghost use Rattle.command_keys.specs.Keyed.{IsKeyedFile};

use command_complete::line_of;
use keys_files::add_keys_to_text;
use keys_text::Keys;
use psbt_codec::PsbtFault;
use psbt_keys::KeyFault;
use std::alloc::Global;

/// The text of a PSBT file with what the keys tell of it, and a line feed behind it. A line feed at the end of the file is no part
/// of the text.
pub fn keyed_line(alloc: Global, file: &[u8], keys: &Keys) -> Result<Vec<u8>, KeyFault>
    ensures keyed { IfOk result (λ v. IsKeyedFile keys.now file.now v.items) }
    ensures fault { IfErr result (λ e. e ≢ Psbt OutOfMemory → IsTextFault keys.now (line_of file.now) e) }
{
    let mut text = add_keys_to_text(alloc, line_of(file), keys)?;
    match text.push(b'\n') {
        Ok(()) => Ok(text),
        Err(_) => Err(KeyFault::Psbt(PsbtFault::Memory)),
    }
}
