//! How a name is shown that a file gives.

ghost use Rattle.std.specs.Prelude.{◌≡◌, ◌++◌, IfOk, OnOk, string_bytes};
ghost use Rattle.command_end.specs.Name.{shown_byte, shown_name, stands_plain};

use fund_base::Memory;
use std::alloc::Global;

/// A name that a file gives, so that it is never two words or two lines: each of its bytes that is printable
/// ASCII without the blank, 33 to 126, stands as it is, but for the backslash; any other, and the
/// backslash, is written as `\x` and two lower-case hex digits. It refuses only when out of memory.
#[tactic(auto, unfolding(crate::specs::Name::shown_name))]
pub fn shown_name(alloc: Global, name: &str) -> Result<String, Memory>
    ensures { IfOk result (λ text. string_bytes text ≡ shown_name name.now) }
{
    let mut text = String::new(alloc);
    for byte in name.as_bytes() {
        push_shown(alloc, &mut text, *byte)?;
    }
    Ok(text)
}

/// Whether a byte stands as it is in a name that is shown: it is printable ASCII without the blank, and no backslash.
pub(crate) fn stands_plain(byte: u8) -> bool
    ensures { result ≡ stands_plain byte }
{
    byte.is_ascii_graphic() && byte != b'\\'
}

/// Puts one byte of a name after the text.
fn push_shown(alloc: Global, text: &mut String, byte: u8) -> Result<(), Memory>
    ensures { OnOk result (string_bytes text.new ≡ string_bytes text.old ++ shown_byte byte) }
{
    if stands_plain(byte) {
        text.push(byte as char)?;
        return Ok(());
    }
    let digits = hex::encode(alloc, [byte].as_slice())?;
    text.push_str("\\x")?;
    text.push_str(digits.as_str())?;
    Ok(())
}
