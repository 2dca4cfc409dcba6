//! Texts that spell bytes in hex. Their digits are looked at before memory is taken for the bytes.

ghost use Rattle.std.specs.Prelude.{◌≡◌, ◌≢◌, IfOk, IsOk, Err, is_some, length};
ghost use Rattle.std.specs.Char.{is_ascii_hexdigit};
ghost use Rattle.std.specs.List.{list_all};
ghost use Rattle.std.specs.Result.{result_ok};
ghost use Rattle.fund_base.specs.Cursor.{IsBytes};
ghost use Rattle.fund_base.specs.Parsing.{YieldsAll};
ghost use Rattle.hex.specs.Hex.{decode_of};
ghost use Rattle.json_fields.specs.Tree.{view};
ghost use Rattle.json_fields.specs.Fields.{hex_at};
ghost use Rattle.json_fields.specs.declared.fault.FieldFault.TheVariants.{Memory as NoMemory};

use crate::fault::FieldFault;
use crate::field::text_of;
use fund_base::{Memory, are_bytes};
use json::Value;
use std::alloc::Global;
use std::marker::Model;

/// Whether each byte is a hexadecimal digit of ASCII, in either case.
fn are_digits(bytes: &[u8]) -> bool
    ensures { result ≡ list_all is_ascii_hexdigit bytes.now }
{
    bytes.iter().all(|byte| byte.is_ascii_hexdigit())
}

/// Whether the text spells bytes in hex: an even number of digits.
#[tactic(auto, using(crate::proofs::Digits::even))]
fn is_hex(text: &str) -> bool
    ensures { result ≡ is_some (result_ok (decode_of text.now)) }
{
    text.len() % 2 == 0 && are_digits(text.as_bytes())
}

/// A text that spells bytes in hex, in either case. It is seen as those bytes, and takes no memory for them.
#[derive(Drop)]
pub struct HexText<'a> {
    text: &'a str,
}

impl<'a> Model for HexText<'a> {
    ghost use Rattle.std.specs.Prelude.{◌≡◌, List, ℕ, Ok};
    ghost use Rattle.hex.specs.Hex.{decode_of};
    ghost use Rattle.json_fields.specs.Fields.{spelled_in};

    ghost Value = { List ℕ };

    ghost view = { λ h. spelled_in h.text.now };

    ghost invariant = { λ h. decode_of h.text.now ≡ Ok (spelled_in h.text.now) };
}

impl<'a> HexText<'a> {
    /// The text, where it spells bytes.
    #[tactic(auto, using(crate::proofs::Digits::spelled, crate::proofs::Digits::some, crate::proofs::Digits::none))]
    fn new(text: &'a str) -> Option<HexText<'a>>
        ensures { result ≡ result_ok (decode_of text.now) }
    {
        if is_hex(text) {
            Some(HexText { text })
        } else {
            None
        }
    }

    /// How many bytes it spells.
    pub fn count(&self) -> usize
        ensures { result ≡ length self.now }
    {
        self.text.len() / 2
    }

    /// The bytes. Since the text spells them, no error but being out of memory is left.
    pub fn bytes(&self, alloc: Global) -> Result<Vec<u8>, Memory>
        ensures { IfOk result (λ v. v.items ≡ self.now) }
    {
        match hex::decode(alloc, self.text) {
            Ok(bytes) => Ok(bytes),
            Err(_) => Err(Memory),
        }
    }
}

/// The string that spells bytes in hex: an even number of digits, in either case.
#[tactic(auto, unfolding(crate::specs::Fields::hex_at))]
pub fn hex_text_of<'t>(value: &Value<'t>, name: &'static str) -> Result<HexText<'t>, FieldFault>
    ensures exact { result ≡ hex_at name.now (view value.now) }
    ensures never { result ≢ Err NoMemory }
{
    let text = text_of(value, name)?;
    match HexText::new(text) {
        Some(spelled) => Ok(spelled),
        None => Err(FieldFault::kind(name)),
    }
}

/// The bytes that are spelled so. Memory is taken for them alone, where the text spells them.
pub fn hex_of(alloc: Global, value: &Value, name: &'static str) -> Result<Vec<u8>, FieldFault>
    ensures gives { YieldsAll NoMemory (λ v. v.items) result (hex_at name.now (view value.now)) }
    ensures bytes { IfOk result (λ v. IsBytes v.items) }
    ensures short { result ≡ Err NoMemory → IsOk (hex_at name.now (view value.now)) }
{
    let spelled = hex_text_of(value, name)?;
    let bytes = spelled.bytes(alloc)?;
    are_bytes(&bytes);
    Ok(bytes)
}
