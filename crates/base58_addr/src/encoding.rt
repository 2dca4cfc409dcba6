//! Writing addresses: the text of a script that pays to a hash.

ghost use Rattle.std.specs.Prelude.{◌≡◌, ◌↔◌, ◌++◌, ◌∷◌, ◌+◌, ◌-◌, ◌≤◌, ◌==◌, ◌&&◌, length, take, drop, bytes_eq, map, IfOk, IfSome, IsNone, IsFalse, IsTrue, OnErr};
ghost use Rattle.std.specs.Option.{option_map};
ghost use Rattle.fund_base.specs.Cursor.{IsBytes};
ghost use Rattle.base58_addr.specs.Address.{IsAddress, encode_of, pays_hash, pays_key, pays_script, sealed};
ghost use Rattle.base58_addr.specs.Base58.{letter_of, text_of};
ghost use Rattle.base58_addr.specs.Reading.{decode_of};

use crate::base58::{double_digest, letter};
use crate::number::{number_of_bytes, put_digits, zeros};
use fund_base::{Memory, Script};
use std::alloc::{AllocError, Global};

/// The address of a script. None exactly where it pays neither to a public key hash nor to a script hash.
pub fn encode(alloc: Global, script: &Script) -> Result<Option<Vec<u8>>, Memory>
    // What is written is an address of the script, and is read back as the script.
    ensures address { IfOk result (λ text. IfSome text (λ v. IsAddress v.items script.now)) }
    ensures back { IfOk result (λ text. IfSome text (λ v. decode_of v.items ≡ Ok script.now)) }

    // Which scripts have an address, and which it is.
    ensures none { IfOk result (λ text. IsNone text ↔ IsFalse (pays_hash script.now)) }
    // Memory is taken for an address that there is.
    ensures short { OnErr result (IsTrue (pays_hash script.now)) }
    ensures exact { IfOk result (λ text. option_map (λ v. v.items) text ≡ encode_of script.now) }
{
    text_of_script(alloc, bytes_of(script))
}

/// The bytes of a script.
fn bytes_of(script: &Script) -> &[u8]
    ensures value { result.now ≡ script.now }
    ensures bytes { IsBytes script.now }
{
    let bytes = script.bytes();
    bytes
}

/// Whether a script of so many bytes has these at its front and those at its back.
fn has_ends(script: &[u8], size: usize, front: &[u8], back: &[u8]) -> bool
    requires { length front.now + length back.now ≤ size }
    ensures { result ≡ ((length script.now == size) && bytes_eq (take (length front.now) script.now) front.now && bytes_eq (drop (size - length back.now) script.now) back.now) }
{
    if script.len() != size {
        return false;
    }
    let begins = &script[..front.len()] == front;
    let ends = &script[size - back.len()..] == back;
    begins && ends
}

/// Whether a script pays to a public key hash.
fn is_to_key(script: &[u8]) -> bool
    ensures value { result ≡ pays_key script.now }
    ensures size { IsTrue result → length script.now ≡ 25 }
{
    has_ends(script, 25, &[0x76, 0xa9, 0x14], &[0x88, 0xac])
}

/// Whether a script pays to a script hash.
fn is_to_script(script: &[u8]) -> bool
    ensures value { result ≡ pays_script script.now }
    ensures size { IsTrue result → length script.now ≡ 23 }
{
    has_ends(script, 23, &[0xa9, 0x14], &[0x87])
}

/// The address of a script of these bytes.
#[tactic(auto, unfolding(crate::specs::Address::encode_of))]
fn text_of_script(alloc: Global, bytes: &[u8]) -> Result<Option<Vec<u8>>, Memory>
    ensures exact { IfOk result (λ text. option_map (λ v. v.items) text ≡ encode_of bytes.now) }
    ensures none { IfOk result (λ text. IsNone text ↔ IsFalse (pays_hash bytes.now)) }
    ensures short { OnErr result (IsTrue (pays_hash bytes.now)) }
{
    if is_to_key(bytes) {
        let text = text_of_hash(alloc, 0, &bytes[3..23])?;
        return Ok(Some(text));
    }
    if is_to_script(bytes) {
        let text = text_of_hash(alloc, 5, &bytes[2..22])?;
        return Ok(Some(text));
    }
    Ok(None)
}

/// The text of a version and a hash.
fn text_of_hash(alloc: Global, version: u8, hash: &[u8]) -> Result<Vec<u8>, AllocError>
    requires { length hash.now ≡ 20 }
    ensures { IfOk result (λ text. text.items ≡ text_of (sealed (version ∷ hash.now))) }
{
    let mut bytes = Vec::new(alloc);
    bytes.push(version)?;
    bytes.extend_from_slice(hash)?;
    let sum = double_digest(bytes.as_slice());
    bytes.extend_from_slice(&sum[..4])?;
    let text = text_of_bytes(alloc, bytes.as_slice())?;
    Ok(text)
}

/// The text that stands for 25 bytes.
fn text_of_bytes(alloc: Global, bytes: &[u8]) -> Result<Vec<u8>, AllocError>
    requires { length bytes.now ≡ 25 }
    ensures { IfOk result (λ text. text.items ≡ text_of bytes.now) }
{
    let mut room = [0; 35];
    put_digits(number_of_bytes(bytes), 58, &mut room);
    let ones = zeros(bytes);
    let start = zeros(&room);
    let mut text = Vec::new(alloc);
    push_letters(&mut text, &bytes[..ones])?;
    push_letters(&mut text, &room[start..])?;
    Ok(text)
}

/// Puts the letters of these values after the text.
fn push_letters(text: &mut Vec<u8>, values: &[u8]) -> Result<(), AllocError>
    ensures { IfOk result (λ _. text.new.items ≡ text.old.items ++ map letter_of values.now) }
{
    for value in values {
        text.push(letter(*value))?;
    }
    Ok(())
}
