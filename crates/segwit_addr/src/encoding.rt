//! Writing addresses: the lower case text of a script's witness program.

ghost use Rattle.std.specs.Prelude.{◌≡◌, ◌↔◌, ◌++◌, ◌∷◌, [], IfOk, IfSome, IsNone, IsFalse, IsTrue, OnErr, codes};
ghost use Rattle.std.specs.Option.{option_map};
ghost use Rattle.fund_base.specs.Cursor.{IsBytes};
ghost use Rattle.segwit_addr.specs.Address.{IsAddress, IsLower, encode_of, is_witness, text_of};
ghost use Rattle.segwit_addr.specs.Reading.{decode_of};
ghost use Rattle.segwit_addr.specs.Bech32.{expanded, polymod, six_values};

use crate::bech32::{checksum, letter};
use crate::program::{checksum_of_version, is_witness_program, push_values, version_of_byte};
use fund_base::{Memory, Script};
use std::alloc::{AllocError, Global};

/// The address of a script, in lower case (BIP 173 and BIP 350). None exactly where the script is no witness program of
/// a length that [`decode`](crate::decode) accepts.
pub fn encode(alloc: Global, script: &Script) -> Result<Option<Vec<u8>>, Memory>
    // What is written is an address of the script, and is read back as the script.
    ensures address { IfOk result (λ text. IfSome text (λ v. IsAddress v.items script.now)) }
    ensures back { IfOk result (λ text. IfSome text (λ v. decode_of v.items ≡ Ok script.now)) }
    ensures lower { IfOk result (λ text. IfSome text (λ v. IsLower v.items)) }

    // Which scripts have an address, and which it is.
    ensures none { IfOk result (λ text. IsNone text ↔ IsFalse (is_witness script.now)) }
    // Memory is taken for an address that there is.
    ensures short { OnErr result (IsTrue (is_witness script.now)) }
    ensures exact { IfOk result (λ text. option_map (λ v. v.items) text ≡ encode_of script.now) }
{
    text_of_script(alloc, bytes_of(script))
}

/// The bytes of a script.
fn bytes_of(script: &Script) -> &[u8]
    ensures value { result.now ≡ script.now }
    ensures bytes { IsBytes script.now }
{
    let bytes = script.bytes();
    bytes
}

/// The address of a script of these bytes.
#[tactic(auto, unfolding(crate::specs::Address::encode_of))]
fn text_of_script(alloc: Global, bytes: &[u8]) -> Result<Option<Vec<u8>>, Memory>
    ensures exact { IfOk result (λ text. option_map (λ v. v.items) text ≡ encode_of bytes.now) }
    ensures none { IfOk result (λ text. IsNone text ↔ IsFalse (is_witness bytes.now)) }
    ensures short { OnErr result (IsTrue (is_witness bytes.now)) }
{
    if !is_witness_program(bytes) {
        return Ok(None);
    }
    let version = version_of_byte(bytes[0]);
    let mut values = Vec::new(alloc);
    values.push(version)?;
    push_values(&mut values, &bytes[2..])?;
    let text = text_of_values(alloc, version, values)?;
    Ok(Some(text))
}

/// The six values that a number of thirty bits makes.
fn six_values_of(n: u32) -> [u8; 6]
    ensures { result ≡ six_values n }
{
    [
        ((n >> 25) % 32) as u8,
        ((n >> 20) % 32) as u8,
        ((n >> 15) % 32) as u8,
        ((n >> 10) % 32) as u8,
        ((n >> 5) % 32) as u8,
        (n % 32) as u8,
    ]
}

/// The text of the values of a version and a program.
#[tactic(auto, unfolding(crate::specs::Address::text_of))]
fn text_of_values(alloc: Global, version: u8, mut values: Vec<u8>) -> Result<Vec<u8>, AllocError>
    ensures { IfOk result (λ text. text.items ≡ text_of version values.items) }
{
    let sum = checksum_of_zeros(alloc, values.as_slice())?;
    let last = six_values_of(sum ^ checksum_of_version(version));
    values.extend_from_slice(&last)?;
    let letters: Vec<u8> = values.iter().map(|v| letter(*v)).collect(alloc)?;
    let mut text = Vec::from_slice(alloc, b"bc1")?;
    text.extend_from_slice(letters.as_slice())?;
    Ok(text)
}

/// The checksum of these values and six zeros.
fn checksum_of_zeros(alloc: Global, values: &[u8]) -> Result<u32, AllocError>
    ensures { IfOk result (λ sum. sum ≡ polymod (expanded (codes "bc") ++ (values.now ++ (0 ∷ 0 ∷ 0 ∷ 0 ∷ 0 ∷ 0 ∷ [])))) }
{
    let mut all = Vec::from_slice(alloc, values)?;
    all.extend_from_slice(&[0; 6])?;
    Ok(checksum(b"bc", all.as_slice()))
}
