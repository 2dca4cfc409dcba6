//! Witness programs: their bits as values of five and as bytes of eight, and the lengths that they may have
//! (BIP 173, 'Segwit address format', and BIP 141, 'Witness program').

ghost use Rattle.std.specs.Prelude.{◌≡◌, ◌≤◌, ◌<◌, ◌++◌, IfOk, IsTrue, length};
ghost use Rattle.segwit_addr.specs.Address.{is_refused, is_witness, version_byte, version_of, sum_of};
ghost use Rattle.segwit_addr.specs.Regrouping.{bit_of, eight_bits, five_bits, bytes_of, values_of};

use crate::bech32::{BECH32, BECH32M};
use std::alloc::{AllocError, Global};

/// The bit at a place of a row of items of `width` bits, each from its highest bit on; 0 after the row's end.
#[tactic(auto, unfolding(crate::specs::Regrouping::bit_of))]
fn bit(width: usize, items: &[u8], place: usize) -> u8
    requires some { 0 < width }
    requires most { width ≤ 8 }
    ensures value { result ≡ bit_of width items.now place }
    ensures most { result ≤ 1 }
{
    let index = place / width;
    let item = if index < items.len() { items[index] } else { 0 };
    (item >> (width - 1 - place % width)) % 2
}

/// The eight bits from a place on, of values of five bits.
#[tactic(auto, unfolding(crate::specs::Regrouping::eight_bits))]
fn byte_at(values: &[u8], at: usize) -> u8
    requires { at < 1_000_000 }
    ensures { result ≡ eight_bits values.now at }
{
    128 * bit(5, values, at)
        + 64 * bit(5, values, at + 1)
        + 32 * bit(5, values, at + 2)
        + 16 * bit(5, values, at + 3)
        + 8 * bit(5, values, at + 4)
        + 4 * bit(5, values, at + 5)
        + 2 * bit(5, values, at + 6)
        + bit(5, values, at + 7)
}

/// The five bits from a place on, of bytes.
#[tactic(auto, unfolding(crate::specs::Regrouping::five_bits))]
fn value_at(bytes: &[u8], at: usize) -> u8
    requires { at < 1_000_000 }
    ensures { result ≡ five_bits bytes.now at }
{
    16 * bit(8, bytes, at)
        + 8 * bit(8, bytes, at + 1)
        + 4 * bit(8, bytes, at + 2)
        + 2 * bit(8, bytes, at + 3)
        + bit(8, bytes, at + 4)
}

/// The bytes that the bits of these values fill, after `first`.
#[tactic(auto, using(crate::proofs::Rows::row_none, crate::proofs::Rows::row_more))]
pub(crate) fn push_bytes(bytes: &mut Vec<u8>, values: &[u8]) -> Result<(), AllocError>
    requires { length values.now ≤ 1_000 }
    ensures { IfOk result (λ _. bytes.new.items ≡ bytes.old.items ++ bytes_of values.now) }
{
    for i in 0..values.len() * 5 / 8 {
        bytes.push(byte_at(values, 8 * i))?;
    }
    Ok(())
}

/// The values of the bits of these bytes, put after those in `values`; zeros fill the last.
#[tactic(auto, using(crate::proofs::Rows::row_none, crate::proofs::Rows::row_more))]
pub(crate) fn push_values(values: &mut Vec<u8>, bytes: &[u8]) -> Result<(), AllocError>
    requires { length bytes.now ≤ 1_000 }
    ensures { IfOk result (λ _. values.new.items ≡ values.old.items ++ values_of bytes.now) }
{
    for i in 0..(bytes.len() * 8 + 4) / 5 {
        values.push(value_at(bytes, 5 * i))?;
    }
    Ok(())
}

/// Whether a program of `size` bytes may not stand after the version: all have 2 to 40, and at version 0 they have
/// 20 or 32.
pub(crate) fn is_refused_size(version: u8, size: usize) -> bool
    ensures { result ≡ is_refused version size }
{
    size < 2 || size > 40 || (version == 0 && size != 20 && size != 32)
}

/// The byte of a script that stands for a version, 0 to 16.
pub(crate) fn byte_of_version(version: u8) -> u8
    requires { version ≤ 16 }
    ensures { result ≡ version_byte version }
{
    if version == 0 { 0 } else { 0x50 + version }
}

/// The version for which a script's first byte stands.
pub(crate) fn version_of_byte(byte: u8) -> u8
    ensures { result ≡ version_of byte }
{
    byte.saturating_sub(0x50)
}

/// The checksum of the texts of a version: that of bech32 for version 0, and else that of bech32m.
pub(crate) fn checksum_of_version(version: u8) -> u32
    ensures { result ≡ sum_of version }
{
    if version == 0 { BECH32 } else { BECH32M }
}

/// Whether the script is a witness program of an allowed length.
#[tactic(auto, unfolding(crate::specs::Address::is_witness))]
pub(crate) fn is_witness_program(script: &[u8]) -> bool
    ensures value { result ≡ is_witness script.now }
    ensures least { IsTrue result → 4 ≤ length script.now }
    ensures most { IsTrue result → length script.now ≤ 42 }
{
    if script.len() < 4 {
        return false;
    }
    let has_version = script[0] == 0 || (script[0] >= 0x51 && script[0] <= 0x60);
    has_version
        && script[1] as usize + 2 == script.len()
        && !is_refused_size(version_of_byte(script[0]), script.len() - 2)
}
