//! Reading addresses: the script of a text, or the first fault in it.

ghost use Rattle.std.specs.Prelude.{ℕ, List, ◌≡◌, ◌+◌, ◌-◌, ◌≤◌, map, length, nat_le, Err, IfOk, IfSome, IsOk, IsTrue, MatchResult};
ghost use Rattle.std.specs.Char.{to_ascii_lowercase};
ghost use Rattle.std.specs.List.{list_any};
ghost use Rattle.fund_base.specs.Parsing.{YieldsAll};
ghost use Rattle.segwit_addr.specs.declared.fault.AddrFault.TheVariants.{Memory};
ghost use Rattle.segwit_addr.specs.Address.{IsAddress, has_lower, has_upper, is_witness};
ghost use Rattle.segwit_addr.specs.Reading.{behind_last, char_count, decode_of, has_outsider, has_unknown, is_badly_padded, parts_at, program_at, summed_at, versioned_at, split_at};
ghost use Rattle.segwit_addr.specs.Bech32.{value_of};

use crate::bech32::{BECH32, BECH32M, checksum, value};
use crate::fault::AddrFault;
use crate::program::{byte_of_version, checksum_of_version, is_refused_size, push_bytes};
use fund_base::Script;
use std::alloc::Global;

/// The human-readable part of the addresses of Bitcoin's main network.
const NETWORK: &[u8] = b"bc";

/// The most characters of an address.
const MOST: usize = 90;

/// The script that the text is an address of, upper case letters standing for lower case ones (BIP 173 and BIP 350).
///
/// An error is the first fault in the order of [`AddrFault`]. Memory is taken for the script of an address alone, so a
/// text with a fault is told by it whatever memory there is.
pub fn decode(alloc: Global, text: &str) -> Result<Script, AddrFault>
    // What is read is an address of the script, and each address of a script is read as it, memory aside.
    ensures found { IfOk result (λ script. IsAddress text.now script) }
    ensures only { (script : List ℕ) → IsAddress text.now script → MatchResult result (λ s. s ≡ script) (λ e. e ≡ Memory) }
    ensures witness { IfOk result (λ script. IsTrue (is_witness script)) }

    // Which fault it is.
    ensures exact { YieldsAll Memory (λ script. script) result (decode_of text.now) }
    ensures short { result ≡ Err Memory → IsOk (decode_of text.now) }
{
    script_of_text(alloc, text.as_bytes())
}

/// The script that a text is an address of.
#[tactic(auto, unfolding(crate::specs::Reading::decode_of))]
fn script_of_text(alloc: Global, text: &[u8]) -> Result<Script, AddrFault>
    ensures gives { YieldsAll Memory (λ script. script) result (decode_of text.now) }
    ensures short { result ≡ Err Memory → IsOk (decode_of text.now) }
{
    if text.len() < 8 || text.len() > MOST {
        return Err(AddrFault::Length);
    }
    if has_upper_case(text) && has_lower_case(text) {
        return Err(AddrFault::Case);
    }
    let mut room = [0; MOST];
    let lower = &mut room[..text.len()];
    put_lower(lower, text);
    script_of_lower(alloc, lower)
}

/// Writes the text, with the lower case letter in place of each upper case one of ASCII.
fn put_lower(room: &mut [u8], text: &[u8])
    requires { length room.old ≡ length text.now }
    ensures { room.new ≡ map to_ascii_lowercase text.now }
{
    for i in 0..text.len() {
        room[i] = text[i].to_ascii_lowercase();
    }
}

/// Whether an upper case letter of ASCII stands in the text.
#[tactic(auto, unfolding(crate::specs::Address::has_upper))]
fn has_upper_case(text: &[u8]) -> bool
    ensures { result ≡ has_upper text.now }
{
    text.iter().any(|c| c.is_ascii_uppercase())
}

/// Whether a lower case letter of ASCII stands in the text.
#[tactic(auto, unfolding(crate::specs::Address::has_lower))]
fn has_lower_case(text: &[u8]) -> bool
    ensures { result ≡ has_lower text.now }
{
    text.iter().any(|c| c.is_ascii_lowercase())
}

/// How many bytes stand after the last `1`. None exactly where there is none.
fn count_behind(text: &[u8]) -> Option<usize>
    ensures value { result ≡ behind_last text.now }
    ensures most { IfSome result (λ n. n + 1 ≤ length text.now) }
{
    text.iter().rev().position(|c| *c == b'1')
}

/// The number of characters of a part of a text in UTF-8.
#[tactic(auto, using(crate::proofs::Rows::counts))]
fn characters(text: &[u8]) -> usize
    ensures value { result ≡ char_count text.now }
    ensures most { result ≤ length text.now }
{
    text.iter().filter(|c| **c < 128 || **c >= 192).count()
}

/// Whether a character stands there that may not stand in a human-readable part: one outside 33 to 126.
#[tactic(auto, unfolding(crate::specs::Reading::has_outsider))]
fn has_other_character(prefix: &[u8]) -> bool
    ensures { result ≡ has_outsider prefix.now }
{
    prefix.iter().any(|c| *c < 33 || *c > 126)
}

/// Whether a letter isn't in the alphabet.
fn is_unknown(c: u8) -> bool
    ensures { result ≡ nat_le 32 (value_of c) }
{
    value(c) >= 32
}

/// Whether one of these letters isn't in the alphabet.
fn has_other_letter(letters: &[u8]) -> bool
    ensures { result ≡ list_any (λ c. nat_le 32 (value_of c)) letters.now }
{
    letters.iter().any(|c| is_unknown(*c))
}

/// The script of a text in lower case.
fn script_of_lower(alloc: Global, text: &[u8]) -> Result<Script, AddrFault>
    requires { length text.now ≤ 90 }
    ensures gives { YieldsAll Memory (λ script. script) result (split_at text.now (behind_last text.now)) }
    ensures short { result ≡ Err Memory → IsOk (split_at text.now (behind_last text.now)) }
{
    match count_behind(text) {
        Some(behind) => {
            let start = text.len() - behind;
            script_of_parts(alloc, &text[..start - 1], &text[start..])
        }
        None => Err(AddrFault::Separator),
    }
}

/// Writes the values of these letters, 32 standing for each that is not in the alphabet.
fn put_values(room: &mut [u8], letters: &[u8])
    requires { length room.old ≡ length letters.now }
    ensures { room.new ≡ map value_of letters.now }
{
    for i in 0..letters.len() {
        room[i] = value(letters[i]);
    }
}

/// The script of what stands before the separator and what stands after it.
#[tactic(auto, unfolding(crate::specs::Reading::parts_at, crate::specs::Reading::has_unknown), using(crate::proofs::Rules::values_any))]
fn script_of_parts(alloc: Global, prefix: &[u8], letters: &[u8]) -> Result<Script, AddrFault>
    requires { length letters.now ≤ 90 }
    ensures gives { YieldsAll Memory (λ script. script) result (parts_at prefix.now letters.now) }
    ensures short { result ≡ Err Memory → IsOk (parts_at prefix.now letters.now) }
{
    if prefix.is_empty() || characters(letters) < 7 {
        return Err(AddrFault::Separator);
    }
    if has_other_character(prefix) || has_other_letter(letters) {
        return Err(AddrFault::Letter);
    }
    let mut room = [0; MOST];
    let values = &mut room[..letters.len()];
    put_values(values, letters);
    script_of_summed(alloc, prefix, values)
}

/// The script of a human-readable part and the values of all letters after the separator.
#[tactic(auto, unfolding(crate::specs::Reading::summed_at))]
fn script_of_summed(alloc: Global, prefix: &[u8], values: &[u8]) -> Result<Script, AddrFault>
    requires least { 7 ≤ length values.now }
    requires most { length values.now ≤ 90 }
    ensures gives { YieldsAll Memory (λ script. script) result (summed_at prefix.now values.now) }
    ensures short { result ≡ Err Memory → IsOk (summed_at prefix.now values.now) }
{
    let sum = checksum(prefix, values);
    if sum != BECH32 && sum != BECH32M {
        return Err(AddrFault::Checksum);
    }
    if prefix != NETWORK {
        return Err(AddrFault::Network);
    }
    script_of_values(alloc, &values[..values.len() - 6], sum)
}

/// The script of the values between the separator and the checksum `sum`.
#[tactic(auto, unfolding(crate::specs::Reading::versioned_at))]
fn script_of_values(alloc: Global, values: &[u8], sum: u32) -> Result<Script, AddrFault>
    requires least { 1 ≤ length values.now }
    requires most { length values.now ≤ 90 }
    ensures gives { YieldsAll Memory (λ script. script) result (versioned_at values.now sum) }
    ensures short { result ≡ Err Memory → IsOk (versioned_at values.now sum) }
{
    let version = values[0];
    if version > 16 || sum != checksum_of_version(version) {
        return Err(AddrFault::Version);
    }
    script_of_program(alloc, version, &values[1..])
}

/// Whether the bits after the last whole byte of these values are five or more, or not all zero.
fn has_bad_padding(values: &[u8]) -> bool
    requires { length values.now ≤ 90 }
    ensures { result ≡ is_badly_padded values.now }
{
    let left = values.len() * 5 % 8;
    left >= 5 || (!values.is_empty() && values[values.len() - 1] % (1 << left) != 0)
}

/// The script of a version and the values of a program.
#[tactic(auto, unfolding(crate::specs::Reading::program_at))]
fn script_of_program(alloc: Global, version: u8, values: &[u8]) -> Result<Script, AddrFault>
    requires version { version ≤ 16 }
    requires most { length values.now ≤ 90 }
    ensures gives { YieldsAll Memory (λ script. script) result (program_at version values.now) }
    ensures short { result ≡ Err Memory → IsOk (program_at version values.now) }
{
    let size = values.len() * 5 / 8;
    if has_bad_padding(values) {
        return Err(AddrFault::Padding);
    }
    if is_refused_size(version, size) {
        return Err(AddrFault::Length);
    }
    let mut bytes = Vec::new(alloc);
    bytes.push(byte_of_version(version))?;
    bytes.push(size as u8)?;
    push_bytes(&mut bytes, values)?;
    Ok(Script::new(bytes))
}
