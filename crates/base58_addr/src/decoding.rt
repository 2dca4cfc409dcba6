//! Reading addresses: the script of a text, or the first fault in it.

ghost use Rattle.std.specs.Prelude.{ℕ, List, ◌≡◌, ◌++◌, ◌↔◌, length, take, drop, slice_index, bytes_eq, Err, IfOk, IsOk, IsTrue, MatchResult};
ghost use Rattle.fund_base.specs.Parsing.{YieldsAll};
ghost use Rattle.base58_addr.specs.declared.fault.Base58Fault.TheVariants.{Memory};
ghost use Rattle.base58_addr.specs.Base58.{bytes_of};
ghost use Rattle.base58_addr.specs.Address.{IsAddress, checksum_of, pays_hash};
ghost use Rattle.base58_addr.specs.Reading.{decode_of, hash_at, whole_at};

use crate::base58::{double_digest, has_other_letter, zero_letters};
use crate::fault::Base58Fault;
use crate::number::{number_of_letters, put_digits, zeros};
use fund_base::Script;
use std::alloc::{AllocError, Global};

/// The number of bytes for which an address stands.
const SIZE: usize = 25;

/// The script that the text is an address of: of a public key hash (`1..`) or of a script hash (`3..`).
///
/// An error is the first fault in the order of [`Base58Fault`]. Memory is taken for the script of an address alone, so
/// a text with a fault is told by it whatever memory there is.
pub fn decode(alloc: Global, text: &str) -> Result<Script, Base58Fault>
    // What is read is an address of the script, and each address of a script is read as it, memory aside.
    ensures found { IfOk result (λ script. IsAddress text.now script) }
    ensures only { (script : List ℕ) → IsAddress text.now script → MatchResult result (λ s. s ≡ script) (λ e. e ≡ Memory) }
    ensures pays { IfOk result (λ script. IsTrue (pays_hash script)) }

    // Which fault it is.
    ensures exact { YieldsAll Memory (λ script. script) result (decode_of text.now) }
    ensures short { result ≡ Err Memory → IsOk (decode_of text.now) }
{
    script_of_text(alloc, text.as_bytes())
}

/// The script that a text is an address of.
#[tactic(auto, unfolding(crate::specs::Reading::decode_of))]
fn script_of_text(alloc: Global, text: &[u8]) -> Result<Script, Base58Fault>
    ensures gives { YieldsAll Memory (λ script. script) result (decode_of text.now) }
    ensures short { result ≡ Err Memory → IsOk (decode_of text.now) }
{
    if has_other_letter(text) {
        return Err(Base58Fault::Letter);
    }
    let mut bytes = [0; SIZE];
    if !put_bytes(text, &mut bytes) {
        return Err(Base58Fault::Length);
    }
    script_of_bytes(alloc, &bytes)
}

/// Whether a text stands for as many bytes as there is room for. If so, they are written.
fn put_bytes(text: &[u8], room: &mut [u8]) -> bool
    requires { length room.old ≡ 25 }
    ensures size { IsTrue result ↔ length (bytes_of text.now) ≡ 25 }
    ensures bytes { IsTrue result → room.new ≡ bytes_of text.now }
{
    match number_of_letters(text) {
        Some(number) => {
            put_digits(number, 256, room);
            zeros(room) == zero_letters(text)
        }
        None => false,
    }
}

/// Whether these bytes are the first four of a digest.
fn is_checksum(last: &[u8], digest: &[u8; 32]) -> bool
    ensures { result ≡ bytes_eq last.now (take 4 digest.now) }
{
    last == &digest[..4]
}

/// Whether these bytes are the checksum of a version and a hash.
fn is_sealed(payload: &[u8], last: &[u8]) -> bool
    ensures { result ≡ bytes_eq last.now (checksum_of payload.now) }
{
    is_checksum(last, &double_digest(payload))
}

/// The script of the 25 bytes for which a text stands.
#[tactic(auto, unfolding(crate::specs::Reading::whole_at))]
fn script_of_bytes(alloc: Global, bytes: &[u8]) -> Result<Script, Base58Fault>
    requires { length bytes.now ≡ 25 }
    ensures gives { YieldsAll Memory (λ script. script) result (whole_at bytes.now) }
    ensures short { result ≡ Err Memory → IsOk (whole_at bytes.now) }
{
    if !is_sealed(&bytes[..21], &bytes[21..]) {
        return Err(Base58Fault::Checksum);
    }
    script_of_payload(alloc, &bytes[..21])
}

/// The script of 21 bytes of a version and a hash.
fn script_of_payload(alloc: Global, payload: &[u8]) -> Result<Script, Base58Fault>
    requires { length payload.now ≡ 21 }
    ensures gives { YieldsAll Memory (λ script. script) result (hash_at (slice_index payload.now 0) (drop 1 payload.now)) }
    ensures short { result ≡ Err Memory → IsOk (hash_at (slice_index payload.now 0) (drop 1 payload.now)) }
{
    script_of_hash(alloc, payload[0], &payload[1..])
}

/// The script of a version and a hash.
#[tactic(auto, unfolding(crate::specs::Reading::hash_at))]
fn script_of_hash(alloc: Global, version: u8, hash: &[u8]) -> Result<Script, Base58Fault>
    ensures gives { YieldsAll Memory (λ script. script) result (hash_at version hash.now) }
    ensures short { result ≡ Err Memory → IsOk (hash_at version hash.now) }
{
    if version == 0 {
        let script = script_around(alloc, &[0x76, 0xa9, 0x14], hash, &[0x88, 0xac])?;
        return Ok(script);
    }
    if version == 5 {
        let script = script_around(alloc, &[0xa9, 0x14], hash, &[0x87])?;
        return Ok(script);
    }
    Err(Base58Fault::Version)
}

/// The script of these three parts.
fn script_around(
    alloc: Global,
    front: &[u8],
    hash: &[u8],
    back: &[u8],
) -> Result<Script, AllocError>
    ensures { IfOk result (λ script. script ≡ front.now ++ (hash.now ++ back.now)) }
{
    let mut bytes = Vec::from_slice(alloc, front)?;
    bytes.extend_from_slice(hash)?;
    bytes.extend_from_slice(back)?;
    Ok(Script::new(bytes))
}
