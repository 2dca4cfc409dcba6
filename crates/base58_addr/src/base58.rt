//! The letters of base58, and the double SHA-256 that a checksum is taken from.

ghost use Rattle.std.specs.Prelude.{◌≡◌, ◌≤◌, ◌==◌, IfSome, length, nat_le};
ghost use Rattle.std.specs.List.{list_any, take_while};
ghost use Rattle.sha2.specs.Sha256.{sha256};
ghost use Rattle.base58_addr.specs.Base58.{found_at, letter_at, letter_of, other_letter, place_of, value_of};

use sha2::{Digest, Sha256};

/// The letters of the values from 0 to 57.
const ALPHABET: &[u8] = b"123456789ABCDEFGHJKLMNPQRSTUVWXYZabcdefghijkmnopqrstuvwxyz";

/// The place of the first such letter. None exactly where there is none.
#[tactic(auto, unfolding(crate::specs::Base58::found_at))]
fn find_in(letters: &[u8], c: u8) -> Option<usize>
    ensures value { result ≡ found_at letters.now c }
    ensures most { IfSome result (λ n. n ≤ length letters.now) }
{
    letters.iter().position(|a| *a == c)
}

/// The place of the first such letter, and the number of letters where there is none.
fn place_in(letters: &[u8], c: u8) -> usize
    ensures value { result ≡ place_of letters.now c }
    ensures most { result ≤ length letters.now }
{
    find_in(letters, c).unwrap_or(letters.len())
}

/// The value of a letter, and 58 where it is not in the alphabet.
#[tactic(auto, unfolding(crate::specs::Base58::value_of))]
pub(crate) fn value(c: u8) -> u8
    ensures { result ≡ value_of c }
{
    place_in(ALPHABET, c) as u8
}

/// The letter at a place below 58.
#[tactic(auto, unfolding(crate::specs::Base58::letter_at))]
fn letter_in(letters: &[u8], place: u8) -> u8
    requires { 58 ≤ length letters.now }
    ensures { result ≡ letter_at letters.now place }
{
    letters[(place % 58) as usize]
}

/// The letter of a value below 58.
pub(crate) fn letter(value: u8) -> u8
    ensures { result ≡ letter_of value }
{
    letter_in(ALPHABET, value)
}

/// Whether a letter isn't in the alphabet.
fn is_unknown(c: u8) -> bool
    ensures { result ≡ nat_le 58 (value_of c) }
{
    value(c) >= 58
}

/// The place of the first letter that isn't in the alphabet, counted in bytes from 0; none exactly where all are.
pub fn other_letter(text: &[u8]) -> Option<usize>
    ensures { result ≡ other_letter text.now }
{
    text.iter().position(|c| is_unknown(*c))
}

/// Whether one of these letters isn't in the alphabet.
pub(crate) fn has_other_letter(text: &[u8]) -> bool
    ensures { result ≡ list_any (λ c. nat_le 58 (value_of c)) text.now }
{
    text.iter().any(|c| is_unknown(*c))
}

/// Whether a letter stands for zero.
fn is_zero(c: u8) -> bool
    ensures { result ≡ (value_of c == 0) }
{
    value(c) == 0
}

/// How many letters that stand for zero a text begins with.
pub(crate) fn zero_letters(text: &[u8]) -> usize
    ensures { result ≡ length (take_while (λ c. value_of c == 0) text.now) }
{
    text.iter().take_while(|c| is_zero(**c)).count()
}

/// The SHA-256 of the SHA-256 of these bytes.
pub(crate) fn double_digest(bytes: &[u8]) -> [u8; 32]
    ensures { result ≡ sha256 (sha256 bytes.now) }
{
    let first: [u8; 32] = Sha256::digest(bytes);
    Sha256::digest(first)
}
