//! Readers of words, numbers, places and digests, for texts of lines. Each answers what it read and the bytes behind
//! it, or the bytes that are left where no text goes on as they do.

ghost use Rattle.std.specs.Prelude.{◌≡◌, ◌≤◌, List, [], ℕ, length, take, drop, IfOk, IfSome};
ghost use Rattle.std.specs.List.{prefix_len};
ghost use Rattle.hex.specs.Hex.{is_hex_digit};
ghost use Rattle.closing_log.specs.Gives.{Gives, Reads};
ghost use Rattle.closing_log.specs.Reading.{choice_at, digest_at, digits_at, end_at, number_at, places_at, shorter_of, word_at};

use crate::fault::LineFault;
use fund_base::read_decimal;
use hex::FromHex;
use std::alloc::Global;

/// What is written as one word.
pub trait Worded: Copy {
    ghost text: { Self → List ℕ };

    /// The word.
    fn word(self) -> &'static str
        ensures { result.now ≡ text self };
}

/// This word. The error is what is left behind the bytes that it shares with the word.
#[tactic(auto, using(crate::proofs::Loops::word_more, crate::proofs::Loops::word_short, crate::proofs::Loops::word_differs, crate::proofs::Loops::word_done))]
pub fn read_word<'a>(bytes: &'a [u8], word: &[u8]) -> Result<&'a [u8], &'a [u8]>
    ensures { Reads (λ rest. (tt, rest.now)) result (word_at word.now bytes.now) }
{
    for (i, letter) in word.iter().enumerate() {
        let (_, rest) = bytes.split_at(i);
        if rest.is_empty() || rest[0] != *letter {
            return Err(rest);
        }
    }
    let (_, rest) = bytes.split_at(word.len());
    Ok(rest)
}

/// The shorter of two rests.
fn shorter<'a>(a: &'a [u8], b: &'a [u8]) -> &'a [u8]
    ensures { result.now ≡ shorter_of a.now b.now }
{
    if a.len() <= b.len() { a } else { b }
}

/// The first of these words that stands here. The error is what is left behind the bytes that the best of them
/// shares.
#[tactic(auto, using(crate::proofs::Loops::choice_found, crate::proofs::Loops::choice_more, crate::proofs::Loops::choice_none))]
pub fn read_choice<'a, W: Worded>(bytes: &'a [u8], words: &[W]) -> Result<(W, &'a [u8]), &'a [u8]>
    ensures { Reads (λ x. (x.0, x.1.now)) result (choice_at W.text words.now bytes.now bytes.now) }
{
    let mut stop = bytes;
    for choice in words {
        match read_word(bytes, choice.word().as_bytes()) {
            Ok(rest) => return Ok((*choice, rest)),
            Err(left) => stop = shorter(left, stop),
        }
    }
    Err(stop)
}

/// How many bytes still are a number of at most `most`.
#[tactic(auto, using(crate::proofs::Loops::digits_more, crate::proofs::Loops::digits_end, crate::proofs::Loops::digits_all))]
fn number_len(bytes: &[u8], most: u64) -> usize
    ensures within { result ≤ length bytes.now }
    ensures value { digits_at most [] bytes.now ≡ (take result bytes.now, drop result bytes.now) }
{
    for i in 0..bytes.len() {
        if read_decimal(&bytes[..i + 1], most).is_none() {
            return i;
        }
    }
    bytes.len()
}

/// The byte behind a number, if it is one of `ends`.
#[tactic(auto, unfolding(crate::specs::Reading::end_at))]
fn read_end<'a>(
    number: u64,
    bytes: &'a [u8],
    ends: &[u8],
) -> Result<((u64, u8), &'a [u8]), &'a [u8]>
    ensures value { Reads (λ x. (x.0, x.1.now)) result (end_at ends.now number bytes.now) }
    ensures same { IfOk result (λ x. x.0.0 ≡ number) }
{
    match bytes {
        [end, rest @ ..] if ends.contains(end) => Ok(((number, *end), rest)),
        _ => Err(bytes),
    }
}

/// A decimal number of at most `most` without a leading zero, and one of the bytes `ends` behind it, of which none is
/// a digit. The error is what is left where no such number and end go on as the bytes do.
#[tactic(auto, unfolding(crate::specs::Reading::number_at))]
pub fn read_number<'a>(
    bytes: &'a [u8],
    most: u64,
    ends: &[u8],
) -> Result<((u64, u8), &'a [u8]), &'a [u8]>
    ensures value { Reads (λ x. (x.0, x.1.now)) result (number_at most ends.now bytes.now) }
    ensures bound { IfOk result (λ x. x.0.0 ≤ most) }
{
    let (digits, rest) = bytes.split_at(number_len(bytes, most));
    match read_decimal(digits, most) {
        Some(number) => read_end(number, rest, ends),
        None => Err(rest),
    }
}

/// Numbers of at most 4,294,967,295 with a blank between them, at least one, and a line feed behind them.
#[tactic(auto, using(crate::proofs::Loops::places_more, crate::proofs::Loops::places_last, crate::proofs::Loops::places_fail, crate::proofs::Loops::places_out))]
pub fn read_places<'a>(
    alloc: Global,
    bytes: &'a [u8],
) -> Result<(Vec<u32>, &'a [u8]), LineFault<'a>>
    ensures { Gives (λ x. (x.0.items, x.1.now)) result (places_at bytes.now) }
{
    let mut places = Vec::new(alloc);
    let mut rest = bytes;
    for _ in 0..bytes.len() {
        let ((place, end), after) = read_number(rest, 4_294_967_295, b" \n")?;
        places.push(place as u32)?;
        rest = after;
        if end == b'\n' {
            return Ok((places, rest));
        }
    }
    Err(LineFault::Form(rest))
}

/// The 64 hex digits of 32 bytes, each in either case. The error is what is left behind the digits that there are.
#[tactic(auto, unfolding(crate::specs::Reading::digest_at))]
pub fn read_digest(bytes: &[u8]) -> Result<([u8; 32], &[u8]), &[u8]>
    ensures { Reads (λ x. (x.0, x.1.now)) result (digest_at bytes.now) }
{
    let (digits, rest) = bytes.split_at(bytes.len().min(64));
    match <[u8; 32]>::from_hex(digits) {
        Ok(digest) => Ok((digest, rest)),
        Err(_) => {
            let (_, stop) = bytes.split_at(hex_len(bytes));
            Err(stop)
        }
    }
}

/// Whether a byte is a hex digit, in either case.
fn is_hex(byte: u8) -> bool
    ensures { result ≡ is_hex_digit byte }
{
    matches!(byte, b'0'..=b'9' | b'a'..=b'f' | b'A'..=b'F')
}

/// How many hex digits stand in front.
#[tactic(auto, using(crate::proofs::Loops::prefix_found, crate::proofs::Loops::prefix_whole))]
fn hex_len(bytes: &[u8]) -> usize
    ensures within { result ≤ length bytes.now }
    ensures value { result ≡ prefix_len is_hex_digit bytes.now }
{
    for (i, byte) in bytes.iter().enumerate() {
        if !is_hex(*byte) {
            return i;
        }
    }
    bytes.len()
}
