//! The words of faults, in their parts.

ghost use Rattle.std.specs.Prelude.{◌≡◌, ◌++◌, IfOk, OnOk, string_bytes};
ghost use Rattle.command_end.specs.Name.{shown_name};
ghost use Rattle.command_end.specs.Parts.{part_text, parts_text};

use crate::coin_words::{coin_text, shown_hash};
use crate::name_words::shown_name;
use fund_base::{Memory, OutPoint};
use itoa::Buffer;
use json_fields::Name;
use std::alloc::Global;

/// A part of the words of a fault: a text, and what stands behind it. It borrows what it shows, so it takes no memory.
///
/// A function whose parts borrow nothing gives `Part<'a>` all the same, since an array must stand at one lifetime.
#[derive(Clone, Copy)]
pub enum Part<'a> {
    /// No bytes.
    Nothing,
    /// A text alone, as it stands.
    Text(&'a str),
    /// A number in decimal.
    Number(&'static str, u64),
    /// A sum in decimal, which may need more bits.
    Sum(&'static str, u128),
    /// A hash, as [`shown_hash`] shows it.
    Hash(&'static str, &'a [u8; 32]),
    /// A digest in lower-case hex, its bytes in their order.
    Digest(&'static str, &'a [u8; 32]),
    /// A coin, as [`coin_text`] shows it.
    Coin(&'static str, &'a OutPoint),
    /// A name that a file gives, as [`shown_name`] shows it.
    Name(&'static str, &'a str),
}

/// A part, and nothing behind it.
pub(crate) fn alone<'a>(part: Part<'a>) -> [Part<'a>; 4]
    ensures { parts_text result ≡ part_text part.entry }
{
    [part, Part::Nothing, Part::Nothing, Part::Nothing]
}

/// Parts behind a word.
pub(crate) fn behind<'a>(word: &'a str, parts: [Part<'a>; 4]) -> [Part<'a>; 5]
    ensures { parts_text result ≡ word.now ++ parts_text parts.entry }
{
    let [first, second, third, fourth] = parts;
    [Part::Text(word), first, second, third, fourth]
}

/// The name that a format fixes, behind a word.
pub(crate) fn fixed<'a>(word: &'static str, name: &'a Name) -> Part<'a>
    ensures { part_text result ≡ word.now ++ shown_name name.now }
{
    Part::Name(word, name.as_str())
}

/// A word and a text behind it, as it stands.
pub(crate) fn named<'a>(word: &'a str, text: &'a str) -> [Part<'a>; 2]
    ensures { parts_text result ≡ word.now ++ text.now }
{
    [Part::Text(word), Part::Text(text)]
}

/// Puts a word and what stands behind it after the text.
fn push_both(text: &mut String, word: &str, value: &str) -> Result<(), Memory>
    ensures { OnOk result (string_bytes text.new ≡ string_bytes text.old ++ (word.now ++ value.now)) }
{
    text.push_str(word)?;
    text.push_str(value)?;
    Ok(())
}

/// Puts a part after the text.
fn push_part(alloc: Global, text: &mut String, part: &Part) -> Result<(), Memory>
    ensures { OnOk result (string_bytes text.new ≡ string_bytes text.old ++ part_text part.now) }
{
    let mut buffer = Buffer::new();
    match *part {
        Part::Nothing => Ok(()),
        Part::Text(word) => {
            text.push_str(word)?;
            Ok(())
        }
        Part::Number(word, number) => push_both(text, word, buffer.format(number)),
        Part::Sum(word, sum) => push_both(text, word, buffer.format(sum)),
        Part::Hash(word, hash) => push_both(text, word, shown_hash(alloc, hash)?.as_str()),
        Part::Digest(word, digest) => {
            push_both(text, word, hex::encode(alloc, digest.as_slice())?.as_str())
        }
        Part::Coin(word, coin) => push_both(text, word, coin_text(alloc, coin)?.as_str()),
        Part::Name(word, name) => push_both(text, word, shown_name(alloc, name)?.as_str()),
    }
}

/// The words as one text. It refuses only when out of memory.
pub fn words_of(alloc: Global, parts: &[Part]) -> Result<String, Memory>
    ensures { IfOk result (λ text. string_bytes text ≡ parts_text parts.now) }
{
    let mut text = String::new(alloc);
    for part in parts {
        push_part(alloc, &mut text, part)?;
    }
    Ok(text)
}
