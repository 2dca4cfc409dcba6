//! A flag and its value as one word.

ghost use Rattle.std.specs.Prelude.{◌≡◌, ◌++◌, ◌∷◌, [], IfOk, OnOk, map, string_bytes, Some};
ghost use Rattle.pay_words.specs.Flags.{flag_of};
ghost use Rattle.pay_words.specs.Spread.{is_for_value, spread_by, spread_of, spread_word};

use crate::flag::{flag_of, takes_value};
use crate::payments::cut_of;
use fund_base::Memory;
use std::alloc::Global;

/// Whether the word is that of a flag that takes a value.
fn is_for_value(word: &str) -> bool
    ensures { result ≡ is_for_value (flag_of word.now) }
{
    match flag_of(word) {
        Some(flag) => takes_value(flag),
        None => false,
    }
}

/// Adds a copy of a word to others.
pub fn put_word(alloc: Global, spread: &mut Vec<String>, word: &str) -> Result<(), Memory>
    ensures { OnOk result (map string_bytes spread.new.items ≡ map string_bytes spread.old.items ++ word.now ∷ []) }
{
    let copy = String::from_str(alloc, word)?;
    spread.push(copy)?;
    Ok(())
}

/// Adds a word whose first `=` stands between these parts to others: as two words where the first is a flag that takes a value.
fn put_parts(
    alloc: Global,
    spread: &mut Vec<String>,
    word: &str,
    front: &str,
    value: &str,
) -> Result<(), Memory>
    ensures { OnOk result (map string_bytes spread.new.items ≡ map string_bytes spread.old.items ++ spread_by word.now (Some (front.now, value.now))) }
{
    if is_for_value(front) {
        put_word(alloc, spread, front)?;
        put_word(alloc, spread, value)?;
        Ok(())
    } else {
        put_word(alloc, spread, word)
    }
}

/// Adds a word to others: as two words where it is a flag with its value behind `=`.
fn put_spread(alloc: Global, spread: &mut Vec<String>, word: &str) -> Result<(), Memory>
    ensures { OnOk result (map string_bytes spread.new.items ≡ map string_bytes spread.old.items ++ spread_word word.now) }
{
    match cut_of(word) {
        None => put_word(alloc, spread, word),
        Some((front, value)) => put_parts(alloc, spread, word, front, value),
    }
}

/// The same words, with two in place of each that is a flag with its value behind `=`, as `--fee-rate=12`. It refuses only when out
/// of memory.
pub fn spread_words(alloc: Global, words: &[String]) -> Result<Vec<String>, Memory>
    ensures { IfOk result (λ v. map string_bytes v.items ≡ spread_of words.now) }
{
    let mut spread = Vec::new(alloc);
    for word in words {
        put_spread(alloc, &mut spread, word.as_str())?;
    }
    Ok(spread)
}
