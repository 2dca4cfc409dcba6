//! The words of `pay` that say the same.

ghost use Rattle.std.specs.Prelude.{◌≡◌, ◌++◌, ◌∷◌, [], IfOk, OnOk, map, string_bytes};
ghost use Rattle.std.specs.List.{list_any};
ghost use Rattle.pay_words.specs.Payments.{is_equals};
ghost use Rattle.sweep_words.specs.Words.{begins_with_dash, least_of, said_behind, said_of, with_least};

use crate::foreign::payee_at;
use crate::least::{least_to, least_to_script};
use fund_base::Memory;
use pay_words::{Flag, flag_word};
use std::alloc::Global;

/// The least that is taken by a recipient, by the flag before it.
fn least_of(alloc: Global, flag: &str, to: &str) -> Result<u64, Memory>
    ensures { IfOk result (λ n. n ≡ least_of flag.now to.now) }
{
    if flag == flag_word(Flag::To) {
        least_to(alloc, to)
    } else {
        least_to_script(alloc, to)
    }
}

/// Whether the first byte is a dash, as that of a flag's word is, and that of no recipient.
fn begins_with_dash(word: &[u8]) -> bool
    ensures { result ≡ begins_with_dash word.now }
{
    match word {
        [] => false,
        [first, ..] => *first == b'-',
    }
}

/// Whether an amount stands in the word already, behind the sign `=`.
fn has_amount(word: &[u8]) -> bool
    ensures { result ≡ list_any is_equals word.now }
{
    for byte in word {
        if *byte == b'=' {
            return true;
        }
    }
    false
}

/// A recipient behind this flag, with the least that it takes, where no amount stands there.
#[tactic(auto, unfolding(crate::specs::Words::with_least))]
fn with_least(alloc: Global, flag: &str, to: &str) -> Result<String, Memory>
    ensures { IfOk result (λ text. string_bytes text ≡ with_least flag.now to.now) }
{
    if has_amount(to.as_bytes()) || begins_with_dash(to.as_bytes()) {
        return Ok(String::from_str(alloc, to)?);
    }
    let least = least_of(alloc, flag, to)?;
    Ok(format!(in alloc; "{}={}", to, least)?)
}

/// Adds a copy of a word to others.
fn put_word(alloc: Global, said: &mut Vec<String>, word: &str) -> Result<(), Memory>
    ensures { OnOk result (map string_bytes said.new.items ≡ map string_bytes said.old.items ++ word.now ∷ []) }
{
    let copy = String::from_str(alloc, word)?;
    said.push(copy)?;
    Ok(())
}

/// Adds copies of these words to others.
fn put_words(alloc: Global, said: &mut Vec<String>, words: &[String]) -> Result<(), Memory>
    ensures { OnOk result (map string_bytes said.new.items ≡ map string_bytes said.old.items ++ map string_bytes words.now) }
{
    for word in words {
        put_word(alloc, said, word.as_str())?;
    }
    Ok(())
}

/// Adds a flag, the recipient behind it with the least that it takes, and the words behind that. Where no recipient stands there, the
/// words are added as they are.
#[tactic(auto, using(crate::proofs::SaidLaws::three_parts))]
fn put_behind(alloc: Global, said: &mut Vec<String>, behind: &[String]) -> Result<(), Memory>
    ensures { OnOk result (map string_bytes said.new.items ≡ map string_bytes said.old.items ++ said_behind behind.now) }
{
    match behind {
        [flag, to, rest @ ..] => {
            let to = with_least(alloc, flag.as_str(), to.as_str())?;
            put_word(alloc, said, flag.as_str())?;
            put_word(alloc, said, to.as_str())?;
            put_words(alloc, said, rest)?;
            Ok(())
        }
        _ => put_words(alloc, said, behind),
    }
}

/// The words of `pay` that say the same: the recipient has the least that it takes behind it.
pub fn said_of(alloc: Global, words: &[String]) -> Result<Vec<String>, Memory>
    ensures { IfOk result (λ v. map string_bytes v.items ≡ said_of words.now) }
{
    let mut said = Vec::with_capacity(alloc, words.len())?;
    match payee_at(words) {
        Some(place) => {
            let (front, behind) = words.split_at(place);
            put_words(alloc, &mut said, front)?;
            put_behind(alloc, &mut said, behind)?;
        }
        None => put_words(alloc, &mut said, words)?,
    }
    Ok(said)
}
