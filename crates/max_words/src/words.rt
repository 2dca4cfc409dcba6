//! Words in which a recipient gets all.

ghost use Rattle.std.specs.Prelude.{◌≡◌, ◌&&◌, ◌++◌, ◌∷◌, ◌<◌, [], IfOk, IfSome, OnOk, length, map, option_map, string_bytes};
ghost use Rattle.pay_words.specs.Payments.{cut_of};
ghost use Rattle.pay_words.specs.Values.{word_at};
ghost use Rattle.max_words.specs.Words.{amount_behind, filled, has_others, is_max, is_payee, max_at, payees, with_amount};

use fund_base::Memory;
use pay_words::{Flag, flag_word};
use std::alloc::Global;

/// Whether a recipient stands behind the word.
fn is_payee(word: &str) -> bool
    ensures { result ≡ is_payee word.now }
{
    word == flag_word(Flag::To) || word == flag_word(Flag::ToScript)
}

/// What stands before and behind the first `=` of the word.
fn cut_of(word: &str) -> Option<(&str, &str)>
    ensures { option_map (λ p. (p.0.now, p.1.now)) result ≡ cut_of word.now }
{
    word.split_once('=')
}

/// Whether `max` stands behind the first `=` of the word.
fn is_max(word: &str) -> bool
    ensures { result ≡ is_max word.now }
{
    match cut_of(word) {
        Some((_, amount)) => amount == "max",
        None => false,
    }
}

/// Whether a word is that of a recipient that gets all.
fn gets_all(payee: bool, word: &str) -> bool
    ensures { result ≡ (payee && is_max word.now) }
{
    payee && is_max(word)
}

/// The place of the first recipient that gets all: behind the first `=` of its word stands `max`.
#[tactic(auto, unfolding(crate::specs::Words::max_from))]
pub fn max_at(words: &[String]) -> Option<usize>
    ensures value { result ≡ max_at words.now }
    ensures within { IfSome result (λ place. place < length words.now) }
{
    let mut payee = false;
    for (place, word) in words.iter().enumerate() {
        if gets_all(payee, word.as_str()) {
            return Some(place);
        }
        payee = is_payee(word.as_str());
    }
    None
}

/// How many recipients there are.
#[tactic(auto, unfolding(crate::specs::Words::payees))]
fn payees(words: &[String]) -> usize
    ensures { result ≡ payees words.now }
{
    words.iter().filter(|word| is_payee(word.as_str())).count()
}

/// Whether there is more than one recipient.
pub fn has_others(words: &[String]) -> bool
    ensures { result ≡ has_others words.now }
{
    1 < payees(words)
}

/// A recipient with this amount behind it, in satoshi.
#[tactic(auto, unfolding(crate::specs::Words::amount_behind))]
fn amount_behind(alloc: Global, amount: u64, to: &str) -> Result<String, Memory>
    ensures { IfOk result (λ text. string_bytes text ≡ amount_behind amount to.now) }
{
    Ok(format!(in alloc; "{}={}", to, amount)?)
}

/// The word of a recipient, with this amount in place of its own, in satoshi.
fn with_amount(alloc: Global, amount: u64, word: &str) -> Result<String, Memory>
    ensures { IfOk result (λ text. string_bytes text ≡ with_amount amount word.now) }
{
    match cut_of(word) {
        Some((to, _)) => amount_behind(alloc, amount, to),
        None => amount_behind(alloc, amount, word),
    }
}

/// The word at this place; the empty one where there is none.
fn word_at(words: &[String], place: usize) -> &str
    ensures { result.now ≡ word_at words.now place }
{
    match words.get(place) {
        Some(word) => word.as_str(),
        None => "",
    }
}

/// Adds a copy of a word to others.
fn put_word(alloc: Global, said: &mut Vec<String>, word: &str) -> Result<(), Memory>
    ensures { OnOk result (map string_bytes said.new.items ≡ map string_bytes said.old.items ++ word.now ∷ []) }
{
    let copy = String::from_str(alloc, word)?;
    said.push(copy)?;
    Ok(())
}

/// Adds copies of these words to others.
fn put_words(alloc: Global, said: &mut Vec<String>, words: &[String]) -> Result<(), Memory>
    ensures { OnOk result (map string_bytes said.new.items ≡ map string_bytes said.old.items ++ map string_bytes words.now) }
{
    for word in words {
        put_word(alloc, said, word.as_str())?;
    }
    Ok(())
}

/// The words with this amount, in satoshi, for the recipient at this place.
#[tactic(auto, using(crate::proofs::MaxLaws::three_parts))]
pub fn filled(
    alloc: Global,
    words: &[String],
    place: usize,
    amount: u64,
) -> Result<Vec<String>, Memory>
    requires { place < length words.now }
    ensures { IfOk result (λ v. map string_bytes v.items ≡ filled words.now place amount) }
{
    let recipient = with_amount(alloc, amount, word_at(words, place))?;
    let mut said = Vec::with_capacity(alloc, words.len())?;
    put_words(alloc, &mut said, &words[..place])?;
    put_word(alloc, &mut said, recipient.as_str())?;
    put_words(alloc, &mut said, &words[place + 1..])?;
    Ok(said)
}
