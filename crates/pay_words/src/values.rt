//! The values of flags, by their words.

ghost use Rattle.std.specs.Prelude.{◌≡◌, Err, option_copied};
ghost use Rattle.fund_base.specs.Parsing.{YieldsAll};
ghost use Rattle.pay_words.specs.Given.{BeginsWithFlag};
ghost use Rattle.pay_words.specs.Values.{amount_at, has, locktime_at, method_at, number_at, rate_at, seed_at, text_of, txid_at, value_in, word_at};
ghost use Rattle.pay_words.specs.declared.fault.WordFault.TheVariants.{Memory as OutOfMemory};

use crate::fault::WordFault;
use crate::flag::Flag;
use crate::given::{Given, flags_in, place_of};
use fund_base::read_decimal;
use request_making::{read_amount, read_rate};
use request_text::Method;
use std::alloc::Global;

/// The word at this place; the empty one where there is none.
pub fn word_at(words: &[String], place: usize) -> &str
    ensures { result.now ≡ word_at words.now place }
{
    match words.get(place) {
        Some(word) => word.as_str(),
        None => "",
    }
}

/// Whether the flag is given.
pub fn has(given: &[Given], flag: Flag) -> bool
    ensures { result ≡ has given.now flag }
{
    place_of(given, flag).is_some()
}

/// The value of the flag, if it is given.
pub fn text_of<'a>(words: &'a [String], given: &[Given], flag: Flag) -> Option<&'a str>
    ensures { option_copied result ≡ text_of words.now given.now flag }
{
    match place_of(given, flag) {
        Some(place) => Some(word_at(words, place)),
        None => None,
    }
}

/// The value of the flag by the words alone, if it is given; or their first fault, where they aren't flags with their values. It runs out
/// of memory only where the first word is that of a flag.
#[tactic(auto, unfolding(crate::specs::Values::value_in))]
pub fn value_in<'a>(
    alloc: Global,
    words: &'a [String],
    flag: Flag,
) -> Result<Option<&'a str>, WordFault>
    ensures gives { YieldsAll OutOfMemory option_copied result (value_in flag words.now) }
    ensures short { result ≡ Err OutOfMemory → BeginsWithFlag words.now }
{
    let given = flags_in(alloc, words)?;
    Ok(text_of(words, given.as_slice(), flag))
}

/// The amount that is spelled by a text of the word at this place.
pub fn amount_at(place: usize, text: &str) -> Result<u64, WordFault>
    ensures { result ≡ amount_at place text.now }
{
    match read_amount(text.as_bytes()) {
        Ok(amount) => Ok(amount),
        Err(fault) => Err(WordFault::Amount(place, fault)),
    }
}

/// The rate that the word at this place spells.
pub fn rate_at(place: usize, text: &str) -> Result<u64, WordFault>
    ensures { result ≡ rate_at place text.now }
{
    match read_rate(text.as_bytes()) {
        Ok(rate) => Ok(rate),
        Err(fault) => Err(WordFault::Rate(place, fault)),
    }
}

/// The number that the word at this place spells.
pub fn number_at(place: usize, text: &str) -> Result<u64, WordFault>
    ensures { result ≡ number_at place text.now }
{
    match read_decimal(text.as_bytes(), u64::MAX) {
        Some(number) => Ok(number),
        None => Err(WordFault::Number(place)),
    }
}

/// The lock time that the word at this place spells.
pub fn locktime_at(place: usize, text: &str) -> Result<u32, WordFault>
    ensures { result ≡ locktime_at place text.now }
{
    match read_decimal(text.as_bytes(), u32::MAX as u64) {
        Some(number) => Ok(number as u32),
        None => Err(WordFault::LockTime(place)),
    }
}

/// The txid that the word at this place spells, as txids are shown, with its bytes as they are hashed.
#[tactic(auto, unfolding(json_fields::specs::Fields::hash_in))]
pub fn txid_at(place: usize, text: &str) -> Result<[u8; 32], WordFault>
    ensures { result ≡ txid_at place text.now }
{
    let mut bytes = [0; 32];
    match hex::decode_to_slice(text.as_bytes(), &mut bytes) {
        Ok(()) => {
            bytes.reverse();
            Ok(bytes)
        }
        Err(_) => Err(WordFault::Txid(place)),
    }
}

/// The method that the word at this place names.
#[tactic(auto, unfolding(request_text::specs::RequestText::method_in))]
pub fn method_at(place: usize, text: &str) -> Result<Method, WordFault>
    ensures { result ≡ method_at place text.now }
{
    if text == "auto" {
        Ok(Method::Auto)
    } else if text == "changeless" {
        Ok(Method::Changeless)
    } else if text == "weight" {
        Ok(Method::Weight)
    } else if text == "draw" {
        Ok(Method::Draw)
    } else if text == "manual" {
        Ok(Method::Manual)
    } else {
        Err(WordFault::Method(place))
    }
}

/// The seed that the word at this place spells.
pub fn seed_at(place: usize, text: &str) -> Result<[u8; 32], WordFault>
    ensures { result ≡ seed_at place text.now }
{
    let mut bytes = [0; 32];
    match hex::decode_to_slice(text.as_bytes(), &mut bytes) {
        Ok(()) => Ok(bytes),
        Err(_) => Err(WordFault::Seed(place)),
    }
}
