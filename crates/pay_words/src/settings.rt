//! The settings that the words give.

ghost use Rattle.std.specs.Prelude.{◌≡◌};
ghost use Rattle.pay_words.specs.Settings.{bump_or_none, fee_rate, locktime_or, max_fee, method_or_usual, rate_or, seed_or, settings_given, target_or, tries_or, usual_method};

use crate::fault::WordFault;
use crate::flag::Flag;
use crate::given::{Given, place_of};
use crate::values::{
    amount_at, has, locktime_at, method_at, number_at, rate_at, seed_at, txid_at, word_at,
};
use request_making::Settings;
use request_text::Method;

/// The fee rate, which has to be given. One below 1 satoshi per virtual byte is refused unless that is allowed.
fn fee_rate(words: &[String], given: &[Given]) -> Result<u64, WordFault>
    ensures { result ≡ fee_rate words.now given.now }
{
    match place_of(given, Flag::FeeRate) {
        None => Err(WordFault::Missing(Flag::FeeRate)),
        Some(place) => {
            let rate = rate_at(place, word_at(words, place))?;
            if rate < 1_000 && !has(given, Flag::AllowLowRate) {
                return Err(WordFault::LowRate(place));
            }
            Ok(rate)
        }
    }
}

/// The rate behind this flag: this one where it isn't given.
fn rate_or(rate: u64, flag: Flag, words: &[String], given: &[Given]) -> Result<u64, WordFault>
    ensures { result ≡ rate_or rate flag words.now given.now }
{
    match place_of(given, flag) {
        None => Ok(rate),
        Some(place) => rate_at(place, word_at(words, place)),
    }
}

/// The change that is aimed at: 50,000 satoshi where it isn't given.
fn change_target(words: &[String], given: &[Given]) -> Result<u64, WordFault>
    ensures { result ≡ target_or 50_000 words.now given.now }
{
    match place_of(given, Flag::ChangeTarget) {
        None => Ok(50_000),
        Some(place) => amount_at(place, word_at(words, place)),
    }
}

/// The method where none is given: weight where the recipients bear the fee, and else auto.
fn usual_method(given: &[Given]) -> Method
    ensures { result ≡ usual_method given.now }
{
    if has(given, Flag::FeeFromAmount) {
        Method::Weight
    } else {
        Method::Auto
    }
}

/// The method: the usual one where none is given.
fn method_or_usual(words: &[String], given: &[Given]) -> Result<Method, WordFault>
    ensures { result ≡ method_or_usual words.now given.now }
{
    match place_of(given, Flag::Method) {
        None => Ok(usual_method(given)),
        Some(place) => method_at(place, word_at(words, place)),
    }
}

/// The number of tries: 100,000 where it isn't given.
fn tries(words: &[String], given: &[Given]) -> Result<u64, WordFault>
    ensures { result ≡ tries_or 100_000 words.now given.now }
{
    match place_of(given, Flag::Tries) {
        None => Ok(100_000),
        Some(place) => number_at(place, word_at(words, place)),
    }
}

/// The seed: the one that was drawn where it isn't given.
fn seed_or(words: &[String], given: &[Given], drawn: [u8; 32]) -> Result<[u8; 32], WordFault>
    ensures { result ≡ seed_or drawn words.now given.now }
{
    match place_of(given, Flag::Seed) {
        None => Ok(drawn),
        Some(place) => seed_at(place, word_at(words, place)),
    }
}

/// The payment that is replaced, if one is.
fn bump_or_none(words: &[String], given: &[Given]) -> Result<Option<[u8; 32]>, WordFault>
    ensures { result ≡ bump_or_none words.now given.now }
{
    match place_of(given, Flag::Bump) {
        None => Ok(None),
        Some(place) => {
            let txid = txid_at(place, word_at(words, place))?;
            Ok(Some(txid))
        }
    }
}

/// The lock time: 0 where it isn't given.
fn locktime(words: &[String], given: &[Given]) -> Result<u32, WordFault>
    ensures { result ≡ locktime_or 0 words.now given.now }
{
    match place_of(given, Flag::LockTime) {
        None => Ok(0),
        Some(place) => locktime_at(place, word_at(words, place)),
    }
}

/// The greatest fee that is taken, if it is given.
pub fn max_fee(words: &[String], given: &[Given]) -> Result<Option<u64>, WordFault>
    ensures { result ≡ max_fee words.now given.now }
{
    match place_of(given, Flag::MaxFee) {
        None => Ok(None),
        Some(place) => {
            let fee = amount_at(place, word_at(words, place))?;
            Ok(Some(fee))
        }
    }
}

/// The settings of a request. What no flag says is as in [`Settings::new`]; but the wallet's own pending outputs are spent
/// only where the flag says so.
pub fn settings_given(
    words: &[String],
    given: &[Given],
    drawn: [u8; 32],
) -> Result<Settings, WordFault>
    ensures { result ≡ settings_given drawn words.now given.now }
{
    let rate = fee_rate(words, given)?;
    let long_term = rate_or(10_000, Flag::LongTerm, words, given)?;
    let discard = rate_or(10_000, Flag::Discard, words, given)?;
    let change_target = change_target(words, given)?;
    let method = method_or_usual(words, given)?;
    let tries = tries(words, given)?;
    let seed = seed_or(words, given, drawn)?;
    let bump = bump_or_none(words, given)?;
    let locktime = locktime(words, given)?;
    let mut settings = Settings::new(rate, method, seed);
    settings.long_term = long_term;
    settings.discard = discard;
    settings.change_target = change_target;
    settings.tries = tries;
    settings.take = !has(given, Flag::Stop);
    settings.zero_conf = has(given, Flag::ZeroConf);
    settings.include_unsafe = has(given, Flag::Unsafe);
    settings.group = has(given, Flag::Group);
    settings.replaceable = !has(given, Flag::NoReplace);
    settings.locktime = locktime;
    settings.bump = bump;
    Ok(settings)
}
