//! The members of a request other than its lists, each with its own rules, and with its default where it is left out.

ghost use Rattle.std.specs.Prelude.{◌≡◌, ◌≢◌, ◌≤◌, ◌==◌, ◌||◌, IfErr, IfOk, IfSome, IsSome, Ok, Err, is_some, nat_lt, replicate, codes, true, if◌then◌else◌};
ghost use Rattle.serde_json.specs.Find.{get};
ghost use Rattle.json_fields.specs.Tree.{view};
ghost use Rattle.json_fields.specs.Fields.{IsHash, flag_at, number_at};
ghost use Rattle.json_fields.specs.declared.fault.FieldFault.TheVariants.{Memory as NoMemory};
ghost use Rattle.request_text.specs.RequestText.{bump_at, field, method_at, method_in, or_else, rate_at, seed_at, take_at, take_in, tries_at, version_at};
ghost use Rattle.request_text.specs.PlainRequest.{IsVersion};
ghost use Rattle.request_text.specs.Reported.{HasCause};
ghost use Rattle.request_text.specs.declared.fault.Refusal.TheVariants.{Field as FieldRefusal, TriesRange as BadTries};

use crate::fault::Refusal;
use crate::request::Method;
use fee_rates::MAX_RATE;
use fund_base::{MOST_TRIES, Txid, are_bytes};
use hex::FromHex;
use json::Value;
use json_fields::{FieldFault, Name, flag_of, member_in, number_of, text_of, txid_of};

/// The rate, of at most 100,000,000.
#[tactic(auto, unfolding(crate::specs::RequestText::rate_at))]
pub fn rate_of(value: &Value, name: &'static str) -> Result<u64, Refusal>
    ensures exact { result ≡ rate_at name.now (view value.now) }
    ensures never { result ≢ Err (FieldRefusal NoMemory) }
    ensures most { IfOk result (λ n. n ≤ MAX_RATE) }
    ensures cause { IfErr result HasCause }
{
    let rate = number_of(value, name, u64::MAX)?;
    if rate > MAX_RATE {
        return Err(Refusal::RateRange(Name::new(name)));
    }
    Ok(rate)
}

/// The rate of the member of this name.
pub fn rate_or(whole: &Value, name: &'static str, default: u64) -> Result<u64, Refusal>
    requires { default ≤ MAX_RATE }
    ensures exact { result ≡ or_else default (rate_at name.now) name.now (view whole.now) }
    ensures never { result ≢ Err (FieldRefusal NoMemory) }
    ensures most { IfOk result (λ n. n ≤ MAX_RATE) }
    ensures cause { IfErr result HasCause }
{
    match member_in(whole, name) {
        Some(value) => rate_of(value, name),
        None => Ok(default),
    }
}

/// The whole number, of at most `most`, of the member of this name.
pub fn number_or(whole: &Value, name: &'static str, most: u64, default: u64) -> Result<u64, Refusal>
    requires { default ≤ most }
    ensures exact { result ≡ or_else default (λ m. field (number_at name.now most m)) name.now (view whole.now) }
    ensures never { result ≢ Err (FieldRefusal NoMemory) }
    ensures most { IfOk result (λ n. n ≤ most) }
{
    match member_in(whole, name) {
        Some(value) => Ok(number_of(value, name, most)?),
        None => Ok(default),
    }
}

/// The truth value of the member of this name.
pub fn flag_or(whole: &Value, name: &'static str, default: bool) -> Result<bool, Refusal>
    ensures exact { result ≡ or_else default (λ m. field (flag_at name.now m)) name.now (view whole.now) }
    ensures never { result ≢ Err (FieldRefusal NoMemory) }
{
    match member_in(whole, name) {
        Some(value) => Ok(flag_of(value, name)?),
        None => Ok(default),
    }
}

/// The method that a word names.
#[tactic(auto, unfolding(crate::specs::RequestText::method_in))]
pub fn method_in(word: &str) -> Option<Method>
    ensures { result ≡ method_in word.now }
{
    if word == "auto" {
        Some(Method::Auto)
    } else if word == "changeless" {
        Some(Method::Changeless)
    } else if word == "weight" {
        Some(Method::Weight)
    } else if word == "draw" {
        Some(Method::Draw)
    } else if word == "manual" {
        Some(Method::Manual)
    } else {
        None
    }
}

#[tactic(auto, unfolding(crate::specs::RequestText::method_at))]
fn method_of(value: &Value) -> Result<Method, Refusal>
    ensures exact { result ≡ field (method_at (view value.now)) }
    ensures never { result ≢ Err (FieldRefusal NoMemory) }
{
    match method_in(text_of(value, "method")?) {
        Some(method) => Ok(method),
        None => Err(Refusal::Field(FieldFault::kind("method"))),
    }
}

/// The method, `auto` where it is left out.
pub fn method_or_auto(whole: &Value) -> Result<Method, Refusal>
    ensures exact { result ≡ or_else Method.Auto (λ m. field (method_at m)) (codes "method") (view whole.now) }
    ensures never { result ≢ Err (FieldRefusal NoMemory) }
{
    match member_in(whole, "method") {
        Some(value) => method_of(value),
        None => Ok(Method::Auto),
    }
}

#[tactic(auto, unfolding(crate::specs::RequestText::seed_at))]
fn seed_of(value: &Value) -> Result<[u8; 32], Refusal>
    ensures exact { result ≡ field (seed_at (view value.now)) }
    ensures never { result ≢ Err (FieldRefusal NoMemory) }
{
    match <[u8; 32] as FromHex>::from_hex(text_of(value, "seed")?) {
        Ok(seed) => Ok(seed),
        Err(_) => Err(Refusal::Field(FieldFault::kind("seed"))),
    }
}

/// The seed, zeros where it is left out.
pub fn seed_or_zeros(whole: &Value) -> Result<[u8; 32], Refusal>
    ensures exact { result ≡ or_else (replicate 32 0) (λ m. field (seed_at m)) (codes "seed") (view whole.now) }
    ensures never { result ≢ Err (FieldRefusal NoMemory) }
    ensures is { IfOk result IsHash }
{
    let seed = match member_in(whole, "seed") {
        Some(value) => seed_of(value)?,
        None => [0; 32],
    };
    are_bytes(&seed);
    Ok(seed)
}

/// That the number of tries is in its range. It never runs out of memory.
fn check_tries(tries: u64) -> Result<(), Refusal>
    ensures exact { result ≡ (if (tries == 0) || nat_lt 10_000_000 tries then Err BadTries else Ok tt) }
    ensures never { result ≢ Err (FieldRefusal NoMemory) }
{
    if tries == 0 || tries > MOST_TRIES {
        return Err(Refusal::TriesRange);
    }
    Ok(())
}

#[tactic(auto, unfolding(crate::specs::RequestText::tries_at))]
fn tries_of(value: &Value) -> Result<u64, Refusal>
    ensures exact { result ≡ tries_at (view value.now) }
    ensures never { result ≢ Err (FieldRefusal NoMemory) }
    ensures range { IfOk result (λ n. (1 ≤ n) × (n ≤ 10_000_000)) }
    ensures cause { IfErr result HasCause }
{
    let tries = number_of(value, "tries", u64::MAX)?;
    check_tries(tries)?;
    Ok(tries)
}

/// The number of tries, 100,000 where it is left out.
pub fn tries_or(whole: &Value, default: u64) -> Result<u64, Refusal>
    requires { (1 ≤ default) × (default ≤ 10_000_000) }
    ensures exact { result ≡ or_else default tries_at (codes "tries") (view whole.now) }
    ensures never { result ≢ Err (FieldRefusal NoMemory) }
    ensures range { IfOk result (λ n. (1 ≤ n) × (n ≤ 10_000_000)) }
    ensures cause { IfErr result HasCause }
{
    match member_in(whole, "tries") {
        Some(value) => tries_of(value),
        None => Ok(default),
    }
}

#[tactic(auto, unfolding(crate::specs::RequestText::take_in))]
fn take_in(word: &str) -> Option<bool>
    ensures { result ≡ take_in word.now }
{
    if word == "take" {
        Some(true)
    } else if word == "stop" {
        Some(false)
    } else {
        None
    }
}

#[tactic(auto, unfolding(crate::specs::RequestText::take_at))]
fn take_of(value: &Value) -> Result<bool, Refusal>
    ensures exact { result ≡ field (take_at (view value.now)) }
    ensures never { result ≢ Err (FieldRefusal NoMemory) }
{
    match take_in(text_of(value, "when_unfinished")?) {
        Some(take) => Ok(take),
        None => Err(Refusal::Field(FieldFault::kind("when_unfinished"))),
    }
}

/// Whether the best that was found is taken: so where the member is left out.
pub fn take_or_true(whole: &Value) -> Result<bool, Refusal>
    ensures exact { result ≡ or_else true (λ m. field (take_at m)) (codes "when_unfinished") (view whole.now) }
    ensures never { result ≢ Err (FieldRefusal NoMemory) }
{
    match member_in(whole, "when_unfinished") {
        Some(value) => take_of(value),
        None => Ok(true),
    }
}

/// The txid of the transaction that is replaced, if there is one.
pub fn bump_or_none(whole: &Value) -> Result<Option<Txid>, Refusal>
    ensures exact { result ≡ or_else None (λ m. field (bump_at m)) (codes "bump") (view whole.now) }
    ensures never { result ≢ Err (FieldRefusal NoMemory) }
    ensures is { IfOk result (λ b. IfSome b IsHash) }
    ensures there { IfOk result (λ b. IsSome b → is_some (get (codes "bump") (view whole.now)) ≡ true) }
{
    match member_in(whole, "bump") {
        Some(value) => Ok(Some(txid_of(value, "bump")?)),
        None => Ok(None),
    }
}

#[tactic(auto, unfolding(crate::specs::RequestText::version_at))]
fn version_of(value: &Value) -> Result<u32, Refusal>
    ensures exact { result ≡ field (version_at (view value.now)) }
    ensures never { result ≢ Err (FieldRefusal NoMemory) }
    ensures is { IfOk result IsVersion }
{
    match number_of(value, "psbt", u32::MAX as u64)? {
        0 => Ok(0),
        2 => Ok(2),
        _ => Err(Refusal::Field(FieldFault::kind("psbt"))),
    }
}

/// The version of the PSBT that is written, 0 where it is left out.
pub fn version_or_zero(whole: &Value) -> Result<u32, Refusal>
    ensures exact { result ≡ or_else 0 (λ m. field (version_at m)) (codes "psbt") (view whole.now) }
    ensures never { result ≢ Err (FieldRefusal NoMemory) }
    ensures is { IfOk result IsVersion }
{
    match member_in(whole, "psbt") {
        Some(value) => version_of(value),
        None => Ok(0),
    }
}
