//! Writing the request file.

ghost use Rattle.std.specs.Prelude.{◌≡◌, IfOk, IfSome, OnOk, All, Some, map, reverse, string_bytes};
ghost use Rattle.hex.specs.Hex.{encode_lower};
ghost use Rattle.serde_json.specs.Data.{array, no_members, object};
ghost use Rattle.serde_json.specs.View.{items_of, members_view, view};
ghost use Rattle.json_fields.specs.Fields.{IsHash, parsed};
ghost use Rattle.request_text.specs.RequestText.{request_of};
ghost use Rattle.request_text.specs.Rules.{word_of};
ghost use Rattle.request_making.specs.Asked.{HasBytes, asked_of};
ghost use Rattle.request_making.specs.Written.{bump_put, coin_data, coins_put, flags_put, has_coins, lists_put, numbers_put, payment_data, request_bytes, request_data, take_word, words_put};

use crate::payment::{Payee, Payment};
use crate::settings::Settings;
use fund_base::{Memory, are_bytes};
use request_text::Method;
use serde_json::{Map, Value, json, put};
use std::alloc::Global;

/// The word of a method.
fn method_word(method: Method) -> &'static str
    ensures { result.now ≡ word_of method }
{
    match method {
        Method::Auto => "auto",
        Method::Changeless => "changeless",
        Method::Weight => "weight",
        Method::Draw => "draw",
        Method::Manual => "manual",
    }
}

/// The word for what is done when the tries are used up.
fn take_word(take: bool) -> &'static str
    ensures { result.now ≡ take_word take }
{
    if take { "take" } else { "stop" }
}

/// The JSON value of a recipient.
fn payment_value(alloc: Global, payment: &Payment) -> Result<Value, Memory>
    ensures made { IfOk result (λ v. view v ≡ payment_data payment.now) }
    ensures bytes { IfOk result (λ v. HasBytes payment.now) }
{
    match &payment.to {
        Payee::Address(text) => {
            Ok(json!(in alloc; {"address": text, "amount": payment.amount})?)
        }
        Payee::Script(script) => {
            are_bytes(script.bytes());
            let digits = hex::encode(alloc, script.bytes())?;
            Ok(json!(in alloc; {"script": &digits, "amount": payment.amount})?)
        }
    }
}

/// The JSON list of the recipients.
#[tactic(auto, using(crate::proofs::Lists::made_more, crate::proofs::Lists::bytes_more))]
fn payments_value(alloc: Global, payments: &[Payment]) -> Result<Value, Memory>
    ensures made { IfOk result (λ v. view v ≡ array (items_of (map payment_data payments.now))) }
    ensures bytes { IfOk result (λ v. All HasBytes payments.now) }
{
    let mut list = Vec::new(alloc);
    for payment in payments {
        let value = payment_value(alloc, payment)?;
        list.push(value)?;
    }
    Ok(Value::Array(list))
}

/// The JSON list of the coins.
#[tactic(auto, using(crate::proofs::Lists::made_more))]
fn coins_value(alloc: Global, coins: &[String]) -> Result<Value, Memory>
    ensures { IfOk result (λ v. view v ≡ array (items_of (map coin_data coins.now))) }
{
    let mut list = Vec::new(alloc);
    for coin in coins {
        let value = Value::try_from_str(alloc, coin.as_str())?;
        list.push(value)?;
    }
    Ok(Value::Array(list))
}

/// The seed in hex.
fn seed_text(alloc: Global, seed: &[u8; 32]) -> Result<String, Memory>
    ensures text { IfOk result (λ text. string_bytes text ≡ encode_lower seed.now) }
    ensures is { IfOk result (λ text. IsHash seed.now) }
{
    are_bytes(seed.as_slice());
    Ok(hex::encode(alloc, seed.as_slice())?)
}

/// A txid in lower-case hex with its bytes reversed, as it is shown.
fn txid_text(alloc: Global, txid: &[u8; 32]) -> Result<String, Memory>
    ensures text { IfOk result (λ text. string_bytes text ≡ encode_lower (reverse txid.now)) }
    ensures is { IfOk result (λ text. IsHash txid.now) }
{
    are_bytes(txid.as_slice());
    let mut bytes = *txid;
    bytes.reverse();
    Ok(hex::encode(alloc, bytes.as_slice())?)
}

/// Puts the payment that is replaced into the members, if there is one.
fn put_bump(
    alloc: Global,
    map: &mut Map<String, Value>,
    bump: &Option<[u8; 32]>,
) -> Result<(), Memory>
    ensures made { OnOk result (members_view map.new.entries ≡ bump_put bump.now (members_view map.old.entries)) }
    ensures txid { OnOk result (IfSome bump.now IsHash) }
{
    match bump {
        Some(txid) => {
            let text = txid_text(alloc, txid)?;
            let txid = Value::try_from_str(alloc, text.as_str())?;
            put(map, alloc, "bump", txid)?;
            Ok(())
        }
        None => Ok(()),
    }
}

/// Whether the list of coins is written: beside a payment that is replaced only where there are some.
fn has_coins(bump: &Option<[u8; 32]>, coins: &[String]) -> bool
    ensures { result ≡ has_coins bump.now coins.now }
{
    match bump {
        Some(_) => !coins.is_empty(),
        None => true,
    }
}

/// Puts the coins into the members.
fn put_coins(
    alloc: Global,
    map: &mut Map<String, Value>,
    coins: &[String],
    bump: &Option<[u8; 32]>,
) -> Result<(), Memory>
    ensures { OnOk result (members_view map.new.entries ≡ coins_put bump.now coins.now (members_view map.old.entries)) }
{
    if has_coins(bump, coins) {
        let listed = coins_value(alloc, coins)?;
        put(map, alloc, "coins", listed)?;
    }
    Ok(())
}

/// Puts the numbers of the settings into the members.
fn put_numbers(
    alloc: Global,
    map: &mut Map<String, Value>,
    settings: &Settings,
) -> Result<(), Memory>
    ensures { OnOk result (members_view map.new.entries ≡ numbers_put settings.now (members_view map.old.entries)) }
{
    put(map, alloc, "rate", Value::from(settings.rate))?;
    put(map, alloc, "long_term", Value::from(settings.long_term))?;
    put(map, alloc, "discard", Value::from(settings.discard))?;
    put(
        map,
        alloc,
        "change_target",
        Value::from(settings.change_target),
    )?;
    put(map, alloc, "locktime", Value::from(settings.locktime))?;
    put(map, alloc, "tries", Value::from(settings.tries))?;
    Ok(())
}

/// Puts the truth values of the settings into the members.
fn put_flags(alloc: Global, map: &mut Map<String, Value>, settings: &Settings) -> Result<(), Memory>
    ensures { OnOk result (members_view map.new.entries ≡ flags_put settings.now (members_view map.old.entries)) }
{
    put(map, alloc, "zero_conf", Value::from(settings.zero_conf))?;
    put(
        map,
        alloc,
        "include_unsafe",
        Value::from(settings.include_unsafe),
    )?;
    put(map, alloc, "group", Value::from(settings.group))?;
    put(map, alloc, "replaceable", Value::from(settings.replaceable))?;
    Ok(())
}

/// Puts the words of the settings into the members.
fn put_words(alloc: Global, map: &mut Map<String, Value>, settings: &Settings) -> Result<(), Memory>
    ensures made { OnOk result (members_view map.new.entries ≡ words_put settings.now (members_view map.old.entries)) }
    ensures seed { OnOk result (IsHash settings.now.seed) }
{
    let seed = seed_text(alloc, &settings.seed)?;
    let method = Value::try_from_str(alloc, method_word(settings.method))?;
    put(map, alloc, "method", method)?;
    let take = Value::try_from_str(alloc, take_word(settings.take))?;
    put(map, alloc, "when_unfinished", take)?;
    let seed = Value::try_from_str(alloc, seed.as_str())?;
    put(map, alloc, "seed", seed)?;
    Ok(())
}

/// Puts the recipients and the coins into the members.
fn put_lists(
    alloc: Global,
    map: &mut Map<String, Value>,
    payments: &[Payment],
    coins: &[String],
    bump: &Option<[u8; 32]>,
) -> Result<(), Memory>
    ensures made { OnOk result (members_view map.new.entries ≡ lists_put payments.now coins.now bump.now (members_view map.old.entries)) }
    ensures bytes { OnOk result (All HasBytes payments.now) }
{
    let recipients = payments_value(alloc, payments)?;
    put(map, alloc, "recipients", recipients)?;
    put_coins(alloc, map, coins, bump)?;
    Ok(())
}

/// The JSON value of the request.
fn request_value(
    alloc: Global,
    payments: &[Payment],
    coins: &[String],
    settings: &Settings,
) -> Result<Value, Memory>
    ensures made { IfOk result (λ v. view v ≡ object (lists_put payments.now coins.now settings.now.bump (bump_put settings.now.bump (words_put settings.now (flags_put settings.now (numbers_put settings.now no_members)))))) }
    ensures bytes { IfOk result (λ v. All HasBytes payments.now) }
    ensures seed { IfOk result (λ v. IsHash settings.now.seed) }
    ensures txid { IfOk result (λ v. IfSome settings.now.bump IsHash) }
{
    let mut map = Map::new(alloc);
    put_numbers(alloc, &mut map, settings)?;
    put_flags(alloc, &mut map, settings)?;
    put_words(alloc, &mut map, settings)?;
    put_bump(alloc, &mut map, &settings.bump)?;
    put_lists(alloc, &mut map, payments, coins, &settings.bump)?;
    Ok(Value::Object(map))
}

/// The text of a request file that asks for these payments, with these coins spent in any case, each as `TXID:INDEX`,
/// and with these settings. A reader of request files takes it as exactly that; or it refuses the text with the first
/// rule of requests that is broken, as `asked_of` says in words of what was given. It refuses only when out of memory.
pub fn request_text(
    alloc: Global,
    payments: &[Payment],
    coins: &[String],
    settings: &Settings,
) -> Result<String, Memory>
    // The file is read as what was asked, or refused for the first rule that this breaks.
    ensures read { IfOk result (λ text. request_of (string_bytes text) ≡ asked_of payments.now coins.now settings.now) }
    // It is the JSON text of the members, each of which is written but `psbt`, and `bump` and `coins` as they are asked for.
    ensures whole { IfOk result (λ text. parsed (string_bytes text) ≡ Some (request_data payments.now coins.now settings.now)) }
    // Its bytes are that JSON value on one line, without a blank outside of texts.
    ensures bytes { IfOk result (λ text. string_bytes text ≡ request_bytes payments.now coins.now settings.now) }
{
    let value = request_value(alloc, payments, coins, settings)?;
    let text = value.to_string(alloc)?;
    let _utf8 = text.as_str();
    Ok(text)
}
