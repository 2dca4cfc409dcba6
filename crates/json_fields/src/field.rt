//! Values of one kind: numbers, flags, texts, hashes and coins. None of them takes memory.

ghost use Rattle.std.specs.Prelude.{◌≡◌, ◌≢◌, ◌≤◌, IfOk, IfSome, Err};
ghost use Rattle.json_fields.specs.Tree.{view};
ghost use Rattle.json_fields.specs.Fields.{number_at, flag_at, text_at, hash_in, hash_at, point_in, coin_in, coin_at, IsHash, IsPoint};
ghost use Rattle.json_fields.specs.Memory.{Exactly};
ghost use Rattle.json_fields.specs.declared.fault.FieldFault.TheVariants.{Memory};

use crate::fault::FieldFault;
use crate::tree::{bool_in, str_in, u64_in};
use fund_base::{OutPoint, Txid, are_bytes, read_decimal};
use hex::FromHex;
use json::Value;

/// The whole number of at most `most`.
#[tactic(auto, unfolding(crate::specs::Fields::number_at))]
pub fn number_of(value: &Value, name: &'static str, most: u64) -> Result<u64, FieldFault>
    ensures exact { result ≡ number_at name.now most (view value.now) }
    ensures never { result ≢ Err Memory }
    ensures most { IfOk result (λ n. n ≤ most) }
{
    match u64_in(value) {
        Some(n) if n <= most => Ok(n),
        _ => Err(FieldFault::kind(name)),
    }
}

/// The truth value.
pub fn flag_of(value: &Value, name: &'static str) -> Result<bool, FieldFault>
    ensures exact { result ≡ flag_at name.now (view value.now) }
    ensures never { result ≢ Err Memory }
{
    match bool_in(value) {
        Some(flag) => Ok(flag),
        None => Err(FieldFault::kind(name)),
    }
}

/// The text of a string.
pub fn text_of<'t>(value: &Value<'t>, name: &'static str) -> Result<&'t str, FieldFault>
    ensures exact { Exactly (λ t. t.now) result (text_at name.now (view value.now)) }
    ensures never { result ≢ Err Memory }
{
    match str_in(value) {
        Some(text) => Ok(text),
        None => Err(FieldFault::kind(name)),
    }
}

/// The hash of these 64 hex digits, which show it with its bytes reversed.
#[tactic(auto, unfolding(crate::specs::Fields::hash_in))]
fn hash_in(text: &str) -> Option<[u8; 32]>
    ensures value { result ≡ hash_in text.now }
    ensures is { IfSome result IsHash }
{
    match <[u8; 32] as FromHex>::from_hex(text) {
        Ok(mut bytes) => {
            bytes.reverse();
            are_bytes(&bytes);
            Some(bytes)
        }
        Err(_) => None,
    }
}

/// The hash of 32 bytes that 64 hex digits show, in either case, with its bytes reversed.
#[tactic(auto, unfolding(crate::specs::Fields::hash_at))]
pub fn hash_of(value: &Value, name: &'static str) -> Result<[u8; 32], FieldFault>
    ensures exact { result ≡ hash_at name.now (view value.now) }
    ensures never { result ≢ Err Memory }
    ensures is { IfOk result IsHash }
{
    let text = text_of(value, name)?;
    match hash_in(text) {
        Some(hash) => Ok(hash),
        None => Err(FieldFault::kind(name)),
    }
}

/// The txid that is shown so.
pub fn txid_of(value: &Value, name: &'static str) -> Result<Txid, FieldFault>
    ensures exact { result ≡ hash_at name.now (view value.now) }
    ensures never { result ≢ Err Memory }
    ensures is { IfOk result IsHash }
{
    let hash = hash_of(value, name)?;
    Ok(Txid(hash))
}

/// The output at this index of this txid.
#[tactic(auto, unfolding(crate::specs::Fields::point_in))]
fn point_in(txid: &str, index: &str) -> Option<OutPoint>
    ensures value { result ≡ point_in txid.now index.now }
    ensures is { IfSome result IsPoint }
{
    let hash = hash_in(txid)?;
    let index = read_decimal(index.as_bytes(), u32::MAX as u64)?;
    Some(OutPoint {
        txid: Txid(hash),
        index: index as u32,
    })
}

#[tactic(auto, unfolding(crate::specs::Fields::coin_in))]
fn coin_in(text: &str) -> Option<OutPoint>
    ensures value { result ≡ coin_in text.now }
    ensures is { IfSome result IsPoint }
{
    match text.split_once(':') {
        Some((txid, index)) => point_in(txid, index),
        None => None,
    }
}

/// The output that is written as its txid, a colon, and its index in decimal.
#[tactic(auto, unfolding(crate::specs::Fields::coin_at))]
pub fn coin_of(value: &Value, name: &'static str) -> Result<OutPoint, FieldFault>
    ensures exact { result ≡ coin_at name.now (view value.now) }
    ensures never { result ≢ Err Memory }
    ensures is { IfOk result IsPoint }
{
    let text = text_of(value, name)?;
    match coin_in(text) {
        Some(coin) => Ok(coin),
        None => Err(FieldFault::kind(name)),
    }
}
