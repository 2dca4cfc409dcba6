//! The pairs of a map, read from bytes that are known to be maps, and written.

ghost use Rattle.std.specs.Prelude.{◌≡◌, ◌<◌, ◌∷◌, ◌++◌, [], List, ℕ, All, AllPairs, IfOk, IfSome, None, Some, OnOk, length, option_copied};
ghost use Rattle.std.specs.List.{flat_map};
ghost use Rattle.fund_base.specs.CompactSize.{prefixed};
ghost use Rattle.psbt_codec.specs.Psbt.{IsString, Pair as Plain, map_text, pair_text};
ghost use Rattle.signed_psbt.specs.Maps.{ArePairs, IsPlain, Tells};
ghost use Rattle.psbt_keys.specs.Pairs.{HasLengths, pair_of_type, type_of};

use fund_base::{Cursor, Memory, are_bytes, write_prefixed};
use std::alloc::Global;
use std::marker::Model;

/// A key and its value.
#[derive(Drop)]
pub struct Pair {
    pub key: Vec<u8>,
    pub value: Vec<u8>,
}

impl Model for Pair {
    ghost use Rattle.psbt_codec.specs.Psbt.{Pair as Plain};

    ghost Value = { Plain };

    ghost view = { λ p. record { key = p.key.items; value = p.value.items } };
}

impl Pair {
    /// The pair of a type with these bytes behind it in the key. The error is out of memory.
    pub fn of_type(alloc: Global, kind: u8, key_data: &[u8], value: Vec<u8>) -> Result<Pair, Memory>
        ensures { IfOk result (λ p. p ≡ pair_of_type kind key_data.now value.items) }
    {
        let mut key = Vec::new(alloc);
        key.push(kind)?;
        key.extend_from_slice(key_data)?;
        Ok(Pair { key, value })
    }

    /// The pair of this key and value. The error is out of memory.
    pub fn copy_of(alloc: Global, key: &[u8], value: &[u8]) -> Result<Pair, Memory>
        ensures { IfOk result (λ p. p ≡ record { key = key.now; value = value.now }) }
    {
        let key = Vec::from_slice(alloc, key)?;
        let value = Vec::from_slice(alloc, value)?;
        Ok(Pair { key, value })
    }

    /// The type that the key begins with.
    pub fn kind(&self) -> u8
        ensures { result ≡ type_of self.now }
    {
        match self.key.first() {
            Some(kind) => *kind,
            None => 0,
        }
    }
}

/// The bytes behind their number, where such stand there.
fn string_of<'a>(cursor: &mut Cursor<'a>) -> Option<&'a [u8]>
    ensures string { (text : List ℕ) (behind : List ℕ) → IsString text → cursor.old.rest ≡ prefixed text ++ behind → (option_copied result ≡ Some text) × (cursor.new.rest ≡ behind) }
    ensures shorter { IfSome result (λ _. length cursor.new.rest < length cursor.old.rest) }
{
    let Ok(len) = cursor.compact() else {
        return None;
    };
    match cursor.take(len) {
        Ok(bytes) => Some(bytes),
        Err(_) => None,
    }
}

/// The key and the value of the next pair, or none where the map ends.
fn pair_of<'a>(cursor: &mut Cursor<'a>) -> Option<(&'a [u8], &'a [u8])>
    ensures pair { (p : Plain) (behind : List ℕ) → IsPlain p → cursor.old.rest ≡ pair_text p ++ behind → Tells result p × (cursor.new.rest ≡ behind) }
    ensures end { (behind : List ℕ) → cursor.old.rest ≡ 0 ∷ behind → (result ≡ None) × (cursor.new.rest ≡ behind) }
    ensures shorter { IfSome result (λ _. length cursor.new.rest < length cursor.old.rest) }
{
    let Some(key) = string_of(cursor) else {
        return None;
    };
    if key.is_empty() {
        return None;
    }
    let Some(value) = string_of(cursor) else {
        return None;
    };
    Some((key, value))
}

/// The pairs of the map that the cursor stands at, behind which it then stands. The error is out of memory.
pub fn pairs_of(alloc: Global, cursor: &mut Cursor) -> Result<Vec<Pair>, Memory>
    ensures { (pairs : List Plain) (behind : List ℕ) → ArePairs pairs → cursor.old.rest ≡ map_text pairs ++ behind → IfOk result (λ v. (v.items ≡ pairs) × (cursor.new.rest ≡ behind)) }
{
    let mut pairs = Vec::new(alloc);
    'reading: while let Some((key, value)) = pair_of(cursor) {
        match Pair::copy_of(alloc, key, value) {
            Ok(pair) => pairs.push(pair)?,
            Err(_) => return Err(Memory),
        }
    }
    Ok(pairs)
}

#[tactic(auto, unfolding(psbt_codec::specs::Psbt::pair_text))]
fn write_pair(out: &mut Vec<u8>, pair: &Pair) -> Result<(), Memory>
    ensures text { OnOk result (out.new.items ≡ out.old.items ++ pair_text pair.now) }
    ensures lengths { HasLengths pair.now }
{
    are_bytes(&pair.key);
    are_bytes(&pair.value);
    write_prefixed(out, &pair.key)?;
    write_prefixed(out, &pair.value)?;
    Ok(())
}

/// The pairs, one behind the other.
fn write_pairs(out: &mut Vec<u8>, pairs: &[Pair]) -> Result<(), Memory>
    ensures text { OnOk result (out.new.items ≡ out.old.items ++ flat_map pair_text pairs.now) }
    ensures lengths { OnOk result (All HasLengths pairs.now) }
{
    for pair in pairs {
        write_pair(out, pair)?;
    }
    Ok(())
}

/// The map of these pairs, which ends with a byte 00. The error is out of memory.
#[tactic(auto, unfolding(psbt_codec::specs::Psbt::map_text))]
pub fn write_map(out: &mut Vec<u8>, pairs: &[Pair]) -> Result<(), Memory>
    ensures text { OnOk result (out.new.items ≡ out.old.items ++ map_text pairs.now) }
    ensures lengths { OnOk result (All HasLengths pairs.now) }
{
    write_pairs(out, pairs)?;
    out.push(0)?;
    Ok(())
}
