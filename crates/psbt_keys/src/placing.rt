//! Pairs put into a map where their keys don't stand yet.

ghost use Rattle.std.specs.Prelude.{◌≡◌, ◌≢◌, ◌⊎◌, ℕ, List, AllPairs, MatchResult, length, option_copied};
ghost use Rattle.psbt_codec.specs.Psbt.{HaveOtherKeys, Pair as Plain};
ghost use Rattle.psbt_keys.specs.Extended.{HasOtherValue, IsConflict, IsExtended};
ghost use Rattle.psbt_keys.specs.Pairs.{type_of};
ghost use Rattle.psbt_keys.specs.Placing.{IsPlace, IsPlaced, comes_before, value_under};
ghost use Rattle.psbt_keys.specs.declared.fault.MapFault.TheVariants.{Differs, Memory as NoMemory};

use crate::fault::MapFault;
use crate::pairs::Pair;
use std::alloc::Global;

/// Whether a key comes before another, compared byte by byte.
fn comes_before(key: &[u8], other: &[u8]) -> bool
    ensures { result ≡ comes_before key.now other.now }
{
    key.cmp(other).is_lt()
}

/// The place before the first pair whose key comes behind this one.
fn place_for(pairs: &[Pair], key: &[u8]) -> usize
    ensures { IsPlace key.now pairs.now result }
{
    for (place, pair) in pairs.iter().enumerate() {
        if comes_before(key, &pair.key) {
            return place;
        }
    }
    pairs.len()
}

/// The value that stands under a key.
fn value_under<'a>(pairs: &'a [Pair], key: &[u8]) -> Option<&'a [u8]>
    ensures { option_copied result ≡ value_under key.now pairs.now }
{
    match pairs.iter().find(|pair| pair.key.as_slice() == key) {
        Some(pair) => Some(&pair.value),
        None => None,
    }
}

/// Puts a pair where its key doesn't stand yet, in the order of keys. A pair of this key and value may stand there; one of
/// another value is a fault.
fn put(alloc: Global, pairs: &mut Vec<Pair>, number: usize, pair: &Pair) -> Result<(), MapFault>
    ensures { MatchResult result (λ _. IsPlaced pair.now pairs.old.items pairs.new.items) (λ e. e ≢ NoMemory → (e ≡ Differs number (type_of pair.now)) × HasOtherValue pairs.old.items pair.now) }
{
    let Some(value) = value_under(pairs, &pair.key) else {
        let place = place_for(pairs, &pair.key);
        pairs.insert(place, Pair::copy_of(alloc, &pair.key, &pair.value)?)?;
        return Ok(());
    };
    if value != pair.value.as_slice() {
        return Err(MapFault::Differs(number, pair.kind()));
    }
    Ok(())
}

/// Adds the due pairs to those of a map.
pub fn extend(alloc: Global, pairs: &mut Vec<Pair>, due: &[Pair]) -> Result<(), MapFault>
    ensures { AllPairs HaveOtherKeys pairs.old.items → AllPairs HaveOtherKeys due.now →
        MatchResult result (λ _. IsExtended due.now pairs.old.items pairs.new.items) (λ e. e ≢ NoMemory → (number : ℕ) × (kind : ℕ) × (e ≡ Differs number kind) × IsConflict due.now pairs.old.items number kind) }
{
    'adding: for number in 0..due.len() {
        match put(alloc, pairs, number, &due[number]) {
            Ok(()) => {}
            Err(fault) => return Err(fault),
        }
    }
    Ok(())
}
