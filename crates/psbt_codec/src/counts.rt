//! The global map of version 2, which tells the transaction without its inputs and outputs (BIP 370).

ghost use Rattle.std.specs.Prelude.{◌≡◌, ◌+◌, ◌<◌, ◌^◌, length, min, option_and_then};
ghost use Rattle.std.specs.List.{flat_map};
ghost use Rattle.psbt_codec.specs.Psbt.{pair_text};
ghost use Rattle.psbt_codec.specs.Reading.{begins, counts_at, count_in, field_fits, forms_at, is_wrong, number32_in, right_from, told_or, value_of, version_of, wrong_fault};

use crate::fault::PsbtFault;
use crate::pairs::{Pair, value_of};
use crate::values::{count_in, number32_in};
use fund_base::{Length, Writer, write_prefixed};
use tx_codec::TxFault;

/// A transaction without its inputs and outputs, and how many of them it has.
#[derive(Clone, Copy)]
pub struct Counts {
    pub version: u32,
    pub locktime: u32,
    pub inputs: u64,
    pub outputs: u64,
}

/// The number of four bytes that the pair of this type holds.
pub fn number32_of(pairs: &[Pair], kind: u8) -> Option<u32>
    ensures { result ≡ option_and_then number32_in (value_of kind pairs.now) }
{
    match value_of(pairs, kind) {
        Some(value) => number32_in(value),
        None => None,
    }
}

/// The number in CompactSize that the pair of this type holds.
fn count_of(pairs: &[Pair], kind: u8) -> Option<u64>
    ensures { result ≡ option_and_then count_in (value_of kind pairs.now) }
{
    match value_of(pairs, kind) {
        Some(value) => count_in(value),
        None => None,
    }
}

/// What the pair of this type holds, or a number where there is none.
pub fn number32_or(pairs: &[Pair], kind: u8, without: u32) -> u32
    ensures { result ≡ told_or without (option_and_then number32_in (value_of kind pairs.now)) }
{
    match number32_of(pairs, kind) {
        Some(number) => number,
        None => without,
    }
}

/// The version that the pairs of a global map tell (`PSBT_GLOBAL_VERSION` of BIP 174).
pub fn version_of(pairs: &[Pair]) -> u32
    ensures { result ≡ version_of pairs.now }
{
    number32_or(pairs, 251, 0)
}

/// Whether a key begins with this type, which takes one byte.
pub fn begins(kind: u8, key: &[u8]) -> bool
    ensures { result ≡ begins kind key.now }
{
    match key {
        [first, ..] => *first == kind,
        [] => false,
    }
}

fn field_fits(kind: u8, value: &[u8]) -> bool
    ensures { result ≡ field_fits kind value.now }
{
    match kind {
        0 => false,
        2 | 3 => number32_in(value).is_some(),
        _ => count_in(value).is_some(),
    }
}

/// Whether a pair of this type isn't as the type asks, by its value or by key data.
fn is_wrong(kind: u8, pair: &Pair) -> bool
    ensures { result ≡ is_wrong kind pair.now }
{
    begins(kind, pair.key) && !(pair.key.len() == 1 && field_fits(kind, pair.value))
}

fn wrong_fault(kind: u8, place: u64) -> PsbtFault
    ensures { result ≡ wrong_fault kind place }
{
    if kind == 0 {
        PsbtFault::Mixed(place)
    } else {
        PsbtFault::Field(place)
    }
}

/// How many bytes a pair takes. A number that doesn't fit counts as the greatest that does.
#[tactic(auto, unfolding(crate::specs::Psbt::pair_text))]
fn pair_len(pair: &Pair) -> u64
    ensures { result ≡ min (length (pair_text pair.now)) 18_446_744_073_709_551_615 }
{
    let mut length = Length::new();
    match write_prefixed(&mut length, pair.key) {
        Ok(()) => {}
        Err(never) => match never {},
    }
    match write_prefixed(&mut length, pair.value) {
        Ok(()) => length.get(),
        Err(never) => match never {},
    }
}

/// That no pair of this type, among those from this place on, isn't as the type asks. It takes no memory.
fn check_type(kind: u8, place: u64, pairs: &[Pair]) -> Result<(), PsbtFault>
    requires room { place + length (flat_map pair_text pairs.now) < 2 ^ 64 }
    ensures { result ≡ right_from kind place pairs.now }
{
    let mut place = place;
    for pair in pairs {
        if is_wrong(kind, pair) {
            return Err(wrong_fault(kind, place));
        }
        place += pair_len(pair);
    }
    Ok(())
}

/// That the pairs hold no unsigned transaction, and that each other type is as it must be. It takes no memory.
#[tactic(auto, unfolding(crate::specs::Reading::forms_at))]
fn check_forms(place: u64, pairs: &[Pair]) -> Result<(), PsbtFault>
    requires room { place + length (flat_map pair_text pairs.now) < 2 ^ 64 }
    ensures { result ≡ forms_at place pairs.now }
{
    check_type(0, place, pairs)?;
    check_type(2, place, pairs)?;
    check_type(3, place, pairs)?;
    check_type(4, place, pairs)?;
    check_type(5, place, pairs)
}

/// What the pairs of a global map tell that begins at this place. It takes no memory.
#[tactic(auto, unfolding(crate::specs::Reading::counts_at))]
pub fn counts_of(place: u64, pairs: &[Pair]) -> Result<Counts, PsbtFault>
    requires room { place + length (flat_map pair_text pairs.now) < 2 ^ 64 }
    ensures { result ≡ counts_at place pairs.now }
{
    check_forms(place, pairs)?;
    let Some(version) = number32_of(pairs, 2) else {
        return Err(PsbtFault::Lacking(2));
    };
    let Some(inputs) = count_of(pairs, 4) else {
        return Err(PsbtFault::Lacking(4));
    };
    let Some(outputs) = count_of(pairs, 5) else {
        return Err(PsbtFault::Lacking(5));
    };
    if inputs == 0 {
        return Err(PsbtFault::Unsigned(TxFault::NoInputs));
    }
    if outputs == 0 {
        return Err(PsbtFault::Unsigned(TxFault::NoOutputs));
    }
    Ok(Counts {
        version,
        locktime: number32_or(pairs, 3, 0),
        inputs,
        outputs,
    })
}
