//! The rules of an entry's parts, and of keys.

ghost use Rattle.std.specs.Prelude.{ℕ, ◌≡◌, ◌≢◌, ◌&&◌, ◌==◌, [], None, Err, bytes_eq, drop, length, not, position, slice_index, take};
ghost use Rattle.sha2.specs.Sha256.{sha256};
ghost use Rattle.json_fields.specs.Fields.{refuse};
ghost use Rattle.json_fields.specs.declared.fault.FieldFault.TheVariants.{Memory as NoMemory};
ghost use Rattle.keys_text.specs.Judging.{fits_internal, fits_key, fits_redeem, fits_witness, has_key, has_script_length, is_compressed, is_xpub, pays_script_hash, pays_taproot, program_of, repeat_from, witness_program};
ghost use Rattle.keys_text.specs.KeysText.{judged, keys_judged, told_index, unless, xpubs_judged};
ghost use Rattle.keys_text.specs.PlainKeys.{PlainKeyPath};
ghost use Rattle.keys_text.specs.declared.fault.KeysFault.TheVariants.{Field, Script as BadScript, Redeem, Witness, Internal, Key, RepeatKey, Xpub, RepeatXpub};

use crate::entries::Entry;
use crate::fault::KeysFault;
use crate::keys::{KeyPath, ScriptKeys};
use sha2::{Digest, Sha256};

/// The greatest length of a script, in bytes.
const MOST_SCRIPT: usize = 10_000;

/// A place in a list as a fault tells it, 4,294,967,295 at most.
fn told_index(index: usize) -> u32
    ensures { result ≡ told_index index }
{
    index.min(u32::MAX as usize) as u32
}

// ---- scripts

fn has_script_length(script: &[u8]) -> bool
    ensures { result ≡ has_script_length script.now }
{
    !script.is_empty() && script.len() <= MOST_SCRIPT
}

/// Whether a script pays to a script hash (BIP 16).
fn pays_script_hash(script: &[u8]) -> bool
    ensures { result ≡ pays_script_hash script.now }
{
    if script.len() != 23 {
        return false;
    }
    let begins = script[..2] == [0xa9, 0x14];
    let ends = script[22..] == [0x87];
    begins && ends
}

/// Whether a script pays to taproot (BIP 341).
fn pays_taproot(script: &[u8]) -> bool
    ensures { result ≡ pays_taproot script.now }
{
    script.len() == 34 && script[..2] == [0x51, 0x20]
}

/// Whether a script pays to this witness script (BIP 141).
fn is_program(script: &[u8], witness: &[u8]) -> bool
    ensures { result ≡ bytes_eq script.now (witness_program witness.now) }
{
    let digest: [u8; 32] = Sha256::digest(witness);
    match script {
        [0x00, 0x20, program @ ..] => program == &digest[..],
        _ => false,
    }
}

fn fits_redeem(entry: &Entry) -> bool
    ensures { result ≡ fits_redeem entry.now }
{
    entry.known.redeem.is_none() || pays_script_hash(&entry.script)
}

fn fits_witness(entry: &Entry) -> bool
    ensures { result ≡ fits_witness entry.now }
{
    match &entry.known.witness {
        Some(witness) => match &entry.known.redeem {
            Some(redeem) => is_program(redeem.bytes(), witness.bytes()),
            None => is_program(&entry.script, witness.bytes()),
        },
        None => true,
    }
}

fn fits_internal(entry: &Entry) -> bool
    ensures { result ≡ fits_internal entry.now }
{
    if entry.known.internal.is_some() {
        pays_taproot(&entry.script)
    } else {
        !pays_taproot(&entry.script)
    }
}

// ---- keys

/// Whether these bytes are a public key in its compressed form.
fn is_compressed(key: &[u8]) -> bool
    ensures { result ≡ is_compressed key.now }
{
    match key.split_first() {
        Some((sign, x)) => (*sign == 2 || *sign == 3) && x.len() == 32,
        None => false,
    }
}

/// Whether this is the key of an entry with this internal key.
fn fits_key(internal: &Option<[u8; 32]>, key: &[u8]) -> bool
    ensures { result ≡ fits_key internal.now key.now }
{
    match internal {
        Some(internal) => key == &internal[..],
        None => is_compressed(key),
    }
}

/// Whether this is an extended public key to which its path leads.
fn is_xpub(key: &KeyPath) -> bool
    ensures { result ≡ is_xpub key.now }
{
    let bytes = key.key.as_slice();
    if bytes.len() != 78 {
        return false;
    }
    bytes[4] as usize == key.path.len() && is_compressed(&bytes[45..])
}

/// The first key that isn't one of an entry with this internal key.
fn first_unfit(internal: &Option<[u8; 32]>, keys: &[KeyPath]) -> Option<usize>
    ensures { result ≡ position (λ (k : PlainKeyPath). not (fits_key internal.now k.key)) keys.now }
{
    keys.iter().position(|key| !fits_key(internal, &key.key))
}

/// The first key that isn't an extended public key.
fn first_unextended(keys: &[KeyPath]) -> Option<usize>
    ensures { result ≡ position (λ (k : PlainKeyPath). not (is_xpub k)) keys.now }
{
    keys.iter().position(|key| !is_xpub(key))
}

/// Whether one of these is this key.
fn has_key(keys: &[KeyPath], key: &[u8]) -> bool
    ensures { result ≡ has_key keys.now key.now }
{
    keys.iter().any(|other| key == other.key.as_slice())
}

/// The first key that stands before it.
#[tactic(auto, using(crate::proofs::Repeats::goes_on, crate::proofs::Repeats::found, crate::proofs::Repeats::ends))]
fn first_repeat(keys: &[KeyPath]) -> Option<usize>
    ensures { result ≡ repeat_from [] keys.now }
{
    for i in 0..keys.len() {
        let key = &keys[i];
        if has_key(&keys[..i], &key.key) {
            return Some(i);
        }
    }
    None
}

// ---- what is refused

/// That a test is passed.
fn unless(passed: bool, fault: KeysFault) -> Result<(), KeysFault>
    ensures { result ≡ unless passed fault }
{
    if passed { Ok(()) } else { Err(fault) }
}

/// That the keys of an entry at this index keep their rules.
#[tactic(auto, unfolding(crate::specs::KeysText::keys_judged))]
fn judge_keys(index: usize, known: &ScriptKeys) -> Result<(), KeysFault>
    ensures exact { result ≡ keys_judged index known.now }
    ensures never { result ≢ Err (Field NoMemory) }
{
    if let Some(place) = first_unfit(&known.internal, &known.keys) {
        return Err(KeysFault::Key(told_index(index), told_index(place)));
    }
    match first_repeat(&known.keys) {
        Some(place) => Err(KeysFault::RepeatKey(told_index(index), told_index(place))),
        None => Ok(()),
    }
}

/// That an entry at this index keeps its rules, where its script may be listed before it. Of its faults it is the first in
/// the order of [`KeysFault`].
#[tactic(auto, unfolding(crate::specs::KeysText::judged))]
pub fn judge(listed: bool, index: usize, entry: &Entry) -> Result<(), KeysFault>
    ensures exact { result ≡ judged listed index entry.now }
    ensures never { result ≢ Err (Field NoMemory) }
{
    let told = told_index(index);
    let script = !listed && has_script_length(&entry.script);
    unless(script, KeysFault::Script(told))?;
    unless(fits_redeem(entry), KeysFault::Redeem(told))?;
    unless(fits_witness(entry), KeysFault::Witness(told))?;
    unless(fits_internal(entry), KeysFault::Internal(told))?;
    judge_keys(index, &entry.known)
}

/// That these are extended public keys, none of them twice.
#[tactic(auto, unfolding(crate::specs::KeysText::xpubs_judged))]
pub fn judge_xpubs(xpubs: &[KeyPath]) -> Result<(), KeysFault>
    ensures exact { result ≡ xpubs_judged xpubs.now }
    ensures never { result ≢ Err (Field NoMemory) }
{
    if let Some(place) = first_unextended(xpubs) {
        return Err(KeysFault::Xpub(told_index(place)));
    }
    match first_repeat(xpubs) {
        Some(place) => Err(KeysFault::RepeatXpub(told_index(place))),
        None => Ok(()),
    }
}
