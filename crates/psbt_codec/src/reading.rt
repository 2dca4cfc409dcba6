//! PSBTs read. Pairs of a type that has no meaning here are passed over.

ghost use Rattle.std.specs.Prelude.{◌≡◌, ◌≢◌, ◌==◌, ◌⊎◌, ◌+◌, ◌<◌, ◌^◌, ℕ, List, [], ◌++◌, length, take, Err, IfOk, IsSome, MatchResult};
ghost use Rattle.std.specs.List.{flat_map};
ghost use Rattle.fund_base.specs.Cursor.{IsBytes, after};
ghost use Rattle.fund_base.specs.Parsing.{Yields, YieldsAll};
ghost use Rattle.psbt_codec.specs.declared.fault.PsbtFault.TheVariants.{Magic, Trailing, NotBase64, Memory as OutOfMemory};
ghost use Rattle.psbt_codec.specs.declared.pairs.Part.TheVariants.{Global as OfGlobal};
ghost use Rattle.psbt_codec.specs.FirstPair.{BeginsByPair, HasFirstPair};
ghost use Rattle.psbt_codec.specs.PartialTransaction.{PartialTransaction};
ghost use Rattle.psbt_codec.specs.Psbt.{IsFollowed, IsReadable, IsReadableIn, magic, pair_text};
ghost use Rattle.psbt_codec.specs.Reading.{start, unless, value_of, unsigned_of, input_at, each_at, next_input_at, next_output_at, whole_at, version_of, behind_global, maps_at, psbt_at, versioned_of, read_of};

use crate::counts::version_of;
use crate::fault::PsbtFault;
use crate::fields::fields_behind;
use crate::known::{check_parent, spent_in};
use crate::pairs::{Pair, Part, pairs_of, value_of};
use crate::psbt::{Psbt, Spent, Versioned};
use crate::values::unsigned_in;
use fund_base::Cursor;
use std::alloc::Global;
use tx_codec::{Tx, TxIn, TxOut};

/// The five bytes that a PSBT begins with.
const MAGIC: [u8; 5] = *b"psbt\xff";

/// The unsigned transaction that the pairs of the global map hold.
fn unsigned_of(alloc: Global, pairs: &[Pair]) -> Result<Tx, PsbtFault>
    ensures gives { YieldsAll OutOfMemory (λ t. t) result (unsigned_of (value_of 0 pairs.now)) }
    ensures short { result ≡ Err OutOfMemory → IsSome (value_of 0 pairs.now) }
{
    match value_of(pairs, 0) {
        Some(bytes) => unsigned_in(alloc, bytes),
        None => Err(PsbtFault::NoUnsigned),
    }
}

#[tactic(auto, unfolding(crate::specs::Reading::input_at))]
fn input_of(
    alloc: Global,
    index: u64,
    input: &TxIn,
    cursor: &mut Cursor,
) -> Result<Spent, PsbtFault>
    ensures { Yields OutOfMemory (λ s. s) cursor.new result (input_at index input.now cursor.old) }
{
    let pairs = pairs_of(alloc, Part::Input, cursor)?;
    let spent = spent_in(alloc, &pairs)?;
    check_parent(index, input, &spent.whole)?;
    Ok(spent)
}

#[tactic(auto, using(crate::proofs::EachLaws::each_none, crate::proofs::EachLaws::inputs_more, crate::proofs::EachLaws::each_all))]
fn inputs_of(alloc: Global, inputs: &[TxIn], cursor: &mut Cursor) -> Result<Vec<Spent>, PsbtFault>
    ensures { Yields OutOfMemory (λ v. v.items) cursor.new result (each_at next_input_at [] inputs.now cursor.old) }
{
    let mut spent = Vec::new(alloc);
    for input in inputs {
        let known = input_of(alloc, spent.len() as u64, input, cursor)?;
        spent.push(known)?;
    }
    Ok(spent)
}

#[tactic(auto, using(crate::proofs::EachLaws::each_none, crate::proofs::EachLaws::outputs_more, crate::proofs::EachLaws::each_all))]
fn outputs_of(alloc: Global, outputs: &[TxOut], cursor: &mut Cursor) -> Result<(), PsbtFault>
    ensures { Yields OutOfMemory (λ u. u) cursor.new result (each_at next_output_at tt outputs.now cursor.old) }
{
    for _output in outputs {
        pairs_of(alloc, Part::Output, cursor)?;
    }
    Ok(())
}

/// What stands behind the pairs of a global map of version 0.
#[tactic(auto, unfolding(crate::specs::Reading::whole_at))]
fn whole_behind(alloc: Global, pairs: &[Pair], cursor: &mut Cursor) -> Result<Psbt, PsbtFault>
    ensures gives { Yields OutOfMemory (λ p. p) cursor.new result (whole_at pairs.now cursor.old) }
    ensures short { result ≡ Err OutOfMemory → IsSome (value_of 0 pairs.now) }
{
    let tx = unsigned_of(alloc, pairs)?;
    let spent = inputs_of(alloc, &tx.inputs, cursor)?;
    outputs_of(alloc, &tx.outputs, cursor)?;
    Ok(Psbt { tx, spent })
}

/// What stands behind the pairs of a global map, which begins at this place.
#[tactic(auto, unfolding(crate::specs::Reading::behind_global))]
fn behind_global(
    alloc: Global,
    place: u64,
    pairs: &[Pair],
    cursor: &mut Cursor,
) -> Result<Versioned, PsbtFault>
    requires room { place + length (flat_map pair_text pairs.now) < 2 ^ 64 }
    ensures gives { Yields OutOfMemory (λ v. v) cursor.new result (behind_global place pairs.now cursor.old) }
    ensures short { result ≡ Err OutOfMemory → IsSome (value_of 0 pairs.now) ⊎ (version_of pairs.now ≡ 2) }
{
    match version_of(pairs) {
        0 => {
            let psbt = whole_behind(alloc, pairs, cursor)?;
            Ok(Versioned { version: 0, psbt })
        }
        2 => {
            let psbt = fields_behind(alloc, place, pairs, cursor)?;
            Ok(Versioned { version: 2, psbt })
        }
        version => Err(PsbtFault::Version(version)),
    }
}

#[tactic(auto, unfolding(crate::specs::Reading::maps_at))]
fn maps_of(alloc: Global, cursor: &mut Cursor) -> Result<Versioned, PsbtFault>
    ensures gives { Yields OutOfMemory (λ v. v) cursor.new result (maps_at cursor.old) }
    ensures begun { result ≡ Err OutOfMemory → HasFirstPair OfGlobal cursor.old }
{
    let front = cursor.fork();
    let pairs = pairs_of(alloc, Part::Global, cursor)?;
    behind_global(alloc, front.place(), &pairs, cursor)
}

#[tactic(auto, unfolding(crate::specs::Reading::psbt_at))]
fn psbt_of(alloc: Global, cursor: &mut Cursor) -> Result<Versioned, PsbtFault>
    ensures gives { Yields OutOfMemory (λ v. v) cursor.new result (psbt_at cursor.old) }
    ensures short { result ≡ Err OutOfMemory → take 5 cursor.old.rest ≡ magic }
    ensures begun { result ≡ Err OutOfMemory → HasFirstPair OfGlobal (after 5 cursor.old) }
{
    match cursor.take(5) {
        Ok(first) if first == MAGIC.as_slice() => maps_of(alloc, cursor),
        _ => Err(PsbtFault::Magic),
    }
}

/// That nothing is left. It never runs out of memory.
fn check_end(cursor: &Cursor) -> Result<(), PsbtFault>
    ensures { result ≡ unless (length cursor.now.rest == 0) (Trailing cursor.now.place) }
{
    if cursor.rest().is_empty() {
        return Ok(());
    }
    Err(PsbtFault::Trailing(cursor.place()))
}

fn whole_of(alloc: Global, bytes: &[u8]) -> Result<Versioned, PsbtFault>
    ensures exact { YieldsAll OutOfMemory (λ v. v) result (versioned_of bytes.now) }
    ensures short { result ≡ Err OutOfMemory → take 5 bytes.now ≡ magic }
    ensures begun { result ≡ Err OutOfMemory → HasFirstPair OfGlobal (after 5 (start bytes.now)) }
    ensures bytes { IsBytes bytes.now }
{
    let mut cursor = Cursor::new(bytes);
    let read = psbt_of(alloc, &mut cursor)?;
    check_end(&cursor)?;
    Ok(read)
}

/// The PSBT that the bytes are, all of them, and its version: as [`read_psbt`] reads it, with the same faults.
/// [`PsbtFault::NotBase64`] never comes.
pub fn read_versioned(alloc: Global, bytes: &[u8]) -> Result<Versioned, PsbtFault>
    // What is read is readable as the answer in its version, and what is readable as a PSBT is read as it, memory aside.
    ensures found { IfOk result (λ v. IsReadableIn v.version bytes.now v.psbt) }
    ensures only { (version : ℕ) (p : PartialTransaction) → IsReadableIn version bytes.now p → MatchResult result (λ v. (v.version ≡ version) × (v.psbt ≡ p)) (λ e. e ≡ OutOfMemory) }

    // Which fault it is.
    ensures exact { YieldsAll OutOfMemory (λ v. v) result (versioned_of bytes.now) }
    ensures magic { result ≡ Err Magic → (rest : List ℕ) → bytes.now ≢ magic ++ rest }
    ensures unmarked { ((rest : List ℕ) → bytes.now ≢ magic ++ rest) → result ≡ Err Magic }
    ensures trailing { (place : ℕ) → result ≡ Err (Trailing place) → IsFollowed bytes.now place }
    ensures followed { (place : ℕ) → IsFollowed bytes.now place → MatchResult result (λ _. ⊥) (λ e. e ≢ OutOfMemory → e ≡ Trailing place) }
    ensures never_text { result ≢ Err NotBase64 }

    // Memory is asked for behind the first pair of the global map, so no fault that shows before is out of memory.
    ensures begun { result ≡ Err OutOfMemory → BeginsByPair bytes.now }
{
    whole_of(alloc, bytes)
}

/// The same without the version.
fn psbt_in(alloc: Global, bytes: &[u8]) -> Result<Psbt, PsbtFault>
    ensures exact { YieldsAll OutOfMemory (λ p. p) result (read_of bytes.now) }
    ensures short { result ≡ Err OutOfMemory → take 5 bytes.now ≡ magic }
    ensures begun { result ≡ Err OutOfMemory → HasFirstPair OfGlobal (after 5 (start bytes.now)) }
    ensures bytes { IsBytes bytes.now }
{
    let read = whole_of(alloc, bytes)?;
    Ok(read.psbt)
}

/// The PSBT that the bytes are, all of them, in version 0 (BIP 174) or 2 (BIP 370): the unsigned transaction, and
/// what the inputs' maps tell of the outputs that it spends. Pairs of other types are passed over.
///
/// The fault is the first in reading order. Magic, Truncated, LongCompact and Trailing come where the
/// bytes stop being maps of pairs; RepeatKey at the second pair of a key, and Field at a pair that isn't
/// as its type asks. At the end of the global map come Version, and NoUnsigned, Unsigned and NotBare in version 0,
/// but in version 2 Mixed, Field for types 02 to 05, Lacking and Unsigned. At the end of an input's map come
/// Lacking and RequiredLock in version 2, and WrongParent; at the end of an output's in version 2 Lacking and
/// Unsigned. [`PsbtFault::NotBase64`] never comes.
pub fn read_psbt(alloc: Global, bytes: &[u8]) -> Result<Psbt, PsbtFault>
    // What is read is readable as the answer, and what is readable as a PSBT is read as it, memory aside.
    ensures found { IfOk result (λ p. IsReadable bytes.now p) }
    ensures only { (p : PartialTransaction) → IsReadable bytes.now p → MatchResult result (λ q. q ≡ p) (λ e. e ≡ OutOfMemory) }

    // Which fault it is.
    ensures exact { YieldsAll OutOfMemory (λ p. p) result (read_of bytes.now) }
    ensures magic { result ≡ Err Magic → (rest : List ℕ) → bytes.now ≢ magic ++ rest }
    ensures unmarked { ((rest : List ℕ) → bytes.now ≢ magic ++ rest) → result ≡ Err Magic }
    ensures trailing { (place : ℕ) → result ≡ Err (Trailing place) → IsFollowed bytes.now place }
    ensures followed { (place : ℕ) → IsFollowed bytes.now place → MatchResult result (λ _. ⊥) (λ e. e ≢ OutOfMemory → e ≡ Trailing place) }
    ensures never_text { result ≢ Err NotBase64 }

    // Memory is asked for behind the first pair of the global map, so no fault that shows before is out of memory.
    ensures begun { result ≡ Err OutOfMemory → BeginsByPair bytes.now }
{
    psbt_in(alloc, bytes)
}
