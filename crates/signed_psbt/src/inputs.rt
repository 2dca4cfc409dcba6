//! Inputs with what their maps make final.

ghost use Rattle.std.specs.Prelude.{◌≡◌, ◌≢◌, ◌++◌, [], All, List, ℕ, IfOk, MatchOption, MatchResult, length, option_copied, unwrap_or};
ghost use Rattle.std.specs.List.{flat_map};
ghost use Rattle.psbt_codec.specs.Psbt.{Pair, map_text};
ghost use Rattle.psbt_codec.specs.declared.fault.PsbtFault.TheVariants.{Memory as OutOfMemory};
ghost use Rattle.psbt_codec.specs.Fault.{shown};
ghost use Rattle.psbt_codec.specs.Reading.{value_of};
ghost use Rattle.signed_psbt.specs.Maps.{ArePairs};
ghost use Rattle.signed_psbt.specs.Signed.{AreFinal, IsFinal, IsFirstFault, IsInputFault, IsStackOf};
ghost use Rattle.signed_psbt.specs.declared.fault.SignedFault.TheVariants.{Psbt};

use crate::fault::SignedFault;
use crate::maps::value_at;
use crate::stack::stack_in;
use fund_base::{Cursor, Memory, Script};
use std::alloc::Global;
use tx_codec::{TxIn, Witness};

/// An index as a fault shows it.
fn shown(index: usize) -> u32
    ensures { result ≡ shown index }
{
    index.min(u32::MAX as usize) as u32
}

/// The script of these bytes, or the empty one. The error is out of memory.
fn script_of(alloc: Global, bytes: Option<&[u8]>) -> Result<Script, Memory>
    ensures { IfOk result (λ s. s ≡ unwrap_or (option_copied bytes.entry) []) }
{
    let bytes = match bytes {
        Some(bytes) => Vec::from_slice(alloc, bytes)?,
        None => Vec::new(alloc),
    };
    Ok(Script::new(bytes))
}

/// The witness of these bytes, or the empty one, or none where they are the text of none. The error is out of memory.
fn witness_of(alloc: Global, bytes: Option<&[u8]>) -> Result<Option<Witness>, Memory>
    ensures { IfOk result (λ o. MatchOption o ((stack : List (List ℕ)) → IsStackOf (option_copied bytes.entry) stack → ⊥) (λ w. IsStackOf (option_copied bytes.entry) w)) }
{
    match bytes {
        Some(bytes) => stack_in(alloc, bytes),
        None => Ok(Some(Witness::new(Vec::new(alloc)))),
    }
}

/// The input of this index, with what its map makes final: the map that the cursor stands at, behind which it then stands.
fn final_input(
    alloc: Global,
    index: usize,
    given: &TxIn,
    cursor: &mut Cursor,
) -> Result<TxIn, SignedFault>
    ensures { (pairs : List Pair) (behind : List ℕ) → ArePairs pairs → cursor.old.rest ≡ map_text pairs ++ behind →
        MatchResult result (λ made. IsFinal given.now pairs made × (cursor.new.rest ≡ behind)) (λ e. e ≢ Psbt OutOfMemory → IsInputFault index pairs e) }
{
    let mut ahead = cursor.fork();
    let script = value_at(&mut ahead, 7);
    let witness = value_at(cursor, 8);
    if script.is_none() && witness.is_none() {
        return Err(SignedFault::Unsigned(shown(index)));
    }
    let Some(witness) = witness_of(alloc, witness)? else {
        return Err(SignedFault::Witness(shown(index)));
    };
    let script = script_of(alloc, script)?;
    Ok(TxIn {
        prev: given.prev,
        script,
        sequence: given.sequence,
        witness,
    })
}

/// The inputs with what their maps make final: the maps that the cursor stands at.
pub(crate) fn final_inputs(
    alloc: Global,
    inputs: &[TxIn],
    cursor: &mut Cursor,
) -> Result<Vec<TxIn>, SignedFault>
    ensures { (maps : List (List Pair)) (behind : List ℕ) → All ArePairs maps → length maps ≡ length inputs.now → cursor.old.rest ≡ flat_map map_text maps ++ behind →
        MatchResult result (λ made. AreFinal inputs.now maps made.items) (λ e. e ≢ Psbt OutOfMemory → IsFirstFault maps e) }
{
    let mut made = Vec::new(alloc);
    'making: for i in 0..inputs.len() {
        match final_input(alloc, i, &inputs[i], cursor) {
            Ok(input) => made.push(input)?,
            Err(fault) => return Err(fault),
        }
    }
    Ok(made)
}
