//! Keys added to the maps of a PSBT.

ghost use Rattle.std.specs.Prelude.{◌≡◌, ◌≢◌, ◌++◌, ℕ, List, All, AllPairs, IfErr, IfOk, MatchResult, length, option_copied};
ghost use Rattle.std.specs.List.{flat_map};
ghost use Rattle.psbt_codec.specs.Fault.{shown};
ghost use Rattle.psbt_codec.specs.Psbt.{HaveOtherKeys, IsReadable, Pair as Plain, map_text};
ghost use Rattle.psbt_codec.specs.declared.fault.PsbtFault.TheVariants.{Memory as OutOfMemory};
ghost use Rattle.signed_psbt.specs.Maps.{ArePairs};
ghost use Rattle.psbt_keys.specs.Extended.{IsConflict, IsFirstConflict};
ghost use Rattle.psbt_keys.specs.Keyed.{IsKeyFault, IsKeyed, IsSamePayment};
ghost use Rattle.psbt_keys.specs.Origins.{due_for, global_due, input_dues, output_dues, spent_script, types_of_input, types_of_output};
ghost use Rattle.psbt_keys.specs.Placing.{AreWritten, IsWritten};
ghost use Rattle.psbt_keys.specs.declared.fault.MapFault.TheVariants.{Differs, Memory as NoMemory};
ghost use Rattle.psbt_keys.specs.declared.fault.KeyFault.TheVariants.{Psbt as NoPsbt, Global as InGlobal, Input as InInput, Output as InOutput};

use crate::due::{OF_INPUT, OF_OUTPUT, due_for, global_due};
use crate::fault::{KeyFault, MapFault};
use crate::maps::add_map;
use fund_base::Cursor;
use keys_text::Keys;
use psbt_codec::{Psbt, PsbtFault, Spent, read_psbt};
use std::alloc::Global;
use tx_codec::{TxIn, TxOut};

/// The five bytes that a PSBT begins with.
const MAGIC: [u8; 5] = *b"psbt\xff";

/// How many bytes stand before the first map.
const BEFORE_MAPS: usize = 5;

/// An index as a fault shows it.
fn shown(index: usize) -> u32
    ensures { result ≡ shown index }
{
    index.min(u32::MAX as usize) as u32
}

/// The fault of the global map.
fn in_global(fault: MapFault) -> KeyFault
    ensures differs { (place : ℕ) (kind : ℕ) → fault ≡ Differs place kind → result ≡ InGlobal (shown place) }
    ensures memory { fault ≡ NoMemory → result ≡ NoPsbt OutOfMemory }
{
    match fault {
        MapFault::Differs(place, _) => KeyFault::Global(shown(place)),
        MapFault::Memory => KeyFault::Psbt(PsbtFault::Memory),
    }
}

/// The fault of the map of the input of this index.
fn in_input(index: usize, fault: MapFault) -> KeyFault
    ensures differs { (place : ℕ) (kind : ℕ) → fault ≡ Differs place kind → result ≡ InInput (shown index) kind }
    ensures memory { fault ≡ NoMemory → result ≡ NoPsbt OutOfMemory }
{
    match fault {
        MapFault::Differs(_, kind) => KeyFault::Input(shown(index), kind),
        MapFault::Memory => KeyFault::Psbt(PsbtFault::Memory),
    }
}

/// The fault of the map of the output of this index.
fn in_output(index: usize, fault: MapFault) -> KeyFault
    ensures differs { (place : ℕ) (kind : ℕ) → fault ≡ Differs place kind → result ≡ InOutput (shown index) kind }
    ensures memory { fault ≡ NoMemory → result ≡ NoPsbt OutOfMemory }
{
    match fault {
        MapFault::Differs(_, kind) => KeyFault::Output(shown(index), kind),
        MapFault::Memory => KeyFault::Psbt(PsbtFault::Memory),
    }
}

/// The script of the output that an input spends, where it is known.
fn spent_script<'a>(input: &TxIn, spent: &'a Spent) -> Option<&'a [u8]>
    ensures { option_copied result ≡ spent_script (input.now, spent.now) }
{
    match &spent.whole {
        Some(whole) => match whole.outputs.get(input.prev.index as usize) {
            Some(output) => Some(output.script.bytes()),
            None => None,
        },
        None => match &spent.paid {
            Some(output) => Some(output.script.bytes()),
            None => None,
        },
    }
}

/// The global map with the extended public keys.
fn add_global(
    alloc: Global,
    keys: &Keys,
    cursor: &mut Cursor,
    out: &mut Vec<u8>,
) -> Result<(), KeyFault>
    ensures { (pairs : List Plain) (behind : List ℕ) → ArePairs pairs → AllPairs HaveOtherKeys pairs → cursor.old.rest ≡ map_text pairs ++ behind →
        MatchResult result (λ _. IsWritten (global_due keys.now) pairs out.old.items out.new.items × (cursor.new.rest ≡ behind))
        (λ e. e ≢ NoPsbt OutOfMemory → (place : ℕ) × (kind : ℕ) × (e ≡ InGlobal (shown place)) × IsConflict (global_due keys.now) pairs place kind) }
{
    keys.keeps_rules();
    let due = global_due(alloc, keys)?;
    match add_map(alloc, &due, cursor, out) {
        Ok(()) => Ok(()),
        Err(fault) => Err(in_global(fault)),
    }
}

/// The map of the input of this index.
fn add_input(
    alloc: Global,
    keys: &Keys,
    index: usize,
    input: &TxIn,
    spent: &Spent,
    cursor: &mut Cursor,
    out: &mut Vec<u8>,
) -> Result<(), KeyFault>
    ensures { (pairs : List Plain) (behind : List ℕ) → ArePairs pairs → AllPairs HaveOtherKeys pairs → cursor.old.rest ≡ map_text pairs ++ behind →
        MatchResult result (λ _. IsWritten (due_for types_of_input keys.now.scripts (spent_script (input.now, spent.now))) pairs out.old.items out.new.items × (cursor.new.rest ≡ behind))
        (λ e. e ≢ NoPsbt OutOfMemory → (place : ℕ) × (kind : ℕ) × (e ≡ InInput (shown index) kind) × IsConflict (due_for types_of_input keys.now.scripts (spent_script (input.now, spent.now))) pairs place kind) }
{
    keys.keeps_rules();
    let due = due_for(alloc, OF_INPUT, keys, spent_script(input, spent))?;
    match add_map(alloc, &due, cursor, out) {
        Ok(()) => Ok(()),
        Err(fault) => Err(in_input(index, fault)),
    }
}

/// The map of the output of this index.
fn add_output(
    alloc: Global,
    keys: &Keys,
    index: usize,
    output: &TxOut,
    cursor: &mut Cursor,
    out: &mut Vec<u8>,
) -> Result<(), KeyFault>
    ensures { (pairs : List Plain) (behind : List ℕ) → ArePairs pairs → AllPairs HaveOtherKeys pairs → cursor.old.rest ≡ map_text pairs ++ behind →
        MatchResult result (λ _. IsWritten (due_for types_of_output keys.now.scripts (Some output.now.script)) pairs out.old.items out.new.items × (cursor.new.rest ≡ behind))
        (λ e. e ≢ NoPsbt OutOfMemory → (place : ℕ) × (kind : ℕ) × (e ≡ InOutput (shown index) kind) × IsConflict (due_for types_of_output keys.now.scripts (Some output.now.script)) pairs place kind) }
{
    keys.keeps_rules();
    let due = due_for(alloc, OF_OUTPUT, keys, Some(output.script.bytes()))?;
    match add_map(alloc, &due, cursor, out) {
        Ok(()) => Ok(()),
        Err(fault) => Err(in_output(index, fault)),
    }
}

/// The inputs' maps, one behind the other.
fn add_inputs(
    alloc: Global,
    keys: &Keys,
    inputs: &[TxIn],
    spent: &[Spent],
    cursor: &mut Cursor,
    out: &mut Vec<u8>,
) -> Result<(), KeyFault>
    ensures { (maps : List (List Plain)) (behind : List ℕ) → All ArePairs maps → All (AllPairs HaveOtherKeys) maps → length inputs.now ≡ length maps → length spent.now ≡ length maps → cursor.old.rest ≡ flat_map map_text maps ++ behind →
        MatchResult result (λ _. AreWritten (input_dues keys.now inputs.now spent.now) maps out.old.items out.new.items × (cursor.new.rest ≡ behind))
        (λ e. e ≢ NoPsbt OutOfMemory → (number : ℕ) × (kind : ℕ) × (e ≡ InInput number kind) × IsFirstConflict (input_dues keys.now inputs.now spent.now) maps number kind) }
{
    'adding: for i in 0..inputs.len().min(spent.len()) {
        match add_input(alloc, keys, i, &inputs[i], &spent[i], cursor, out) {
            Ok(()) => {}
            Err(fault) => return Err(fault),
        }
    }
    Ok(())
}

/// The outputs' maps, one behind the other.
fn add_outputs(
    alloc: Global,
    keys: &Keys,
    outputs: &[TxOut],
    cursor: &mut Cursor,
    out: &mut Vec<u8>,
) -> Result<(), KeyFault>
    ensures { (maps : List (List Plain)) (behind : List ℕ) → All ArePairs maps → All (AllPairs HaveOtherKeys) maps → length outputs.now ≡ length maps → cursor.old.rest ≡ flat_map map_text maps ++ behind →
        MatchResult result (λ _. AreWritten (output_dues keys.now outputs.now) maps out.old.items out.new.items × (cursor.new.rest ≡ behind))
        (λ e. e ≢ NoPsbt OutOfMemory → (number : ℕ) × (kind : ℕ) × (e ≡ InOutput number kind) × IsFirstConflict (output_dues keys.now outputs.now) maps number kind) }
{
    'adding: for i in 0..outputs.len() {
        match add_output(alloc, keys, i, &outputs[i], cursor, out) {
            Ok(()) => {}
            Err(fault) => return Err(fault),
        }
    }
    Ok(())
}

fn inputs_of(psbt: &Psbt) -> &[TxIn]
    ensures { result.now ≡ psbt.now.tx.inputs }
{
    psbt.tx.inputs.as_slice()
}

fn spent_of(psbt: &Psbt) -> &[Spent]
    ensures { result.now ≡ psbt.now.spent }
{
    psbt.spent.as_slice()
}

fn outputs_of(psbt: &Psbt) -> &[TxOut]
    ensures { result.now ≡ psbt.now.tx.outputs }
{
    psbt.tx.outputs.as_slice()
}

/// The bytes of this PSBT with what the keys tell of it.
fn keyed_of(alloc: Global, psbt: &Psbt, bytes: &[u8], keys: &Keys) -> Result<Vec<u8>, KeyFault>
    requires { IsReadable bytes.now psbt.now }
    ensures keyed { IfOk result (λ v. IsKeyed keys.now bytes.now v.items) }
    ensures same { IfOk result (λ v. IsSamePayment bytes.now v.items) }
    ensures fault { IfErr result (λ e. e ≢ NoPsbt OutOfMemory → IsKeyFault keys.now bytes.now e) }
{
    let mut cursor = Cursor::new(&bytes[BEFORE_MAPS..]);
    let mut out = Vec::from_slice(alloc, &MAGIC)?;
    let inputs = inputs_of(psbt);
    let spent = spent_of(psbt);
    let outputs = outputs_of(psbt);
    add_global(alloc, keys, &mut cursor, &mut out)?;
    add_inputs(alloc, keys, inputs, spent, &mut cursor, &mut out)?;
    add_outputs(alloc, keys, outputs, &mut cursor, &mut out)?;
    Ok(out)
}

/// The bytes of a PSBT, in version 0 (BIP 174) or 2 (BIP 370), with what the keys tell of it. Each input's map gets the pairs of
/// the script that it spends: its redeem script and witness script, and how each of its keys is derived (types 04, 05 and 06 of
/// BIP 174, and for taproot 16 and 17 of BIP 371). Each output's map gets those of its own script (types 00, 01, 02, 05 and 07),
/// and the global map the extended public keys (type 01). A script without an entry gets nothing. Every pair that stands there
/// stays, and one that is due already isn't added again.
///
/// [`KeyFault::Psbt`]: the bytes are no PSBT, for the fault of [`psbt_codec::read_psbt`], which may be out of memory. Otherwise
/// the first map that has the key of a due pair with another value: [`KeyFault::Global`], [`KeyFault::Input`] or
/// [`KeyFault::Output`].
pub fn add_keys(alloc: Global, bytes: &[u8], keys: &Keys) -> Result<Vec<u8>, KeyFault>
    // Each map is extended by what is due in it, and by nothing else.
    ensures keyed { IfOk result (λ v. IsKeyed keys.now bytes.now v.items) }

    // What is signed stays the same.
    ensures same { IfOk result (λ v. IsSamePayment bytes.now v.items) }

    // Otherwise the fault is the first.
    ensures fault { IfErr result (λ e. e ≢ NoPsbt OutOfMemory → IsKeyFault keys.now bytes.now e) }
{
    let psbt = read_psbt(alloc, bytes)?;
    keyed_of(alloc, &psbt, bytes, keys)
}
