//! PSBTs written.

ghost use Rattle.std.specs.Prelude.{◌≡◌, ◌++◌, IfOk, Ok, OnOk};
ghost use Rattle.std.specs.List.{flat_map};
ghost use Rattle.psbt_codec.specs.PartialTransaction.{PartialTransaction};
ghost use Rattle.psbt_codec.specs.Psbt.{map_text, global_map, input_map, output_map, written, written_whole, IsPsbt, IsReadable, IsReadableIn};
ghost use Rattle.psbt_codec.specs.Reading.{of_version, versioned_of};

use crate::field_writing::written_fields;
use crate::pair_writing::{write_end, write_known, write_typed};
use crate::psbt::{Psbt, Spent};
use fund_base::Memory;
use std::alloc::Global;
use tx_codec::{Tx, TxOut, write_bare_tx};

/// The five bytes that a PSBT begins with.
const MAGIC: [u8; 5] = *b"psbt\xff";

/// The type of the global pair that holds the unsigned transaction (`PSBT_GLOBAL_UNSIGNED_TX` of BIP 174).
const UNSIGNED_TX: u8 = 0;

/// The bytes of a PSBT in version 2 where `version` is 2, otherwise in version 0. In version 0 (BIP 174) they are the
/// magic, the global map with the unsigned transaction, a map for each entry of `spent` with the whole previous
/// transaction and the spent output where they are known, and an empty map for each output. In version 2 (BIP 370) the
/// global map has the transaction's version, its lock time and the numbers of its inputs and outputs; an input's map
/// has also what the input spends and its sequence, and an output's map its value and its script. They are the bytes
/// of a PSBT where [`Psbt`] says what is one.
pub fn write_psbt(alloc: Global, psbt: &Psbt, version: u32) -> Result<Vec<u8>, Memory>
    ensures text { IfOk result (λ bytes. bytes.items ≡ written version psbt.now) }
    // What is written of a PSBT is readable as it, and in the version that is asked for.
    ensures readable { IfOk result (λ bytes. IsPsbt psbt.now → IsReadable bytes.items psbt.now) }
    ensures first { IfOk result (λ bytes. IsPsbt psbt.now → version ≡ 0 → IsReadableIn 0 bytes.items psbt.now) }
    ensures second { IfOk result (λ bytes. IsPsbt psbt.now → version ≡ 2 → IsReadableIn 2 bytes.items psbt.now) }
{
    let bytes = written_of(alloc, psbt, version)?;
    written_is_readable(&bytes, version);
    Ok(bytes)
}

/// That bytes which are the one spelling of a PSBT in a version are readable as it in that version. A call does nothing.
pub fn written_is_readable(bytes: &[u8], version: u32)
    ensures readable { (p : PartialTransaction) → IsPsbt p → bytes.now ≡ written version p → IsReadable bytes.now p }
    ensures first { (p : PartialTransaction) → IsPsbt p → version ≡ 0 → bytes.now ≡ written version p → IsReadableIn 0 bytes.now p }
    ensures second { (p : PartialTransaction) → IsPsbt p → version ≡ 2 → bytes.now ≡ written version p → IsReadableIn 2 bytes.now p }
{
    let _ = version;
}

/// The law of both versions: what is written of a PSBT in version 0 and in version 2 is read as the same payment, which
/// is this PSBT, and each tells its own version. A call does nothing.
pub fn versions_tell_the_same(first: &[u8], second: &[u8])
    ensures first { (p : PartialTransaction) → IsPsbt p → first.now ≡ written 0 p → versioned_of first.now ≡ Ok (of_version 0 p) }
    ensures second { (p : PartialTransaction) → IsPsbt p → second.now ≡ written 2 p → versioned_of second.now ≡ Ok (of_version 2 p) }
{}

fn written_of(alloc: Global, psbt: &Psbt, version: u32) -> Result<Vec<u8>, Memory>
    ensures { IfOk result (λ bytes. bytes.items ≡ written version psbt.now) }
{
    if version == 2 {
        written_fields(alloc, psbt)
    } else {
        written_whole(alloc, psbt)
    }
}

#[tactic(auto, unfolding(crate::specs::Psbt::written_whole))]
fn written_whole(alloc: Global, psbt: &Psbt) -> Result<Vec<u8>, Memory>
    ensures { IfOk result (λ bytes. bytes.items ≡ written_whole psbt.now) }
{
    let mut out = Vec::new(alloc);
    out.extend_from_slice(&MAGIC)?;
    write_global(alloc, &mut out, &psbt.tx)?;
    write_inputs(alloc, &mut out, &psbt.spent)?;
    write_outputs(&mut out, &psbt.tx.outputs)?;
    Ok(out)
}

#[tactic(auto, unfolding(crate::specs::Psbt::map_text))]
fn write_global(alloc: Global, out: &mut Vec<u8>, tx: &Tx) -> Result<(), Memory>
    ensures { OnOk result (out.new.items ≡ out.old.items ++ map_text (global_map tx.now)) }
{
    let unsigned = write_bare_tx(alloc, tx)?;
    write_typed(out, UNSIGNED_TX, &unsigned)?;
    write_end(out)
}

fn write_inputs(alloc: Global, out: &mut Vec<u8>, spent: &[Spent]) -> Result<(), Memory>
    ensures { OnOk result (out.new.items ≡ out.old.items ++ flat_map (λ s. map_text (input_map s)) spent.now) }
{
    for known in spent {
        write_input(alloc, out, known)?;
    }
    Ok(())
}

fn write_outputs(out: &mut Vec<u8>, outputs: &[TxOut]) -> Result<(), Memory>
    ensures { OnOk result (out.new.items ≡ out.old.items ++ flat_map (λ o. map_text (output_map o)) outputs.now) }
{
    for _output in outputs {
        write_end(out)?;
    }
    Ok(())
}

#[tactic(auto, unfolding(crate::specs::Psbt::map_text))]
fn write_input(alloc: Global, out: &mut Vec<u8>, spent: &Spent) -> Result<(), Memory>
    ensures { OnOk result (out.new.items ≡ out.old.items ++ map_text (input_map spent.now)) }
{
    write_known(alloc, out, spent)?;
    write_end(out)
}
