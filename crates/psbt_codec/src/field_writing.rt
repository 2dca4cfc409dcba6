//! PSBTs of version 2 written, whose maps tell the transaction field by field (BIP 370).

ghost use Rattle.std.specs.Prelude.{◌≡◌, ◌<◌, ◌++◌, IfOk, OnOk};
ghost use Rattle.std.specs.List.{flat_map, zip};
ghost use Rattle.fund_base.specs.CompactSize.{compact};
ghost use Rattle.psbt_codec.specs.Psbt.{pair_text, map_text, typed, global_fields, own_fields, input_fields, output_fields, written_fields};

use crate::pair_writing::{write_end, write_known, write_typed};
use crate::psbt::{Psbt, Spent};
use fund_base::{Memory, write_compact};
use std::alloc::Global;
use tx_codec::{Tx, TxIn, TxOut};

/// The five bytes that a PSBT begins with.
const MAGIC: [u8; 5] = *b"psbt\xff";

/// The version of the PSBT.
const TWO: u32 = 2;

/// The global pairs of the transaction's version and lock time, and of the numbers of inputs and outputs
/// (`PSBT_GLOBAL_TX_VERSION`, `_FALLBACK_LOCKTIME`, `_INPUT_COUNT` and `_OUTPUT_COUNT`).
const TX_VERSION: u8 = 2;

const LOCKTIME: u8 = 3;

const INPUTS: u8 = 4;

const OUTPUTS: u8 = 5;

/// The global pair of the version (`PSBT_GLOBAL_VERSION`).
const VERSION: u8 = 251;

/// An input's pairs of what it spends and of its sequence (`PSBT_IN_PREVIOUS_TXID`, `_OUTPUT_INDEX` and `_SEQUENCE`).
const TXID: u8 = 14;

const INDEX: u8 = 15;

const SEQUENCE: u8 = 16;

/// An output's pairs (`PSBT_OUT_AMOUNT` and `_SCRIPT`).
const AMOUNT: u8 = 3;

const SCRIPT: u8 = 4;

/// The bytes of a PSBT in version 2: the magic, the global map, a map for each input that `spent` has an entry for, and
/// a map for each output.
#[tactic(auto, unfolding(crate::specs::Psbt::written_fields))]
pub fn written_fields(alloc: Global, psbt: &Psbt) -> Result<Vec<u8>, Memory>
    ensures { IfOk result (λ bytes. bytes.items ≡ written_fields psbt.now) }
{
    let mut out = Vec::new(alloc);
    out.extend_from_slice(&MAGIC)?;
    write_global(alloc, &mut out, &psbt.tx)?;
    write_inputs(alloc, &mut out, &psbt.tx.inputs, &psbt.spent)?;
    write_outputs(&mut out, &psbt.tx.outputs)?;
    Ok(out)
}

/// The pair of a number in CompactSize.
fn write_count(alloc: Global, out: &mut Vec<u8>, kind: u8, number: u64) -> Result<(), Memory>
    requires { kind < 253 }
    ensures { OnOk result (out.new.items ≡ out.old.items ++ pair_text (typed kind (compact number))) }
{
    let mut value = Vec::new(alloc);
    write_compact(&mut value, number)?;
    write_typed(out, kind, &value)
}

#[tactic(auto, unfolding(crate::specs::Psbt::map_text))]
fn write_global(alloc: Global, out: &mut Vec<u8>, tx: &Tx) -> Result<(), Memory>
    ensures { OnOk result (out.new.items ≡ out.old.items ++ map_text (global_fields tx.now)) }
{
    write_typed(out, TX_VERSION, &tx.version.to_le_bytes())?;
    write_typed(out, LOCKTIME, &tx.locktime.to_le_bytes())?;
    write_count(alloc, out, INPUTS, tx.inputs.len() as u64)?;
    write_count(alloc, out, OUTPUTS, tx.outputs.len() as u64)?;
    write_typed(out, VERSION, &TWO.to_le_bytes())?;
    write_end(out)
}

/// The pairs that tell an input itself.
fn write_own(out: &mut Vec<u8>, input: &TxIn) -> Result<(), Memory>
    ensures { OnOk result (out.new.items ≡ out.old.items ++ flat_map pair_text (own_fields input.now)) }
{
    write_typed(out, TXID, input.prev.txid.bytes())?;
    write_typed(out, INDEX, &input.prev.index.to_le_bytes())?;
    write_typed(out, SEQUENCE, &input.sequence.to_le_bytes())
}

#[tactic(auto, unfolding(crate::specs::Psbt::map_text))]
fn write_input(alloc: Global, out: &mut Vec<u8>, input: &TxIn, known: &Spent) -> Result<(), Memory>
    ensures { OnOk result (out.new.items ≡ out.old.items ++ map_text (input_fields (input.now, known.now))) }
{
    write_known(alloc, out, known)?;
    write_own(out, input)?;
    write_end(out)
}

fn write_inputs(
    alloc: Global,
    out: &mut Vec<u8>,
    inputs: &[TxIn],
    spent: &[Spent],
) -> Result<(), Memory>
    ensures { OnOk result (out.new.items ≡ out.old.items ++ flat_map (λ k. map_text (input_fields k)) (zip inputs.now spent.now)) }
{
    for index in 0..inputs.len().min(spent.len()) {
        write_input(alloc, out, &inputs[index], &spent[index])?;
    }
    Ok(())
}

#[tactic(auto, unfolding(crate::specs::Psbt::map_text))]
fn write_output(out: &mut Vec<u8>, output: &TxOut) -> Result<(), Memory>
    ensures { OnOk result (out.new.items ≡ out.old.items ++ map_text (output_fields output.now)) }
{
    write_typed(out, AMOUNT, &output.value.get().to_le_bytes())?;
    write_typed(out, SCRIPT, output.script.bytes())?;
    write_end(out)
}

fn write_outputs(out: &mut Vec<u8>, outputs: &[TxOut]) -> Result<(), Memory>
    ensures { OnOk result (out.new.items ≡ out.old.items ++ flat_map (λ o. map_text (output_fields o)) outputs.now) }
{
    for output in outputs {
        write_output(out, output)?;
    }
    Ok(())
}
