//! Transactions written: one walk, over a writer that keeps the bytes, digests them or counts them.

ghost use Rattle.std.specs.Prelude.{◌≡◌, ◌↔◌, IsTrue, IfOk, OnOk, ◌++◌};
ghost use Rattle.std.specs.Int.{w32, to_le_bytes};
ghost use Rattle.std.specs.List.{flat_map};
ghost use Rattle.fund_base.specs.CompactSize.{counted, prefixed};
ghost use Rattle.fund_base.specs.Writer.{Feeds};
ghost use Rattle.tx_codec.specs.Signals.{Signals};
ghost use Rattle.tx_codec.specs.Stack.{lists};
ghost use Rattle.tx_codec.specs.TransactionText.{input_text, output_text, stack_text, bare_text, segregated_text, text_of};
ghost use Rattle.tx_codec.specs.Txid.{txid_of};
ghost use Rattle.tx_codec.specs.Weight.{weight_of};

use crate::hasher::Hasher;
use crate::tx::{Tx, TxIn, TxOut};
use fund_base::{Length, Memory, Txid, Writer, write_compact, write_prefixed};
use std::alloc::Global;

/// The text of a transaction: the segregated form where `segwit` is set, otherwise the legacy form (BIP 144).
pub fn write_tx(alloc: Global, tx: &Tx) -> Result<Vec<u8>, Memory>
    ensures { IfOk result (λ text. text.items ≡ text_of tx.now) }
{
    let mut text = Vec::new(alloc);
    write_text(&mut text, tx)?;
    Ok(text)
}

/// The legacy form of a transaction, without marker, flag and witnesses, whether `segwit` is set or not.
pub fn write_bare_tx(alloc: Global, tx: &Tx) -> Result<Vec<u8>, Memory>
    ensures { IfOk result (λ text. text.items ≡ bare_text tx.now) }
{
    let mut text = Vec::new(alloc);
    write_bare(&mut text, tx)?;
    Ok(text)
}

/// The text of an output: its value in eight bytes, low byte first, and its script after its length.
pub fn write_tx_out(alloc: Global, output: &TxOut) -> Result<Vec<u8>, Memory>
    ensures { IfOk result (λ text. text.items ≡ output_text output.now) }
{
    let mut text = Vec::new(alloc);
    write_output(&mut text, output)?;
    Ok(text)
}

/// The txid of a transaction: the double SHA-256 of its form without marker, flag and witnesses (BIP 141).
#[tactic(auto, unfolding(crate::specs::Txid::txid_of))]
pub fn txid(tx: &Tx) -> Txid
    ensures { result ≡ txid_of tx.now }
{
    let mut hasher = Hasher::new();
    match write_bare(&mut hasher, tx) {
        Ok(()) => hasher.txid(),
        Err(never) => match never {},
    }
}

/// The weight of a transaction in weight units: three times its size without marker, flag and witnesses, and
/// its whole size (BIP 141). A greater number than 18,446,744,073,709,551,615 counts as that number.
pub fn weight(tx: &Tx) -> u64
    ensures { result ≡ weight_of tx.now }
{
    let mut bare = Length::new();
    let mut whole = Length::new();
    match (write_bare(&mut bare, tx), write_text(&mut whole, tx)) {
        (Ok(()), Ok(())) => bare.get().saturating_mul(3).saturating_add(whole.get()),
        (Err(never), _) => match never {},
        (_, Err(never)) => match never {},
    }
}

/// Whether a transaction signals that it may be replaced: some input's sequence is below FFFFFFFE (BIP 125).
pub fn signals(tx: &Tx) -> bool
    ensures { IsTrue result ↔ Signals tx.now }
{
    tx.inputs.iter().any(|input| input.sequence < 0xFFFF_FFFE)
}

/// The text of a transaction in the form that it has.
fn write_text<W: Writer>(out: &mut W, tx: &Tx) -> Result<(), W::Error>
    ensures { OnOk result (Feeds W.holds out.old out.new (text_of tx.now)) }
{
    if tx.segwit {
        write_segregated(out, tx)
    } else {
        write_bare(out, tx)
    }
}

/// The legacy form.
#[tactic(auto, unfolding(crate::specs::TransactionText::bare_text))]
fn write_bare<W: Writer>(out: &mut W, tx: &Tx) -> Result<(), W::Error>
    ensures { OnOk result (Feeds W.holds out.old out.new (bare_text tx.now)) }
{
    out.write_bytes(&tx.version.to_le_bytes())?;
    write_inputs(out, &tx.inputs)?;
    write_outputs(out, &tx.outputs)?;
    out.write_bytes(&tx.locktime.to_le_bytes())
}

/// The segregated form: the marker and the flag after the version, the witnesses before the lock time.
#[tactic(auto, unfolding(crate::specs::TransactionText::segregated_text))]
fn write_segregated<W: Writer>(out: &mut W, tx: &Tx) -> Result<(), W::Error>
    ensures { OnOk result (Feeds W.holds out.old out.new (segregated_text tx.now)) }
{
    out.write_bytes(&tx.version.to_le_bytes())?;
    out.write_bytes(&[0, 1])?;
    write_inputs(out, &tx.inputs)?;
    write_outputs(out, &tx.outputs)?;
    write_end(out, tx)
}

/// The witnesses and the lock time.
fn write_end<W: Writer>(out: &mut W, tx: &Tx) -> Result<(), W::Error>
    ensures { OnOk result (Feeds W.holds out.old out.new (flat_map stack_text tx.now.inputs ++ to_le_bytes w32 tx.now.locktime)) }
{
    write_stacks(out, &tx.inputs)?;
    out.write_bytes(&tx.locktime.to_le_bytes())
}

/// The number of inputs, and each.
fn write_inputs<W: Writer>(out: &mut W, inputs: &[TxIn]) -> Result<(), W::Error>
    ensures { OnOk result (Feeds W.holds out.old out.new (counted input_text inputs.now)) }
{
    write_compact(out, inputs.len() as u64)?;
    for input in inputs {
        write_input(out, input)?;
    }
    Ok(())
}

/// The number of outputs, and each.
fn write_outputs<W: Writer>(out: &mut W, outputs: &[TxOut]) -> Result<(), W::Error>
    ensures { OnOk result (Feeds W.holds out.old out.new (counted output_text outputs.now)) }
{
    write_compact(out, outputs.len() as u64)?;
    for output in outputs {
        write_output(out, output)?;
    }
    Ok(())
}

/// The witness of each input.
fn write_stacks<W: Writer>(out: &mut W, inputs: &[TxIn]) -> Result<(), W::Error>
    ensures { OnOk result (Feeds W.holds out.old out.new (flat_map stack_text inputs.now)) }
{
    for input in inputs {
        write_stack(out, input)?;
    }
    Ok(())
}

#[tactic(auto, unfolding(crate::specs::TransactionText::input_text))]
fn write_input<W: Writer>(out: &mut W, input: &TxIn) -> Result<(), W::Error>
    ensures { OnOk result (Feeds W.holds out.old out.new (input_text input.now)) }
{
    out.write_bytes(input.prev.txid.bytes())?;
    out.write_bytes(&input.prev.index.to_le_bytes())?;
    write_prefixed(out, input.script.bytes())?;
    out.write_bytes(&input.sequence.to_le_bytes())
}

#[tactic(auto, unfolding(crate::specs::TransactionText::output_text))]
fn write_output<W: Writer>(out: &mut W, output: &TxOut) -> Result<(), W::Error>
    ensures { OnOk result (Feeds W.holds out.old out.new (output_text output.now)) }
{
    out.write_bytes(&output.value.get().to_le_bytes())?;
    write_prefixed(out, output.script.bytes())
}

/// The witness of an input: how many byte strings, and each.
#[tactic(auto, unfolding(crate::specs::TransactionText::stack_text))]
fn write_stack<W: Writer>(out: &mut W, input: &TxIn) -> Result<(), W::Error>
    ensures { OnOk result (Feeds W.holds out.old out.new (stack_text input.now)) }
{
    write_items(out, input.witness.as_slice())
}

/// The number of byte strings, and each after its length.
fn write_items<W: Writer>(out: &mut W, items: &[Vec<u8>]) -> Result<(), W::Error>
    ensures { OnOk result (Feeds W.holds out.old out.new (counted prefixed (lists items.now))) }
{
    write_compact(out, items.len() as u64)?;
    for item in items {
        write_prefixed(out, item.as_slice())?;
    }
    Ok(())
}
