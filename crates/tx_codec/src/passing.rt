//! Passing over a transaction, byte by byte and item by item: it has the faults of reading one, and nothing is kept.

ghost use Rattle.std.specs.Prelude.{◌≡◌, ◌≢◌, ◌+◌, ◌≤◌, ℕ, List, IfOk, Err, false, length, true};
ghost use Rattle.fund_base.specs.Cursor.{IsBytes};
ghost use Rattle.fund_base.specs.Parsing.{Yields};
ghost use Rattle.tx_codec.specs.declared.fault.TxFault.TheVariants.{Memory};
ghost use Rattle.tx_codec.specs.declared.tx.TxIn.{TxIn};
ghost use Rattle.tx_codec.specs.Passing.{PassesBody, PassesForm, PassesList, PassesMany, PassesStack, PassesStacks, PassesTx};
ghost use Rattle.tx_codec.specs.Reading.{input_at, inputs_at, is_marked, item_at, legacy_at, output_at, output_in, outputs_at, segregated_at, tx_at, witnessed_at};
ghost use Rattle.tx_codec.specs.Views.{point_at, script_at};

use crate::fault::TxFault;
use crate::reading::bytes_of;
use fund_base::{Cursor, MAX_MONEY, OutPoint, Sat, Txid};
use std::marker::Model;

/// An input as its text lends it, whose witness stands elsewhere.
#[derive(Drop)]
pub struct InView<'a> {
    prev: OutPoint,
    script: &'a [u8],
    sequence: u32,
}

impl<'a> Model for InView<'a> {
    ghost use Rattle.std.specs.Prelude.{[]};
    ghost use Rattle.tx_codec.specs.declared.tx.TxIn.{TxIn};

    ghost Value = { TxIn };

    ghost view = { λ v. record { prev = v.prev; script = v.script.now; sequence = v.sequence; witness = [] } };
}

/// An output as its text lends it.
#[derive(Drop)]
pub struct OutView<'a> {
    value: Sat,
    script: &'a [u8],
}

impl<'a> Model for OutView<'a> {
    ghost use Rattle.tx_codec.specs.declared.tx.TxOut.{TxOut};

    ghost Value = { TxOut };

    ghost view = { λ v. record { value = v.value; script = v.script.now } };
}

impl<'a> InView<'a> {
    /// What it spends.
    pub fn prev(&self) -> OutPoint
        ensures { result ≡ self.now.prev }
    {
        self.prev
    }
}

impl<'a> OutView<'a> {
    /// What it pays, in satoshi.
    pub fn value(&self) -> u64
        ensures { result ≡ self.now.value }
    {
        self.value.get()
    }
}

#[tactic(auto, unfolding(crate::specs::Reading::input_at))]
fn input_view<'a>(cursor: &mut Cursor<'a>) -> Result<InView<'a>, TxFault>
    ensures gives { Yields Memory (λ x. x) cursor.new result (input_at cursor.old) }
    ensures never_short { result ≢ Err Memory }
{
    let mut txid = [0; 32];
    txid.copy_from_slice(cursor.take(32)?);
    let index = cursor.u32_le()?;
    let script = bytes_of(cursor)?;
    let sequence = cursor.u32_le()?;
    Ok(InView {
        prev: OutPoint {
            txid: Txid(txid),
            index,
        },
        script,
        sequence,
    })
}

#[tactic(auto, unfolding(crate::specs::Reading::output_at))]
fn output_view<'a>(index: u64, sum: u64, cursor: &mut Cursor<'a>) -> Result<OutView<'a>, TxFault>
    requires { sum ≤ MAX_MONEY }
    ensures gives { Yields Memory (λ x. x) cursor.new result (output_at index sum cursor.old) }
    ensures range { IfOk result (λ o. sum + o.value ≤ MAX_MONEY) }
    ensures never_short { result ≢ Err Memory }
{
    let value = match Sat::new(cursor.u64_le()?) {
        Some(value) if value.get() <= MAX_MONEY - sum => value,
        _ => return Err(TxFault::ValueRange(index.min(u32::MAX as u64) as u32)),
    };
    let script = bytes_of(cursor)?;
    Ok(OutView { value, script })
}

/// The outpoint that the input at the cursor spends. It asks for no memory.
#[tactic(auto, unfolding(crate::specs::Views::point_at))]
pub fn point_of(cursor: &mut Cursor) -> Result<OutPoint, TxFault>
    ensures gives { Yields Memory (λ x. x) cursor.new result (point_at cursor.old) }
    ensures never_short { result ≢ Err Memory }
{
    let input = input_view(cursor)?;
    Ok(input.prev())
}

/// The script that the output at the cursor pays to. It is not copied.
#[tactic(auto, unfolding(crate::specs::Views::script_at))]
pub fn script_of<'a>(cursor: &mut Cursor<'a>) -> Result<&'a [u8], TxFault>
    ensures gives { Yields Memory (λ b. b.now) cursor.new result (script_at cursor.old) }
    ensures never_short { result ≢ Err Memory }
{
    cursor.u64_le()?;
    bytes_of(cursor)
}

#[tactic(auto, using(crate::proofs::PassSteps::many_none, crate::proofs::PassSteps::many_more, crate::proofs::PassSteps::many_all, crate::proofs::PassSteps::many_fails))]
fn pass_inputs(count: u64, cursor: &mut Cursor) -> Result<(), TxFault>
    ensures gives { PassesMany (λ _. input_at) count cursor.old cursor.new result }
    ensures never_short { result ≢ Err Memory }
{
    for _ in 0..count {
        input_view(cursor)?;
    }
    Ok(())
}

#[tactic(auto, using(crate::proofs::PassSteps::worth_none, crate::proofs::PassSteps::worth_more, crate::proofs::PassSteps::worth_all, crate::proofs::PassSteps::worth_fails))]
fn pass_outputs(count: u64, cursor: &mut Cursor) -> Result<(), TxFault>
    ensures gives { PassesMany output_in count cursor.old cursor.new result }
    ensures never_short { result ≢ Err Memory }
{
    let mut sum = 0;
    for index in 0..count {
        let output = output_view(index, sum, cursor)?;
        sum += output.value();
    }
    Ok(())
}

#[tactic(auto, using(crate::proofs::PassSteps::many_none, crate::proofs::PassSteps::many_more, crate::proofs::PassSteps::many_all, crate::proofs::PassSteps::many_fails))]
fn pass_items(count: u64, cursor: &mut Cursor) -> Result<(), TxFault>
    ensures gives { PassesMany (λ _. item_at) count cursor.old cursor.new result }
    ensures never_short { result ≢ Err Memory }
{
    for _ in 0..count {
        bytes_of(cursor)?;
    }
    Ok(())
}

/// Passes over a witness, and tells whether it holds something.
#[tactic(auto, using(crate::proofs::PassSteps::stack_holds, crate::proofs::PassSteps::stack_items_fail, crate::proofs::PassSteps::stack_count_fails))]
fn pass_stack(cursor: &mut Cursor) -> Result<bool, TxFault>
    ensures gives { PassesStack cursor.old cursor.new result }
    ensures never_short { result ≢ Err Memory }
{
    let count = cursor.compact()?;
    pass_items(count, cursor)?;
    Ok(count != 0)
}

/// Passes over the witnesses of so many inputs, and tells whether one holds something.
#[tactic(auto, using(crate::proofs::PassSteps::witnesses_none, crate::proofs::PassSteps::witnesses_more, crate::proofs::PassSteps::witnesses_all, crate::proofs::PassSteps::witnesses_fail))]
fn pass_stacks(count: u64, cursor: &mut Cursor) -> Result<bool, TxFault>
    ensures gives { (inputs : List TxIn) → length inputs ≡ count → PassesStacks inputs cursor.old cursor.new result }
    ensures never_short { result ≢ Err Memory }
{
    let mut some = false;
    for _ in 0..count {
        let here = pass_stack(cursor)?;
        some = some || here;
    }
    Ok(some)
}

/// Passes over a number that isn't 0 and so many inputs, and tells the number.
#[tactic(auto, using(crate::proofs::PassSteps::some_holds, crate::proofs::PassSteps::some_none, crate::proofs::PassSteps::some_items_fail, crate::proofs::PassSteps::some_count_fails))]
pub fn pass_some_inputs(cursor: &mut Cursor) -> Result<u64, TxFault>
    ensures gives { PassesList (inputs_at cursor.old) cursor.new result }
    ensures never_short { result ≢ Err Memory }
{
    let count = cursor.compact()?;
    if count == 0 {
        return Err(TxFault::NoInputs);
    }
    pass_inputs(count, cursor)?;
    Ok(count)
}

/// Passes over a number that isn't 0 and so many outputs, and tells the number.
#[tactic(auto, using(crate::proofs::PassSteps::some_holds, crate::proofs::PassSteps::some_none, crate::proofs::PassSteps::some_items_fail, crate::proofs::PassSteps::some_count_fails))]
fn pass_some_outputs(cursor: &mut Cursor) -> Result<u64, TxFault>
    ensures gives { PassesList (outputs_at cursor.old) cursor.new result }
    ensures never_short { result ≢ Err Memory }
{
    let count = cursor.compact()?;
    if count == 0 {
        return Err(TxFault::NoOutputs);
    }
    pass_outputs(count, cursor)?;
    Ok(count)
}

/// Passes over the inputs and the outputs, and tells how many inputs there are and how many bytes both take.
#[tactic(auto, using(crate::proofs::PassSteps::body_len, crate::proofs::PassSteps::body_holds, crate::proofs::PassSteps::body_inputs_fail, crate::proofs::PassSteps::body_outputs_fail))]
fn pass_body(cursor: &mut Cursor) -> Result<(u64, usize), TxFault>
    ensures gives { PassesBody cursor.old cursor.new result }
    ensures bytes { IsBytes cursor.old.rest }
    ensures never_short { result ≢ Err Memory }
{
    let before = cursor.rest().len();
    let count = pass_some_inputs(cursor)?;
    pass_some_outputs(cursor)?;
    Ok((count, before - cursor.rest().len()))
}

/// Passes over a transaction in the legacy form behind its version, and tells how many bytes its inputs and outputs take.
#[tactic(auto, using(crate::proofs::PassSteps::legacy_holds, crate::proofs::PassSteps::legacy_lock_fails, crate::proofs::PassSteps::legacy_body_fails))]
fn pass_legacy(cursor: &mut Cursor) -> Result<usize, TxFault>
    ensures gives { (version : ℕ) → PassesForm false (legacy_at version cursor.old) cursor.new result }
    ensures never_short { result ≢ Err Memory }
{
    let (_, len) = pass_body(cursor)?;
    cursor.u32_le()?;
    Ok(len)
}

/// The same of the segregated form, behind marker and flag.
#[tactic(auto, using(crate::proofs::PassSteps::witnessed_holds, crate::proofs::PassSteps::witnessed_lock_fails, crate::proofs::PassSteps::witnessed_none, crate::proofs::PassSteps::witnessed_stacks_fail, crate::proofs::PassSteps::witnessed_body_fails))]
fn pass_witnessed(cursor: &mut Cursor) -> Result<usize, TxFault>
    ensures gives { (version : ℕ) → PassesForm true (witnessed_at version cursor.old) cursor.new result }
    ensures never_short { result ≢ Err Memory }
{
    let (count, len) = pass_body(cursor)?;
    let some = pass_stacks(count, cursor)?;
    if !some {
        return Err(TxFault::EmptyWitness);
    }
    cursor.u32_le()?;
    Ok(len)
}

/// The same behind the marker.
#[tactic(auto, using(crate::proofs::PassSteps::flag_holds, crate::proofs::PassSteps::flag_then_fails), unfolding(crate::specs::Reading::segregated_at))]
fn pass_segregated(cursor: &mut Cursor) -> Result<usize, TxFault>
    ensures gives { (version : ℕ) → PassesForm true (segregated_at version cursor.old) cursor.new result }
    ensures never_short { result ≢ Err Memory }
{
    let flag = cursor.take(1)?;
    if flag[0] != 1 {
        return Err(TxFault::BadFlag);
    }
    pass_witnessed(cursor)
}

/// Whether a marker 00 stands there, where the legacy form has the number of inputs.
fn is_marked(bytes: &[u8]) -> bool
    ensures { result ≡ is_marked bytes.now }
{
    matches!(bytes, [0, ..])
}

/// Passes over a transaction, and tells whether it has the segregated form and how many bytes its inputs and outputs take.
#[tactic(auto, using(crate::proofs::PassSteps::marked_holds, crate::proofs::PassSteps::marked_fails, crate::proofs::PassSteps::unmarked_holds, crate::proofs::PassSteps::unmarked_fails))]
pub fn pass_text(cursor: &mut Cursor) -> Result<(bool, usize), TxFault>
    ensures gives { PassesTx (tx_at cursor.old) cursor.new result }
    ensures never_short { result ≢ Err Memory }
{
    cursor.u32_le()?;
    if is_marked(cursor.rest()) {
        cursor.take(1)?;
        let len = pass_segregated(cursor)?;
        Ok((true, len))
    } else {
        let len = pass_legacy(cursor)?;
        Ok((false, len))
    }
}
