//! Reading a transaction, byte by byte and item by item: a count alone asks for no memory.

ghost use Rattle.std.specs.Prelude.{◌≡◌, ◌≢◌, ◌+◌, ◌≤◌, ◌<◌, ℕ, List, [], ◌++◌, ◌==◌, length, slice_index, IfOk, IsOk, IsOkAnd, OnErr, MatchResult, Ok, Err, if◌then◌else◌};
ghost use Rattle.std.specs.Int.{w32};
ghost use Rattle.fund_base.specs.Cursor.{IsBytes, compact_at, number_at, take_at};
ghost use Rattle.fund_base.specs.Parsing.{Yields, YieldsAll, many_from, many_at, whole_of};
ghost use Rattle.tx_codec.specs.declared.fault.TxFault.TheVariants.{EmptyWitness, Memory, Trailing};
ghost use Rattle.tx_codec.specs.Stack.{lists};
ghost use Rattle.tx_codec.specs.Reading.{BeginsInputs, BeginsSegregated, HasInput, input_at, output_at, output_in, inputs_at, outputs_at, item_at, stack_at, stacks_at, are_empty, legacy_at, witnessed_at, segregated_at, tx_at, legacy_tx_at, IsRead};
ghost use Rattle.tx_codec.specs.Transaction.{Transaction};
ghost use Rattle.tx_codec.specs.TransactionText.{IsFollowed, IsLegacy, IsTransaction, text_of};

use crate::fault::TxFault;
use crate::tx::{Tx, TxIn, TxOut, Witness};
use fund_base::{Cursor, MAX_MONEY, OutPoint, Sat, Script, Txid};
use std::alloc::Global;

/// The bytes behind their number. They aren't copied, so it never runs out of memory.
#[tactic(auto, unfolding(fund_base::specs::Parsing::string_at))]
pub(crate) fn bytes_of<'a>(cursor: &mut Cursor<'a>) -> Result<&'a [u8], TxFault>
    ensures gives { Yields Memory (λ b. b.now) cursor.new result (item_at cursor.old) }
    ensures never_short { result ≢ Err Memory }
{
    let len = cursor.compact()?;
    Ok(cursor.take(len)?)
}

fn string_of(alloc: Global, cursor: &mut Cursor) -> Result<Vec<u8>, TxFault>
    ensures gives { Yields Memory (λ v. v.items) cursor.new result (item_at cursor.old) }
    ensures short { result ≡ Err Memory → IsOk (item_at cursor.old) }
{
    let bytes = bytes_of(cursor)?;
    Ok(Vec::from_slice(alloc, bytes)?)
}

#[tactic(auto, unfolding(crate::specs::Reading::input_at))]
fn input_of(alloc: Global, cursor: &mut Cursor) -> Result<TxIn, TxFault>
    ensures gives { Yields Memory (λ x. x) cursor.new result (input_at cursor.old) }
    ensures short { result ≡ Err Memory → IsOk (input_at cursor.old) }
{
    let mut txid = [0; 32];
    txid.copy_from_slice(cursor.take(32)?);
    let index = cursor.u32_le()?;
    let script = bytes_of(cursor)?;
    let sequence = cursor.u32_le()?;
    let script = Vec::from_slice(alloc, script)?;
    Ok(TxIn {
        prev: OutPoint {
            txid: Txid(txid),
            index,
        },
        script: Script::new(script),
        sequence,
        witness: Witness::new(Vec::new(alloc)),
    })
}

#[tactic(auto, unfolding(crate::specs::Reading::output_at))]
fn output_of(alloc: Global, index: u64, sum: u64, cursor: &mut Cursor) -> Result<TxOut, TxFault>
    requires { sum ≤ MAX_MONEY }
    ensures gives { Yields Memory (λ x. x) cursor.new result (output_at index sum cursor.old) }
    ensures short { result ≡ Err Memory → IsOk (output_at index sum cursor.old) }
    ensures range { IfOk result (λ o. sum + o.value ≤ MAX_MONEY) }
{
    let value = match Sat::new(cursor.u64_le()?) {
        Some(value) if value.get() <= MAX_MONEY - sum => value,
        _ => return Err(TxFault::ValueRange(index.min(u32::MAX as u64) as u32)),
    };
    let script = string_of(alloc, cursor)?;
    Ok(TxOut {
        value,
        script: Script::new(script),
    })
}

fn inputs_of(alloc: Global, count: u64, cursor: &mut Cursor) -> Result<Vec<TxIn>, TxFault>
    ensures gives { Yields Memory (λ v. v.items) cursor.new result (many_at input_at count cursor.old) }
    ensures short { result ≡ Err Memory → IsOk (input_at cursor.old) }
{
    let mut inputs = Vec::new(alloc);
    for _ in 0..count {
        let input = input_of(alloc, cursor)?;
        inputs.push(input)?;
    }
    Ok(inputs)
}

fn outputs_of(alloc: Global, count: u64, cursor: &mut Cursor) -> Result<Vec<TxOut>, TxFault>
    ensures { Yields Memory (λ v. v.items) cursor.new result (many_from output_in count [] cursor.old) }
{
    let mut outputs = Vec::new(alloc);
    let mut sum = 0;
    for index in 0..count {
        let output = output_of(alloc, index, sum, cursor)?;
        sum += output.value.get();
        outputs.push(output)?;
    }
    Ok(outputs)
}

fn items_of(alloc: Global, count: u64, cursor: &mut Cursor) -> Result<Vec<Vec<u8>>, TxFault>
    ensures { Yields Memory (λ v. lists v.items) cursor.new result (many_at item_at count cursor.old) }
{
    let mut items = Vec::new(alloc);
    for _ in 0..count {
        let item = string_of(alloc, cursor)?;
        items.push(item)?;
    }
    Ok(items)
}

#[tactic(auto, unfolding(fund_base::specs::Parsing::counted_at))]
fn stack_of(alloc: Global, cursor: &mut Cursor) -> Result<Witness, TxFault>
    ensures gives { Yields Memory (λ x. x) cursor.new result (stack_at cursor.old) }
    ensures short { result ≡ Err Memory → IsOk (compact_at cursor.old) }
{
    let count = cursor.compact()?;
    let items = items_of(alloc, count, cursor)?;
    Ok(Witness::new(items))
}

fn stacks_of(alloc: Global, inputs: &mut [TxIn], cursor: &mut Cursor) -> Result<(), TxFault>
    ensures { Yields Memory (λ _. inputs.new) cursor.new result (stacks_at inputs.old cursor.old) }
{
    for input in inputs {
        input.witness = stack_of(alloc, cursor)?;
    }
    Ok(())
}

#[tactic(auto, using(crate::proofs::Stacks::lists_len))]
fn is_empty(witness: &Witness) -> bool
    ensures { result ≡ (length witness.now == 0) }
{
    witness.as_slice().is_empty()
}

fn are_empty(inputs: &[TxIn]) -> bool
    ensures { result ≡ are_empty inputs.now }
{
    inputs.iter().all(|input| is_empty(&input.witness))
}

/// That some witness holds something. It never runs out of memory.
fn check_witnesses(inputs: &[TxIn]) -> Result<(), TxFault>
    ensures { result ≡ (if are_empty inputs.now then Err EmptyWitness else Ok tt) }
{
    if are_empty(inputs) {
        return Err(TxFault::EmptyWitness);
    }
    Ok(())
}

/// That nothing is left. It never runs out of memory.
fn check_end(cursor: &Cursor) -> Result<(), TxFault>
    ensures { result ≡ (if length cursor.now.rest == 0 then Ok tt else Err (Trailing cursor.now.place)) }
{
    if cursor.rest().is_empty() {
        Ok(())
    } else {
        Err(TxFault::Trailing(cursor.place()))
    }
}

#[tactic(auto, unfolding(crate::specs::Reading::some_at))]
fn some_inputs(alloc: Global, cursor: &mut Cursor) -> Result<Vec<TxIn>, TxFault>
    ensures gives { Yields Memory (λ v. v.items) cursor.new result (inputs_at cursor.old) }
    ensures short { result ≡ Err Memory → HasInput cursor.old }
{
    let count = cursor.compact()?;
    if count == 0 {
        return Err(TxFault::NoInputs);
    }
    inputs_of(alloc, count, cursor)
}

#[tactic(auto, unfolding(crate::specs::Reading::some_at))]
fn some_outputs(alloc: Global, cursor: &mut Cursor) -> Result<Vec<TxOut>, TxFault>
    ensures gives { Yields Memory (λ v. v.items) cursor.new result (outputs_at cursor.old) }
    ensures short { result ≡ Err Memory → IsOkAnd (compact_at cursor.old) (λ count. count.0 ≢ 0) }
{
    let count = cursor.compact()?;
    if count == 0 {
        return Err(TxFault::NoOutputs);
    }
    outputs_of(alloc, count, cursor)
}

#[tactic(auto, using(crate::proofs::Counts::input_of_some), unfolding(crate::specs::Reading::legacy_at))]
fn legacy_of(alloc: Global, version: u32, cursor: &mut Cursor) -> Result<Tx, TxFault>
    ensures gives { Yields Memory (λ x. x) cursor.new result (legacy_at version cursor.old) }
    ensures short { result ≡ Err Memory → HasInput cursor.old }
{
    let inputs = some_inputs(alloc, cursor)?;
    let outputs = some_outputs(alloc, cursor)?;
    let locktime = cursor.u32_le()?;
    Ok(Tx {
        version,
        inputs,
        outputs,
        locktime,
        segwit: false,
    })
}

#[tactic(auto, using(crate::proofs::Counts::input_of_some), unfolding(crate::specs::Reading::witnessed_at))]
fn witnessed_of(alloc: Global, version: u32, cursor: &mut Cursor) -> Result<Tx, TxFault>
    ensures gives { Yields Memory (λ x. x) cursor.new result (witnessed_at version cursor.old) }
    ensures short { result ≡ Err Memory → HasInput cursor.old }
{
    let mut inputs = some_inputs(alloc, cursor)?;
    let outputs = some_outputs(alloc, cursor)?;
    stacks_of(alloc, &mut inputs, cursor)?;
    check_witnesses(&inputs)?;
    let locktime = cursor.u32_le()?;
    Ok(Tx {
        version,
        inputs,
        outputs,
        locktime,
        segwit: true,
    })
}

#[tactic(auto, unfolding(crate::specs::Reading::segregated_at))]
fn segregated_of(alloc: Global, version: u32, cursor: &mut Cursor) -> Result<Tx, TxFault>
    ensures gives { Yields Memory (λ x. x) cursor.new result (segregated_at version cursor.old) }
    ensures short { result ≡ Err Memory → IsOkAnd (take_at 1 cursor.old) (λ flag. slice_index flag.0 0 ≡ 1) }
    ensures some { result ≡ Err Memory → IsOkAnd (take_at 1 cursor.old) (λ flag. HasInput flag.1) }
    ensures form { result ≡ Err Memory → BeginsSegregated cursor.old }
{
    let flag = cursor.take(1)?;
    if flag[0] != 1 {
        return Err(TxFault::BadFlag);
    }
    witnessed_of(alloc, version, cursor)
}

#[tactic(auto, unfolding(crate::specs::Reading::tx_at))]
fn tx_of(alloc: Global, cursor: &mut Cursor) -> Result<Tx, TxFault>
    ensures gives { Yields Memory (λ x. x) cursor.new result (tx_at cursor.old) }
    ensures short { result ≡ Err Memory → IsOk (number_at w32 cursor.old) }
    ensures form { result ≡ Err Memory → IsOkAnd (number_at w32 cursor.old) (λ version. BeginsInputs version.1) }
{
    let version = cursor.u32_le()?;
    if matches!(cursor.rest(), [0, ..]) {
        cursor.take(1)?;
        segregated_of(alloc, version, cursor)
    } else {
        legacy_of(alloc, version, cursor)
    }
}

fn front_of(alloc: Global, cursor: &mut Cursor) -> Result<Tx, TxFault>
    ensures exact { Yields Memory (λ t. t) cursor.new result (tx_at cursor.old) }
    ensures stays { OnErr result (cursor.new ≡ cursor.old) }
    ensures bytes { IsBytes cursor.old.rest }
    ensures short { result ≡ Err Memory → IsOk (number_at w32 cursor.old) }
    ensures form { result ≡ Err Memory → IsOkAnd (number_at w32 cursor.old) (λ version. BeginsInputs version.1) }
{
    let mut ahead = cursor.fork();
    let tx = tx_of(alloc, &mut ahead)?;
    *cursor = ahead;
    Ok(tx)
}

/// The transaction that stands at the cursor (BIP 144), which ends after it. The cursor stays where it
/// is after any fault. [`TxFault::Trailing`] never comes.
pub fn read_tx(alloc: Global, cursor: &mut Cursor) -> Result<Tx, TxFault>
    // What is read is the text of a transaction, and each such text is read, memory aside.
    ensures found { IfOk result (λ tx. IsTransaction tx × (cursor.old.rest ≡ text_of tx ++ cursor.new.rest)) }
    ensures only { (tx : Transaction) (rest : List ℕ) → IsTransaction tx → cursor.old.rest ≡ text_of tx ++ rest → IsRead tx rest cursor.new result }
    ensures place { IfOk result (λ tx. cursor.new.place ≡ cursor.old.place + length (text_of tx)) }

    // Which fault it is.
    ensures exact { Yields Memory (λ t. t) cursor.new result (tx_at cursor.old) }
    ensures never_trailing { (place : ℕ) → result ≢ Err (Trailing place) }
    ensures stays { OnErr result (cursor.new ≡ cursor.old) }

    // Memory is taken after the first input, and after the flag where there is a marker.
    ensures form { result ≡ Err Memory → IsOkAnd (number_at w32 cursor.old) (λ version. BeginsInputs version.1) }
{
    front_of(alloc, cursor)
}

fn whole_of(alloc: Global, bytes: &[u8]) -> Result<Tx, TxFault>
    ensures exact { YieldsAll Memory (λ t. t) result (whole_of Trailing (tx_at (record { rest = bytes.now; place = 0 }))) }
    ensures bytes { IsBytes bytes.now }
    ensures short { result ≡ Err Memory → IsOk (number_at w32 (record { rest = bytes.now; place = 0 })) }
    ensures form { result ≡ Err Memory → IsOkAnd (number_at w32 (record { rest = bytes.now; place = 0 })) (λ version. BeginsInputs version.1) }
{
    let mut cursor = Cursor::new(bytes);
    let tx = tx_of(alloc, &mut cursor)?;
    check_end(&cursor)?;
    Ok(tx)
}

/// The transaction that the bytes are, all of them (BIP 144). [`TxFault::Trailing`] exactly where bytes
/// follow a transaction.
pub fn read_whole_tx(alloc: Global, bytes: &[u8]) -> Result<Tx, TxFault>
    // What is read is the text of a transaction, and each such text is read, memory aside.
    ensures found { IfOk result (λ tx. IsTransaction tx × (bytes.now ≡ text_of tx)) }
    ensures only { (tx : Transaction) → IsTransaction tx → bytes.now ≡ text_of tx → MatchResult result (λ t. t ≡ tx) (λ e. e ≡ Memory) }

    // Which fault it is.
    ensures exact { YieldsAll Memory (λ t. t) result (whole_of Trailing (tx_at (record { rest = bytes.now; place = 0 }))) }
    ensures trailing { (place : ℕ) → result ≡ Err (Trailing place) → IsFollowed IsTransaction bytes.now place }
    ensures followed { (place : ℕ) → IsFollowed IsTransaction bytes.now place → MatchResult result (λ _. ⊥) (λ e. e ≢ Memory → e ≡ Trailing place) }

    // Memory is taken after the version and the first input, and after the flag where there is a marker.
    ensures short { result ≡ Err Memory → IsOk (number_at w32 (record { rest = bytes.now; place = 0 })) }
    ensures form { result ≡ Err Memory → IsOkAnd (number_at w32 (record { rest = bytes.now; place = 0 })) (λ version. BeginsInputs version.1) }
{
    whole_of(alloc, bytes)
}

#[tactic(auto, unfolding(crate::specs::Reading::legacy_tx_at))]
fn legacy_tx_of(alloc: Global, cursor: &mut Cursor) -> Result<Tx, TxFault>
    ensures gives { Yields Memory (λ x. x) cursor.new result (legacy_tx_at cursor.old) }
    ensures short { result ≡ Err Memory → IsOk (number_at w32 cursor.old) }
    ensures some { result ≡ Err Memory → IsOkAnd (number_at w32 cursor.old) (λ version. HasInput version.1) }
{
    let version = cursor.u32_le()?;
    legacy_of(alloc, version, cursor)
}

fn whole_legacy_of(alloc: Global, bytes: &[u8]) -> Result<Tx, TxFault>
    ensures exact { YieldsAll Memory (λ t. t) result (whole_of Trailing (legacy_tx_at (record { rest = bytes.now; place = 0 }))) }
    ensures short { result ≡ Err Memory → IsOk (number_at w32 (record { rest = bytes.now; place = 0 })) }
    ensures some { result ≡ Err Memory → IsOkAnd (number_at w32 (record { rest = bytes.now; place = 0 })) (λ version. HasInput version.1) }
    ensures bytes { IsBytes bytes.now }
{
    let mut cursor = Cursor::new(bytes);
    let tx = legacy_tx_of(alloc, &mut cursor)?;
    check_end(&cursor)?;
    Ok(tx)
}

/// The transaction in the legacy form that the bytes are, all of them, as a PSBT holds its unsigned one
/// (BIP 174). No marker is looked for: where the number of inputs is 0, it is [`TxFault::NoInputs`].
pub fn read_whole_legacy_tx(alloc: Global, bytes: &[u8]) -> Result<Tx, TxFault>
    // What is read is the text of a transaction in this form, and each such text is read, memory aside.
    ensures found { IfOk result (λ tx. IsLegacy tx × (bytes.now ≡ text_of tx)) }
    ensures only { (tx : Transaction) → IsLegacy tx → bytes.now ≡ text_of tx → MatchResult result (λ t. t ≡ tx) (λ e. e ≡ Memory) }

    // Which fault it is.
    ensures exact { YieldsAll Memory (λ t. t) result (whole_of Trailing (legacy_tx_at (record { rest = bytes.now; place = 0 }))) }
    ensures trailing { (place : ℕ) → result ≡ Err (Trailing place) → IsFollowed IsLegacy bytes.now place }
    ensures followed { (place : ℕ) → IsFollowed IsLegacy bytes.now place → MatchResult result (λ _. ⊥) (λ e. e ≢ Memory → e ≡ Trailing place) }

    // Memory is taken after the version and the first input.
    ensures short { result ≡ Err Memory → IsOk (number_at w32 (record { rest = bytes.now; place = 0 })) }
    ensures some { result ≡ Err Memory → IsOkAnd (number_at w32 (record { rest = bytes.now; place = 0 })) (λ version. HasInput version.1) }
{
    whole_legacy_of(alloc, bytes)
}
