//! The maps of version 2 behind the global one, each of which tells an input or an output (BIP 370).

ghost use Rattle.std.specs.Prelude.{◌≡◌, ◌+◌, ◌≤◌, ◌<◌, ◌^◌, [], ◌∷◌, ◌++◌, length, map, Err, IfOk, option_and_then};
ghost use Rattle.std.specs.List.{flat_map};
ghost use Rattle.fund_base.specs.Parsing.{Yields, YieldsAll, many_from};
ghost use Rattle.tx_codec.specs.declared.tx.TxIn.{TxIn as PlainInput};
ghost use Rattle.psbt_codec.specs.declared.fault.PsbtFault.TheVariants.{Memory as OutOfMemory};
ghost use Rattle.psbt_codec.specs.declared.psbt.Spent.{Spent as PlainSpent};
ghost use Rattle.psbt_codec.specs.Psbt.{pair_text};
ghost use Rattle.psbt_codec.specs.Reading.{fields_at, has_lock, input_fields_at, input_in, next_input_fields, next_output_fields, number64_in, output_fields_at, output_in, txid_in, value_of};

use crate::counts::{begins, counts_of, number32_of, number32_or};
use crate::fault::PsbtFault;
use crate::known::{check_parent, shown, spent_in};
use crate::pairs::{Pair, Part, pairs_of, value_of};
use crate::psbt::{Psbt, Spent};
use crate::values::{number64_in, txid_in};
use fund_base::{Cursor, MAX_MONEY, Memory, OutPoint, Sat, Script, Txid};
use std::alloc::Global;
use std::marker::Model;
use tx_codec::{Tx, TxFault, TxIn, TxOut, Witness};

/// The inputs that were read so far, and for each what is known of the output that it spends.
#[derive(Drop)]
struct Inputs {
    inputs: Vec<TxIn>,
    spent: Vec<Spent>,
}

impl Model for Inputs {
    ghost use Rattle.std.specs.Prelude.{◌≡◌, List, length};
    ghost use Rattle.std.specs.List.{zip};
    ghost use Rattle.tx_codec.specs.declared.tx.TxIn.{TxIn as PlainInput};
    ghost use Rattle.psbt_codec.specs.declared.psbt.Spent.{Spent as PlainSpent};

    ghost Value = { List (PlainInput × PlainSpent) };

    ghost view = { λ i. zip i.inputs.items i.spent.items };

    ghost invariant = { λ i. length i.spent.items ≡ length i.inputs.items };
}

impl Inputs {
    fn new(alloc: Global) -> Inputs
        ensures { result ≡ [] }
    {
        Inputs {
            inputs: Vec::new(alloc),
            spent: Vec::new(alloc),
        }
    }

    /// The same and one input more. The error is out of memory.
    fn with(self, input: TxIn, known: Spent) -> Result<Inputs, Memory>
        ensures { IfOk result (λ all. all ≡ self ++ (input, known) ∷ []) }
    {
        let Inputs {
            mut inputs,
            mut spent,
        } = self;
        inputs.push(input)?;
        spent.push(known)?;
        Ok(Inputs { inputs, spent })
    }

    fn into_parts(self) -> (Vec<TxIn>, Vec<Spent>)
        ensures inputs { result.0.items ≡ map (λ (k : PlainInput × PlainSpent). k.0) self }
        ensures spent { result.1.items ≡ map (λ (k : PlainInput × PlainSpent). k.1) self }
    {
        let Inputs { inputs, spent } = self;
        (inputs, spent)
    }
}

/// Whether some pair asks for a lock time of the transaction.
fn has_lock(pairs: &[Pair]) -> bool
    ensures { result ≡ has_lock pairs.now }
{
    pairs
        .iter()
        .any(|pair| begins(17, pair.key) || begins(18, pair.key))
}

/// The txid that the pair of type 0E holds.
fn txid_of(pairs: &[Pair]) -> Option<Txid>
    ensures { result ≡ option_and_then txid_in (value_of 14 pairs.now) }
{
    match value_of(pairs, 14) {
        Some(value) => txid_in(value),
        None => None,
    }
}

/// The input of this index that the pairs tell, not signed. It takes no memory.
#[tactic(auto, unfolding(crate::specs::Reading::input_in))]
fn input_in(alloc: Global, number: u64, pairs: &[Pair]) -> Result<TxIn, PsbtFault>
    ensures { result ≡ input_in number pairs.now }
{
    let Some(txid) = txid_of(pairs) else {
        return Err(PsbtFault::Lacking(14));
    };
    let Some(index) = number32_of(pairs, 15) else {
        return Err(PsbtFault::Lacking(15));
    };
    if has_lock(pairs) {
        return Err(PsbtFault::RequiredLock(shown(number)));
    }
    Ok(TxIn {
        prev: OutPoint { txid, index },
        script: Script::new(Vec::new(alloc)),
        sequence: number32_or(pairs, 16, u32::MAX),
        witness: Witness::new(Vec::new(alloc)),
    })
}

#[tactic(auto, unfolding(crate::specs::Reading::input_fields_at))]
fn input_of(alloc: Global, number: u64, cursor: &mut Cursor) -> Result<(TxIn, Spent), PsbtFault>
    ensures { Yields OutOfMemory (λ k. k) cursor.new result (input_fields_at number cursor.old) }
{
    let pairs = pairs_of(alloc, Part::InputFields, cursor)?;
    let input = input_in(alloc, number, &pairs)?;
    let spent = spent_in(alloc, &pairs)?;
    check_parent(number, &input, &spent.whole)?;
    Ok((input, spent))
}

fn inputs_of(alloc: Global, count: u64, cursor: &mut Cursor) -> Result<Inputs, PsbtFault>
    ensures { Yields OutOfMemory (λ i. i) cursor.new result (many_from next_input_fields count [] cursor.old) }
{
    let mut told = Inputs::new(alloc);
    for number in 0..count {
        let (input, spent) = input_of(alloc, number, cursor)?;
        told = told.with(input, spent)?;
    }
    Ok(told)
}

/// The value that the pair of type 03 holds.
fn number64_of(pairs: &[Pair]) -> Option<u64>
    ensures { result ≡ option_and_then number64_in (value_of 3 pairs.now) }
{
    match value_of(pairs, 3) {
        Some(value) => number64_in(value),
        None => None,
    }
}

/// The output of this index that the pairs tell, behind others of this sum.
#[tactic(auto, unfolding(crate::specs::Reading::output_in))]
fn output_in(alloc: Global, number: u64, sum: u64, pairs: &[Pair]) -> Result<TxOut, PsbtFault>
    requires { sum ≤ MAX_MONEY }
    ensures gives { YieldsAll OutOfMemory (λ o. o) result (output_in number sum pairs.now) }
    ensures range { IfOk result (λ o. sum + o.value ≤ MAX_MONEY) }
{
    let Some(told) = number64_of(pairs) else {
        return Err(PsbtFault::Lacking(3));
    };
    let Some(script) = value_of(pairs, 4) else {
        return Err(PsbtFault::Lacking(4));
    };
    let value = match Sat::new(told) {
        Some(value) if value.get() <= MAX_MONEY - sum => value,
        _ => return Err(PsbtFault::Unsigned(TxFault::ValueRange(shown(number)))),
    };
    let script = Vec::from_slice(alloc, script)?;
    Ok(TxOut {
        value,
        script: Script::new(script),
    })
}

#[tactic(auto, unfolding(crate::specs::Reading::output_fields_at))]
fn output_of(alloc: Global, number: u64, sum: u64, cursor: &mut Cursor) -> Result<TxOut, PsbtFault>
    requires { sum ≤ MAX_MONEY }
    ensures gives { Yields OutOfMemory (λ o. o) cursor.new result (output_fields_at number sum cursor.old) }
    ensures range { IfOk result (λ o. sum + o.value ≤ MAX_MONEY) }
{
    let pairs = pairs_of(alloc, Part::OutputFields, cursor)?;
    output_in(alloc, number, sum, &pairs)
}

fn outputs_of(alloc: Global, count: u64, cursor: &mut Cursor) -> Result<Vec<TxOut>, PsbtFault>
    ensures { Yields OutOfMemory (λ v. v.items) cursor.new result (many_from next_output_fields count [] cursor.old) }
{
    let mut outputs = Vec::new(alloc);
    let mut sum = 0;
    for number in 0..count {
        let output = output_of(alloc, number, sum, cursor)?;
        sum += output.value.get();
        outputs.push(output)?;
    }
    Ok(outputs)
}

/// What stands behind the pairs of a global map of version 2, which begins at this place.
#[tactic(auto, unfolding(crate::specs::Reading::fields_at))]
pub fn fields_behind(
    alloc: Global,
    place: u64,
    pairs: &[Pair],
    cursor: &mut Cursor,
) -> Result<Psbt, PsbtFault>
    requires room { place + length (flat_map pair_text pairs.now) < 2 ^ 64 }
    ensures { Yields OutOfMemory (λ p. p) cursor.new result (fields_at place pairs.now cursor.old) }
{
    let counts = counts_of(place, pairs)?;
    let inputs = inputs_of(alloc, counts.inputs, cursor)?;
    let outputs = outputs_of(alloc, counts.outputs, cursor)?;
    let (inputs, spent) = inputs.into_parts();
    Ok(Psbt {
        tx: Tx {
            version: counts.version,
            inputs,
            outputs,
            locktime: counts.locktime,
            segwit: false,
        },
        spent,
    })
}
