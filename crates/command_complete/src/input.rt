//! An input of a PSBT made whole.

ghost use Rattle.std.specs.Prelude.{◌≡◌, ◌≢◌, ◌↔◌, Err, IfErr, IfOk, IfSome, IsTrue, Some, slice_get};
ghost use Rattle.std.specs.Option.{option_copied};
ghost use Rattle.fund_files.specs.Chain.{HasTexts};
ghost use Rattle.psbt_codec.specs.Psbt.{IsSpent};
ghost use Rattle.command_complete.specs.Completed.{IsCompletedInput, due_for};
ghost use Rattle.command_complete.specs.Faults.{CanBeCompleted, IsInputFault};

use crate::fault::CompleteFault;
use coin_book::Known;
use fund_base::Memory;
use psbt_codec::Spent;
use std::alloc::Global;
use tx_codec::{Tx, TxIn, TxOut};

/// The whole transaction that is due beside an input: the one that stands there, or else that of the book's coin at the
/// outpoint that the input spends.
fn due_for<'a>(book: &'a Known<'a>, input: &TxIn, known: &'a Spent) -> Option<&'a Tx>
    ensures { option_copied result ≡ due_for book.now (input.now, known.now) }
{
    match &known.whole {
        Some(whole) => Some(whole),
        None => book.parent(&input.prev),
    }
}

/// Whether two outputs are the same.
#[tactic(auto, using(crate::proofs::InputLaws::same_output))]
fn is_output(output: &TxOut, told: &TxOut) -> bool
    ensures { IsTrue result ↔ (output.now ≡ told.now) }
{
    output.value.get() == told.value.get() && output.script.bytes() == told.script.bytes()
}

/// Whether the output that stands beside an input, where there is one, is that of the transaction at the index that the
/// input spends.
fn has_told(input: &TxIn, whole: &Tx, paid: &Option<TxOut>) -> bool
    ensures { IsTrue result ↔ IfSome paid.now (λ told. slice_get whole.now.outputs input.now.prev.index ≡ Some told) }
{
    match paid {
        None => true,
        Some(told) => {
            match whole.outputs.get(input.prev.index as usize) {
                None => false,
                Some(output) => is_output(output, told),
            }
        }
    }
}

/// A copy of the output that stands beside an input.
fn copy_paid(alloc: Global, paid: &Option<TxOut>) -> Result<Option<TxOut>, Memory>
    ensures { IfOk result (λ copy. copy ≡ paid.now) }
{
    match paid {
        None => Ok(None),
        Some(paid) => Ok(Some(paid.copy(alloc)?)),
    }
}

/// What is known of the output that the input of this index spends, with the whole transaction that is due beside it; or
/// what is wrong with the input. Memory is taken for what is copied, so only where nothing is wrong.
pub fn completed_input(
    alloc: Global,
    book: &Known<'_>,
    index: u64,
    input: &TxIn,
    known: &Spent,
) -> Result<Spent, CompleteFault>
    requires texts { HasTexts book.now }
    requires spent { IsSpent input.now known.now }
    ensures completed { IfOk result (λ s. IsCompletedInput book.now (input.now, known.now) s) }
    ensures fault { IfErr result (λ e. e ≢ CompleteFault.Memory → IsInputFault book.now index (input.now, known.now) e) }
    ensures memory { result ≡ Err CompleteFault.Memory → CanBeCompleted book.now (input.now, known.now) }
{
    let Some(whole) = due_for(book, input, known) else {
        return Err(CompleteFault::Missing(index, input.prev));
    };
    if !has_told(input, whole, &known.paid) {
        return Err(CompleteFault::OtherOutput(index, input.prev));
    }
    let whole = whole.copy(alloc)?;
    let paid = copy_paid(alloc, &known.paid)?;
    Ok(Spent {
        whole: Some(whole),
        paid,
    })
}
