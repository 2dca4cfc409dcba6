//! A PSBT made whole.

ghost use Rattle.std.specs.Prelude.{◌≡◌, ◌≢◌, All, Err, IfErr, IfOk, length};
ghost use Rattle.std.specs.List.{AllZip, zip};
ghost use Rattle.fund_files.specs.Chain.{HasTexts};
ghost use Rattle.psbt_codec.specs.Psbt.{IsPsbt, IsSpent};
ghost use Rattle.command_complete.specs.Completed.{IsCompleted, IsCompletedInput, Known as Beside, known_of};
ghost use Rattle.command_complete.specs.Faults.{FirstCanBeCompleted, IsFirstFault};

use crate::fault::CompleteFault;
use crate::input::completed_input;
use crate::whole_laws::completions_are_psbts;
use coin_book::Known;
use psbt_codec::{Psbt, Spent};
use std::alloc::Global;
use tx_codec::TxIn;

/// What is known of the outputs that the inputs spend, each with the whole transaction that is due beside it.
fn completed_inputs(
    alloc: Global,
    book: &Known<'_>,
    inputs: &[TxIn],
    spent: &[Spent],
) -> Result<Vec<Spent>, CompleteFault>
    requires texts { HasTexts book.now }
    requires lengths { length spent.now ≡ length inputs.now }
    requires fit { All (λ (k : Beside). IsSpent k.0 k.1) (zip inputs.now spent.now) }
    ensures completed { IfOk result (λ v. AllZip (IsCompletedInput book.now) (zip inputs.now spent.now) v.items) }
    ensures fault { IfErr result (λ e. e ≢ CompleteFault.Memory → IsFirstFault book.now (zip inputs.now spent.now) e) }
    ensures memory { result ≡ Err CompleteFault.Memory → FirstCanBeCompleted book.now (zip inputs.now spent.now) }
{
    let mut completed = Vec::new(alloc);
    'completing: for i in 0..inputs.len() {
        let known = completed_input(alloc, book, i as u64, &inputs[i], &spent[i])?;
        completed.push(known)?;
    }
    Ok(completed)
}

/// The PSBT made whole from a book: the same, with the whole transaction beside each input that its output is spent from
/// (BIP 174, `PSBT_IN_NON_WITNESS_UTXO`). A whole transaction that stands there stays; where none does, it is that of the
/// book's coin at the outpoint.
///
/// It refuses for the first input with which something is wrong. [`CompleteFault::Missing`] comes where no whole transaction
/// stands beside it and the book has no coin at its outpoint; [`CompleteFault::OtherOutput`] where an output stands beside
/// it that isn't the whole transaction's at the outpoint's index.
pub fn complete_psbt(alloc: Global, book: &Known<'_>, psbt: &Psbt) -> Result<Psbt, CompleteFault>
    requires texts { HasTexts book.now }
    requires psbt { IsPsbt psbt.now }
    // It is the same but for the whole transactions, and a PSBT.
    ensures completed { IfOk result (λ q. IsCompleted book.now psbt.now q) }
    ensures psbt { IfOk result IsPsbt }
    // What is wrong with the first input with which something is. Out of memory may come in its place, but never in that of
    // what is wrong with the first of all inputs.
    ensures fault { IfErr result (λ e. e ≢ CompleteFault.Memory → IsFirstFault book.now (known_of psbt.now) e) }
    ensures memory { result ≡ Err CompleteFault.Memory → FirstCanBeCompleted book.now (known_of psbt.now) }
{
    completions_are_psbts();
    let spent = completed_inputs(alloc, book, &psbt.tx.inputs, &psbt.spent)?;
    let tx = psbt.tx.copy(alloc)?;
    Ok(Psbt { tx, spent })
}
