//! What is missing of fees at a rate.

ghost use Rattle.std.specs.Prelude.{◌≡◌, ◌≤◌, IfOk, map, sum_by};
ghost use Rattle.tx_codec.specs.Txid.{txid_of};
ghost use Rattle.tx_codec.specs.declared.tx.TxOut.{TxOut};
ghost use Rattle.known_fees.specs.Missing.{is_known, lack_of, missing_of, size_of};

use crate::worth::{fee_in, foreign_input};
use coin_book::Known;
use fee_rates::{MAX_RATE, fee, vsize};
use fund_base::{MAX_MONEY, Memory, Txid};
use indexmap::IndexSet;
use std::alloc::Global;
use tx_codec::{Tx, TxIn, weight};

/// The greatest virtual size that a transaction is charged for, in virtual bytes.
const MOST_SIZE: u64 = 10_000_000_000;

/// The virtual size that a transaction is charged for.
fn size(tx: &Tx) -> u64
    ensures value { result ≡ size_of tx.now }
    ensures most { result ≤ MOST_SIZE }
{
    vsize(weight(tx)).min(MOST_SIZE)
}

/// Whether each of the inputs spends what has a known worth.
fn are_known(book: &Known<'_>, txs: &[Tx], txids: &IndexSet<Txid>, tx: &Tx) -> bool
    requires { txids.now.keys ≡ map txid_of txs.now }
    ensures { result ≡ is_known book.now txs.now tx.now }
{
    foreign_input(book, txs, txids, &tx.inputs).is_none()
}

/// What raises what a transaction pays to the fee of its size at the rate.
fn lack(
    alloc: Global,
    rate: u64,
    book: &Known<'_>,
    txs: &[Tx],
    txids: &IndexSet<Txid>,
    tx: &Tx,
) -> Result<u64, Memory>
    requires rate { rate ≤ MAX_RATE }
    requires txids { txids.now.keys ≡ map txid_of txs.now }
    requires money { sum_by (λ (x : TxOut). x.value) tx.now.outputs ≤ MAX_MONEY }
    ensures value { IfOk result (λ n. n ≡ lack_of rate book.now txs.now tx.now) }
    ensures most { IfOk result (λ n. n ≤ 1_000_000_000_000_000) }
{
    let paid = fee_in(alloc, book, txs, txids, tx)?;
    Ok(fee(rate, size(tx)).saturating_sub(paid))
}

/// What is missing of what a transaction pays at a rate, in satoshi: it raises it to the fee of the transaction's virtual
/// size, which counts as at most 10,000,000,000 virtual bytes. It is 0 where the transaction pays that, and where it isn't
/// known what it pays: an input spends neither a coin of the book nor an output of one of these transactions. The error is
/// out of memory.
pub fn missing(
    alloc: Global,
    rate: u64,
    book: &Known<'_>,
    txs: &[Tx],
    txids: &IndexSet<Txid>,
    tx: &Tx,
) -> Result<u64, Memory>
    requires rate { rate ≤ MAX_RATE }
    requires txids { txids.now.keys ≡ map txid_of txs.now }
    requires money { sum_by (λ (x : TxOut). x.value) tx.now.outputs ≤ MAX_MONEY }
    ensures value { IfOk result (λ n. n ≡ missing_of rate book.now txs.now tx.now) }
    ensures most { IfOk result (λ n. n ≤ 1_000_000_000_000_000) }
{
    if !are_known(book, txs, txids, tx) {
        return Ok(0);
    }
    let lack = lack(alloc, rate, book, txs, txids, tx)?;
    Ok(lack)
}
