//! What outpoints are worth, and the fees of transactions.

ghost use Rattle.std.specs.Prelude.{◌≡◌, ◌≤◌, ◌*◌, IfOk, map, option_map, slice_get, sum_by, min, unwrap_or};
ghost use Rattle.tx_codec.specs.Txid.{txid_of};
ghost use Rattle.tx_codec.specs.declared.tx.TxIn.{TxIn};
ghost use Rattle.tx_codec.specs.declared.tx.TxOut.{TxOut};
ghost use Rattle.known_fees.specs.Worth.{fee_in, first_foreign, once_of, output_among, spent_by, worth_of};

use coin_book::Known;
use fund_base::{MAX_MONEY, Memory, OutPoint, Txid};
use indexmap::IndexSet;
use std::alloc::Global;
use tx_codec::{Tx, TxIn, TxOut};

/// The value of the output at an index.
fn output_value(tx: &Tx, index: u32) -> Option<u64>
    ensures { result ≡ option_map (λ (x : TxOut). x.value) (slice_get tx.now.outputs index) }
{
    match tx.outputs.get(index as usize) {
        Some(output) => Some(output.value.get()),
        None => None,
    }
}

/// The value of the output that an outpoint names, of one of these transactions.
fn output_worth(txs: &[Tx], txids: &IndexSet<Txid>, point: &OutPoint) -> Option<u64>
    requires { txids.now.keys ≡ map txid_of txs.now }
    ensures { result ≡ option_map (λ (x : TxOut). x.value) (output_among txs.now point.now) }
{
    match txids.get_index_of(&point.txid) {
        Some(place) => output_value(&txs[place], point.index),
        None => None,
    }
}

/// What an outpoint is worth, where that is known.
fn worth(book: &Known<'_>, txs: &[Tx], txids: &IndexSet<Txid>, point: &OutPoint) -> Option<u64>
    requires { txids.now.keys ≡ map txid_of txs.now }
    ensures { result ≡ worth_of book.now txs.now point.now }
{
    match book.get(point) {
        Some(coin) => Some(coin.value),
        None => output_worth(txs, txids, point),
    }
}

/// The first of these inputs whose outpoint's worth isn't known: it spends neither a coin of the book nor an output of one of
/// these transactions.
pub fn foreign_input(
    book: &Known<'_>,
    txs: &[Tx],
    txids: &IndexSet<Txid>,
    inputs: &[TxIn],
) -> Option<OutPoint>
    requires { txids.now.keys ≡ map txid_of txs.now }
    ensures { result ≡ first_foreign book.now txs.now (map (λ (i : TxIn). i.prev) inputs.now) }
{
    for input in inputs {
        if worth(book, txs, txids, &input.prev).is_none() {
            return Some(input.prev);
        }
    }
    None
}

/// The outpoints that these inputs spend, each once, in their order.
fn points_once(alloc: Global, inputs: &[TxIn]) -> Result<IndexSet<OutPoint>, Memory>
    ensures { IfOk result (λ s. s.keys ≡ once_of (map (λ (i : TxIn). i.prev) inputs.now)) }
{
    let mut points = IndexSet::new(alloc);
    for input in inputs {
        points.insert(input.prev)?;
    }
    Ok(points)
}

/// The outpoints that a transaction spends, each once, in the order of its inputs.
pub fn spent_by(alloc: Global, tx: &Tx) -> Result<IndexSet<OutPoint>, Memory>
    ensures { IfOk result (λ s. s.keys ≡ spent_by tx.now) }
{
    let points = points_once(alloc, &tx.inputs)?;
    Ok(points)
}

/// The worth of an outpoint, 0 where it isn't known.
fn known_worth(book: &Known<'_>, txs: &[Tx], txids: &IndexSet<Txid>, point: &OutPoint) -> u64
    requires { txids.now.keys ≡ map txid_of txs.now }
    ensures { result ≡ unwrap_or (worth_of book.now txs.now point.now) 0 }
{
    worth(book, txs, txids, point).unwrap_or(0)
}

/// What these outpoints are worth together, at most twice the greatest amount of money.
fn worth_together(book: &Known<'_>, txs: &[Tx], txids: &IndexSet<Txid>, points: &[OutPoint]) -> u64
    requires { txids.now.keys ≡ map txid_of txs.now }
    ensures { result ≡ min (sum_by (λ o. unwrap_or (worth_of book.now txs.now o) 0) points.now) (2 * MAX_MONEY) }
{
    let mut sum = 0;
    for point in points {
        sum = known_worth(book, txs, txids, point)
            .saturating_add(sum)
            .min(2 * MAX_MONEY);
    }
    sum
}

/// What outputs take together, at most twice the greatest amount of money.
fn taken(outputs: &[TxOut]) -> u64
    ensures { result ≡ min (sum_by (λ (x : TxOut). x.value) outputs.now) (2 * MAX_MONEY) }
{
    let mut sum = 0;
    for output in outputs {
        sum = output.value.get().saturating_add(sum).min(2 * MAX_MONEY);
    }
    sum
}

/// The fee of a transaction, in satoshi: what it spends, each outpoint counted once, less its outputs; at least 0 and at
/// most 21,000,000 bitcoin. The error is out of memory.
pub fn fee_in(
    alloc: Global,
    book: &Known<'_>,
    txs: &[Tx],
    txids: &IndexSet<Txid>,
    tx: &Tx,
) -> Result<u64, Memory>
    requires txids { txids.now.keys ≡ map txid_of txs.now }
    requires money { sum_by (λ (x : TxOut). x.value) tx.now.outputs ≤ MAX_MONEY }
    ensures value { IfOk result (λ fee. fee ≡ fee_in book.now txs.now tx.now) }
    ensures most { IfOk result (λ fee. fee ≤ MAX_MONEY) }
{
    let points = spent_by(alloc, tx)?;
    let spent = worth_together(book, txs, txids, points.as_slice());
    Ok(spent.saturating_sub(taken(&tx.outputs)).min(MAX_MONEY))
}
