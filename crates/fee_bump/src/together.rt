//! What the transactions that go with a payment spend and pay together.

ghost use Rattle.std.specs.Prelude.{◌≡◌, ◌≤◌, ◌*◌, IfOk, All, map, length, sum_by};
ghost use Rattle.tx_codec.specs.Transaction.{Transaction};
ghost use Rattle.tx_codec.specs.Txid.{txid_of};
ghost use Rattle.tx_codec.specs.declared.tx.TxOut.{TxOut};
ghost use Rattle.fee_bump.specs.Bump.{fees_in};
ghost use Rattle.fee_bump.specs.Faults.{foreign_in};

use coin_book::Known;
use fund_base::{MAX_MONEY, Memory, OutPoint, Txid};
use indexmap::IndexSet;
use known_fees::{fee_in, foreign_input};
use std::alloc::Global;
use tx_codec::Tx;

/// The first input of these transactions whose outpoint's worth isn't known.
pub fn foreign(book: &Known<'_>, txs: &[Tx], txids: &IndexSet<Txid>) -> Option<OutPoint>
    requires { txids.now.keys ≡ map txid_of txs.now }
    ensures { result ≡ foreign_in book.now txs.now }
{
    for tx in txs {
        match foreign_input(book, txs, txids, &tx.inputs) {
            Some(point) => return Some(point),
            None => {}
        }
    }
    None
}

/// The fees of at most 100 transactions together, in satoshi. The error is out of memory.
pub fn fees_in(
    alloc: Global,
    book: &Known<'_>,
    txs: &[Tx],
    txids: &IndexSet<Txid>,
) -> Result<u64, Memory>
    requires txids { txids.now.keys ≡ map txid_of txs.now }
    requires few { length txs.now ≤ 100 }
    requires money { All (λ (t : Transaction). sum_by (λ (x : TxOut). x.value) t.outputs ≤ MAX_MONEY) txs.now }
    ensures value { IfOk result (λ fees. fees ≡ fees_in book.now txs.now) }
    ensures most { IfOk result (λ fees. fees ≤ 100 * MAX_MONEY) }
{
    let mut fees = 0;
    for tx in txs {
        fees += fee_in(alloc, book, txs, txids, tx)?;
    }
    Ok(fees)
}
