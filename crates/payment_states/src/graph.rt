//! The pending list as a graph.

ghost use Rattle.std.specs.Prelude.{◌≡◌, All, IfOk, map, vec_len, length};
ghost use Rattle.tx_codec.specs.Txid.{txid_of};
ghost use Rattle.coin_book.specs.Asked.{AreWaiting, IsAskedTxid};
ghost use Rattle.payment_states.specs.ByPlace.{parents_by, place_by};
ghost use Rattle.payment_states.specs.PendingView.{parents};

use crate::ancestry::Parents;
use coin_book::Known;
use fund_base::{Memory, Txid};
use indexmap::IndexSet;
use std::alloc::Global;
use tx_codec::{Tx, TxIn, txid};

/// The txids of transactions, in order.
pub fn txids_of(alloc: Global, pending: &[Tx]) -> Result<Vec<Txid>, Memory>
    ensures txids { IfOk result (λ v. v.items ≡ map txid_of pending.now) }
    ensures len { IfOk result (λ v. vec_len v ≡ length pending.now) }
{
    let mut txids = Vec::new(alloc);
    for tx in pending {
        txids.push(txid(tx))?;
    }
    Ok(txids)
}

/// The place of a txid in the pending list. None exactly where it isn't there, or is confirmed.
fn open_place(book: &Known<'_>, txids: &IndexSet<Txid>, txid: &Txid) -> Option<usize>
    requires { All (IsAskedTxid book.now) txids.now.keys }
    ensures { result ≡ place_by book.now.confirmed txids.now.keys txid.now }
{
    let place = txids.get_index_of(txid)?;
    match book.height(txid) {
        Some(_) => None,
        None => Some(place),
    }
}

/// The parents of a transaction that spends by these inputs.
fn parents_of(
    alloc: Global,
    book: &Known<'_>,
    txids: &IndexSet<Txid>,
    inputs: &[TxIn],
) -> Result<Parents, Memory>
    requires { All (IsAskedTxid book.now) txids.now.keys }
    ensures { IfOk result (λ p. p ≡ parents_by book.now.confirmed txids.now.keys inputs.now) }
{
    let mut places = Vec::new(alloc);
    for input in inputs {
        match open_place(book, txids, &input.prev.txid) {
            Some(place) => places.push(place)?,
            None => {}
        }
    }
    Ok(Parents::new(places))
}

/// The parents of each transaction of the pending list, by their places. The error is out of memory.
pub fn graph_of(
    alloc: Global,
    book: &Known<'_>,
    txids: &IndexSet<Txid>,
    pending: &[Tx],
) -> Result<Vec<Parents>, Memory>
    requires txids { txids.now.keys ≡ map txid_of pending.now }
    requires waiting { AreWaiting book.now pending.now }
    ensures graph { IfOk result (λ v. v.items ≡ map (parents book.now.confirmed pending.now) pending.now) }
    ensures len { IfOk result (λ v. vec_len v ≡ length pending.now) }
{
    let mut graph = Vec::new(alloc);
    for tx in pending {
        graph.push(parents_of(alloc, book, txids, &tx.inputs)?)?;
    }
    Ok(graph)
}
