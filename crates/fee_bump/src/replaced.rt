//! What is replaced: a payment and its Pending descendants.

ghost use Rattle.std.specs.Prelude.{◌≡◌, ◌<◌, IfOk, All, length, map, slice_index_or};
ghost use Rattle.std.specs.List.{list_any};
ghost use Rattle.tx_codec.specs.Txid.{txid_of};
ghost use Rattle.wallet_text.specs.WalletRules.{AreDistinct};
ghost use Rattle.payment_states.specs.BookOf.{IsBookOf};
ghost use Rattle.payment_states.specs.Payments.{payments_of};
ghost use Rattle.payment_states.specs.PendingView.{no_tx, view_of};
ghost use Rattle.fee_bump.specs.Bump.{replaced_at};
ghost use Rattle.fee_bump.specs.Faults.{can_be_replaced, has_signal};

use coin_book::Known;
use fund_base::{Memory, Txid};
use indexmap::IndexSet;
use payment_facts::{pending_ancestors, pending_descendants};
use payment_states::States;
use std::alloc::Global;
use tx_codec::{Tx, signals, txid};
use wallet_text::Wallet;

/// Whether a transaction signals by itself.
fn has_signal(tx: &Tx) -> bool
    ensures { result ≡ has_signal tx.now }
{
    signals(tx)
}

/// Whether one of the transactions at these places signals.
fn any_signals(txs: &[Tx], places: &[usize]) -> bool
    requires { All (λ p. p < length txs.now) places.now }
    ensures { result ≡ list_any (λ j. has_signal (slice_index_or txs.now j no_tx)) places.now }
{
    for place in places {
        if has_signal(&txs[*place]) {
            return true;
        }
    }
    false
}

/// Whether the transaction at a place of the pending list may be replaced: it signals, or a Pending ancestor does. The error
/// is out of memory.
pub fn can_be_replaced(
    alloc: Global,
    book: &Known<'_>,
    wallet: &Wallet,
    states: &States,
    place: usize,
) -> Result<bool, Memory>
    requires book { IsBookOf wallet.now book.now }
    requires states { states.now ≡ payments_of wallet.now book.now }
    requires place { place < length wallet.now.pending }
    ensures { IfOk result (λ b. b ≡ can_be_replaced (view_of wallet.now book.now) place) }
{
    let places = pending_ancestors(alloc, book, wallet, states, place)?;
    Ok(any_signals(&wallet.pending, &places))
}

/// Copies of the transactions at these places, in order.
fn copies(alloc: Global, txs: &[Tx], places: &[usize]) -> Result<Vec<Tx>, Memory>
    requires { All (λ p. p < length txs.now) places.now }
    ensures { IfOk result (λ v. v.items ≡ map (λ j. slice_index_or txs.now j no_tx) places.now) }
{
    let mut copies = Vec::new(alloc);
    for place in places {
        let copy = txs[*place].copy(alloc)?;
        copies.push(copy)?;
    }
    Ok(copies)
}

/// The transaction at a place of the pending list and its Pending descendants, in list order. The error is out of memory.
pub fn replaced(
    alloc: Global,
    book: &Known<'_>,
    wallet: &Wallet,
    states: &States,
    place: usize,
) -> Result<Vec<Tx>, Memory>
    requires book { IsBookOf wallet.now book.now }
    requires states { states.now ≡ payments_of wallet.now book.now }
    requires place { place < length wallet.now.pending }
    ensures value { IfOk result (λ v. v.items ≡ replaced_at (view_of wallet.now book.now) place) }
    ensures distinct { IfOk result (λ v. AreDistinct v.items) }
{
    let places = pending_descendants(alloc, book, wallet, states, place)?;
    let replaced = copies(alloc, &wallet.pending, &places)?;
    Ok(replaced)
}

/// The txids of transactions, in order.
pub fn txids(alloc: Global, txs: &[Tx]) -> Result<Vec<Txid>, Memory>
    ensures { IfOk result (λ v. v.items ≡ map txid_of txs.now) }
{
    let mut txids = Vec::new(alloc);
    for tx in txs {
        txids.push(txid(tx))?;
    }
    Ok(txids)
}

/// The set of these txids, in the same order. They are those of distinct transactions.
pub fn txid_set(alloc: Global, txs: &[Tx], txids: &[Txid]) -> Result<IndexSet<Txid>, Memory>
    requires same { txids.now ≡ map txid_of txs.now }
    requires distinct { AreDistinct txs.now }
    ensures { IfOk result (λ s. s.keys ≡ map txid_of txs.now) }
{
    let _ = txs;
    let mut set = IndexSet::new(alloc);
    for txid in txids {
        set.insert(*txid)?;
    }
    Ok(set)
}
