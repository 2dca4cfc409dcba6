//! What raises pending transactions to a fee rate.

ghost use Rattle.std.specs.Prelude.{◌≡◌, ◌+◌, ◌≤◌, ◌<◌, ◌==◌, ℕ, IfOk, All, false, length, map, min, sum_by, slice_get, slice_index_or, if◌then◌else◌};
ghost use Rattle.std.specs.List.{list_all};
ghost use Rattle.tx_codec.specs.Transaction.{Transaction};
ghost use Rattle.tx_codec.specs.Txid.{txid_of};
ghost use Rattle.tx_codec.specs.declared.tx.TxOut.{TxOut};
ghost use Rattle.known_fees.specs.Missing.{missing_of};
ghost use Rattle.payment_states.specs.BookOf.{IsBookOf};
ghost use Rattle.payment_states.specs.Candidates.{is_pending, prices_in};
ghost use Rattle.payment_states.specs.Counts.{are_one, share_in, sum_over};
ghost use Rattle.payment_states.specs.Graph.{IsInOrder, below};
ghost use Rattle.payment_states.specs.Payments.{payments_of};
ghost use Rattle.payment_states.specs.PendingView.{no_tx, view_of};

use crate::ancestry::Parents;
use crate::counts::mark_kin;
use crate::graph::graph_of;
use crate::own_coins::amount_at;
use crate::states::States;
use coin_book::Known;
use fee_rates::MAX_RATE;
use fund_base::{MAX_MONEY, Memory, Txid};
use indexmap::IndexSet;
use known_fees::missing;
use std::alloc::Global;
use tx_codec::Tx;
use wallet_text::Wallet;

/// What is missing at the rate of what a transaction pays, where it is flagged; 0 otherwise.
fn share(
    alloc: Global,
    rate: u64,
    book: &Known<'_>,
    txs: &[Tx],
    txids: &IndexSet<Txid>,
    tx: &Tx,
    flag: bool,
) -> Result<u64, Memory>
    requires rate { rate ≤ MAX_RATE }
    requires txids { txids.now.keys ≡ map txid_of txs.now }
    requires money { sum_by (λ (x : TxOut). x.value) tx.now.outputs ≤ MAX_MONEY }
    ensures value { IfOk result (λ n. n ≡ (if flag then missing_of rate book.now txs.now tx.now else 0)) }
    ensures most { IfOk result (λ n. n ≤ MAX_MONEY) }
{
    if flag {
        missing(alloc, rate, book, txs, txids, tx)
    } else {
        Ok(0)
    }
}

/// At each place what is missing at the rate of what its transaction pays, where it is flagged.
fn shares_of(
    alloc: Global,
    rate: u64,
    book: &Known<'_>,
    txs: &[Tx],
    txids: &IndexSet<Txid>,
    flags: &[bool],
) -> Result<Vec<u64>, Memory>
    requires rate { rate ≤ MAX_RATE }
    requires txids { txids.now.keys ≡ map txid_of txs.now }
    requires money { All (λ (t : Transaction). sum_by (λ (x : TxOut). x.value) t.outputs ≤ MAX_MONEY) txs.now }
    requires flags { length flags.now ≡ length txs.now }
    ensures shares { IfOk result (λ v. v.items ≡ map (λ i. if slice_index_or flags.now i false then missing_of rate book.now txs.now (slice_index_or txs.now i no_tx) else 0) (below (length txs.now))) }
    ensures most { IfOk result (λ v. All (λ n. n ≤ MAX_MONEY) v.items) }
{
    let mut shares = Vec::new(alloc);
    for place in 0..txs.len() {
        let tx = &txs[place];
        shares.push(share(alloc, rate, book, txs, txids, tx, flags[place])?)?;
    }
    Ok(shares)
}

/// A sum, at most 21,000,000 bitcoin.
fn plus(a: u64, b: u64) -> u64
    requires a { a ≤ MAX_MONEY }
    requires b { b ≤ MAX_MONEY }
    ensures { result ≡ min MAX_MONEY (a + b) }
{
    (a + b).min(MAX_MONEY)
}

/// The share, where its place is marked; 0 otherwise.
fn share_if(marked: bool, share: u64) -> u64
    requires { share ≤ MAX_MONEY }
    ensures value { result ≡ (if marked then share else 0) }
    ensures most { result ≤ MAX_MONEY }
{
    if marked { share } else { 0 }
}

/// Adds up the shares of the marked places from `low` to `high`, up to 21,000,000 bitcoin, and takes the marks away.
fn sum_marked(marks: &mut [bool], shares: &[u64], low: usize, high: usize) -> u64
    // A share for each place, and marks from `low` to `high` alone.
    requires shares { length shares.now ≡ length marks.old }
    requires most { All (λ n. n ≤ MAX_MONEY) shares.now }
    requires low { low ≤ high }
    requires high { high < length marks.old }
    requires below { (j : ℕ) → j < low → slice_index_or marks.old j false ≡ false }
    requires above { (j : ℕ) → high < j → slice_index_or marks.old j false ≡ false }
    // Their sum, and no mark left.
    ensures sum { result ≡ min 2_100_000_000_000_000 (sum_by (λ j. if slice_index_or marks.old j false then share_in shares.now j else 0) (below (length marks.old))) }
    ensures clean { (j : ℕ) → slice_index_or marks.new j false ≡ false }
{
    let mut sum = 0;
    for place in low..high + 1 {
        let share = share_if(marks[place], shares[place]);
        sum = plus(sum, share);
        marks[place] = false;
    }
    sum
}

/// Whether these places are all this one.
fn are_all(places: &[usize], one: usize) -> bool
    ensures { result ≡ list_all (λ p. p == one) places.now }
{
    places.iter().all(|place| *place == one)
}

/// Whether these places are all the same one, or there is none.
fn are_one(places: &[usize]) -> bool
    ensures { result ≡ are_one places.now }
{
    match places {
        [] => true,
        [first, rest @ ..] => are_all(rest, *first),
    }
}

/// The first of these places.
fn first(places: &[usize]) -> Option<usize>
    ensures { result ≡ slice_get places.now 0 }
{
    places.first().copied()
}

/// The shares of a place and its ancestors together, where those of each place before it are known. Where it has one parent,
/// they are the parent's and its own; otherwise each ancestor is looked for, so that none counts twice.
fn sum_over(
    parents: &[Parents],
    shares: &[u64],
    sums: &[u64],
    place: usize,
    marks: &mut [bool],
) -> u64
    requires order { IsInOrder parents.now }
    requires place { place < length parents.now }
    requires shares { length shares.now ≡ length parents.now }
    requires most { All (λ n. n ≤ MAX_MONEY) shares.now }
    requires sums { sums.now ≡ map (sum_over parents.now shares.now) (below place) }
    requires marks { length marks.old ≡ length parents.now }
    requires clean { (j : ℕ) → slice_index_or marks.old j false ≡ false }
    ensures sum { result ≡ sum_over parents.now shares.now place }
    ensures clean { (j : ℕ) → slice_index_or marks.new j false ≡ false }
{
    let here = &parents[place];
    let above = here.as_slice();
    if are_one(above) {
        let before = amount_at(sums, first(above));
        plus(before, shares[place])
    } else {
        let low = mark_kin(parents, place, marks);
        sum_marked(marks, shares, low, place)
    }
}

/// At each place the shares of it and its ancestors together.
fn sums_of(
    alloc: Global,
    parents: &[Parents],
    shares: &[u64],
    marks: &mut [bool],
) -> Result<Vec<u64>, Memory>
    requires order { IsInOrder parents.now }
    requires shares { length shares.now ≡ length parents.now }
    requires most { All (λ n. n ≤ MAX_MONEY) shares.now }
    requires marks { length marks.old ≡ length parents.now }
    requires clean { (j : ℕ) → slice_index_or marks.old j false ≡ false }
    ensures { IfOk result (λ v. v.items ≡ map (sum_over parents.now shares.now) (below (length parents.now))) }
{
    let mut sums = Vec::with_capacity(alloc, parents.len())?;
    for place in 0..parents.len() {
        let sum = sum_over(parents, shares, &sums, place, marks);
        sums.push(sum)?;
    }
    Ok(sums)
}

/// The price at each place of the pending list: what raises each Pending transaction among the one there and its ancestors to
/// the rate, as far as it is known what that one pays; in satoshi, at most 21,000,000 bitcoin. The error is out of memory.
pub fn prices_of(
    alloc: Global,
    book: &Known<'_>,
    wallet: &Wallet,
    states: &States,
    pending: &[bool],
    rate: u64,
) -> Result<Vec<u64>, Memory>
    requires book { IsBookOf wallet.now book.now }
    requires states { states.now ≡ payments_of wallet.now book.now }
    requires pending { pending.now ≡ map (is_pending (view_of wallet.now book.now)) (below (length wallet.now.pending)) }
    requires rate { rate ≤ MAX_RATE }
    ensures { IfOk result (λ v. v.items ≡ prices_in wallet.now book.now rate) }
{
    let txids = states.txids();
    let parents = graph_of(alloc, book, txids, &wallet.pending)?;
    let shares = shares_of(alloc, rate, book, &wallet.pending, txids, pending)?;
    let mut marks = vec![in alloc; false; parents.len()]?;
    let sums = sums_of(alloc, &parents, &shares, &mut marks)?;
    Ok(sums)
}
