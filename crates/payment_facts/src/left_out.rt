//! The coins that could be spent if some payments had never been written down.

ghost use Rattle.std.specs.Prelude.{◌≡◌, ◌≢◌, ◌<◌, ◌&&◌, not, All, IfOk, OnErr, OnOk, None, bytes_eq, filter, is_none, option_and_then, slice_get};
ghost use Rattle.std.specs.List.{filter_map, list_all, list_any};
ghost use Rattle.indexmap.specs.IndexSet.{contains};
ghost use Rattle.coin_candidates.specs.Candidates.{AreCandidates};
ghost use Rattle.fund_base.specs.Outpoints.{same_outpoint};
ghost use Rattle.fund_base.specs.declared.outpoint.OutPoint.{OutPoint};
ghost use Rattle.tx_codec.specs.Transaction.{Transaction};
ghost use Rattle.tx_codec.specs.Txid.{txid_of};
ghost use Rattle.tx_codec.specs.declared.tx.TxIn.{TxIn};
ghost use Rattle.coin_book.specs.Asked.{AreWaiting, HasCoin};
ghost use Rattle.coin_book.specs.Coins.{coins_of};
ghost use Rattle.coin_book.specs.Faults.{fault_of};
ghost use Rattle.coin_book.specs.declared.coin.Coin.{Coin};
ghost use Rattle.payment_states.specs.BookOf.{IsBookOf};
ghost use Rattle.payment_states.specs.ByPlace.{view_by};
ghost use Rattle.payment_states.specs.Candidates.{is_claimed};
ghost use Rattle.payment_facts.specs.LeftOut.{comes_from_left, confirmed_without_of, left_by, stays_coin};
ghost use Rattle.payment_states.specs.Makers.{HasMaker};
ghost use Rattle.wallet_text.specs.WalletRules.{AreDistinct, ParentsComeFirst};

use coin_book::{Book, Coin, Known};
use coin_candidates::Candidate;
use fund_base::{Memory, OutPoint, Txid};
use indexmap::IndexSet;
use payment_states::{SpokenFor, is_deep, listed, may_be_spent, pending_of, spoken_for, states_of};
use std::alloc::Global;
use tx_codec::{Tx, TxIn, txid};
use wallet_text::Wallet;

/// The transactions whose txids aren't among these, in order.
fn left_of(alloc: Global, txs: &[Tx], gone: &IndexSet<Txid>) -> Result<Vec<Tx>, Memory>
    ensures { IfOk result (λ v. v.items ≡ filter (λ (t : Transaction). not (contains bytes_eq gone.now (txid_of t))) txs.now) }
{
    let mut left = Vec::new(alloc);
    for tx in txs {
        if !gone.contains(&txid(tx)) {
            left.push(tx.copy(alloc)?)?;
        }
    }
    Ok(left)
}

/// Whether a coin of this txid is none where the transactions of these are left out: its txid is among them, and it waits.
fn is_left_out(gone: &IndexSet<Txid>, txid: &Txid, height: Option<u32>) -> bool
    ensures { result ≡ (contains bytes_eq gone.now txid.now && is_none height) }
{
    gone.contains(txid) && height.is_none()
}

/// Whether the outpoint is that of a coin, and not of one whose transaction is left out.
fn stays_coin(book: &Known<'_>, gone: &IndexSet<Txid>, point: &OutPoint) -> bool
    ensures { result ≡ stays_coin book.now (contains bytes_eq gone.now) point.now }
{
    match book.get(point) {
        Some(coin) => !is_left_out(gone, &point.txid, coin.height),
        None => false,
    }
}

/// Whether every input spends such a coin.
fn stays_mine(book: &Known<'_>, gone: &IndexSet<Txid>, inputs: &[TxIn]) -> bool
    ensures { result ≡ list_all (λ (i : TxIn). stays_coin book.now (contains bytes_eq gone.now) i.prev) inputs.now }
{
    for input in inputs {
        if !stays_coin(book, gone, &input.prev) {
            return false;
        }
    }
    true
}

/// Whether every input of a coin's transaction does.
fn comes_from_left(book: &Known<'_>, gone: &IndexSet<Txid>, coin: &Coin) -> bool
    ensures { result ≡ comes_from_left book.now (contains bytes_eq gone.now) coin.now }
{
    match book.parent(&coin.coin) {
        Some(tx) => stays_mine(book, gone, &tx.inputs),
        None => false,
    }
}

/// The coin, if it is confirmed and may be spent, with what is known of it. Of no other coin memory is needed.
fn left_coin(
    alloc: Global,
    book: &Known<'_>,
    gone: &IndexSet<Txid>,
    claimed: &IndexSet<OutPoint>,
    locked: &IndexSet<OutPoint>,
    tip: u32,
    coin: &Coin,
) -> Result<Option<Candidate>, Memory>
    requires coin { HasCoin book.now coin.now.coin }
    requires tip { tip < 4294967295 }
    ensures exact { IfOk result (λ r. r ≡ left_by book.now (contains bytes_eq gone.now) tip (contains same_outpoint claimed.now coin.now.coin) (contains same_outpoint locked.now coin.now.coin) coin.now) }
    ensures short { OnErr result (left_by book.now (contains bytes_eq gone.now) tip (contains same_outpoint claimed.now coin.now.coin) (contains same_outpoint locked.now coin.now.coin) coin.now ≢ None) }
{
    let Some(height) = coin.height else {
        return Ok(None);
    };
    let spent = !book.spends(&coin.coin).is_empty();
    let is_claimed = claimed.contains(&coin.coin);
    let is_locked = locked.contains(&coin.coin);
    if may_be_spent(true, spent, is_claimed, is_locked, is_deep(tip, coin)) {
        let script = coin.script.copy(alloc)?;
        Ok(Some(Candidate {
            coin: coin.coin,
            value: coin.value,
            weight: coin.weight,
            script,
            depth: (tip + 1).saturating_sub(height),
            mine: comes_from_left(book, gone, coin),
            safe: true,
            ancestors: 0,
            descendants: 0,
            price: 0,
        }))
    } else {
        Ok(None)
    }
}

/// The coin of this number, if there is one, and it is confirmed and may be spent.
fn left_number(
    alloc: Global,
    book: &Known<'_>,
    gone: &IndexSet<Txid>,
    claimed: &IndexSet<OutPoint>,
    locked: &IndexSet<OutPoint>,
    tip: u32,
    number: usize,
) -> Result<Option<Candidate>, Memory>
    requires { tip < 4294967295 }
    ensures exact { IfOk result (λ r. r ≡ option_and_then (λ (c : Coin). left_by book.now (contains bytes_eq gone.now) tip (contains same_outpoint claimed.now c.coin) (contains same_outpoint locked.now c.coin) c) (slice_get (coins_of book.now) number)) }
    ensures short { OnErr result (option_and_then (λ (c : Coin). left_by book.now (contains bytes_eq gone.now) tip (contains same_outpoint claimed.now c.coin) (contains same_outpoint locked.now c.coin) c) (slice_get (coins_of book.now) number) ≢ None) }
{
    match book.at(number) {
        Some(coin) => left_coin(alloc, book, gone, claimed, locked, tip, coin),
        None => Ok(None),
    }
}

/// The confirmed coins that may be spent, by what is spoken for.
fn all_left(
    alloc: Global,
    book: &Known<'_>,
    gone: &IndexSet<Txid>,
    claimed: &IndexSet<OutPoint>,
    locked: &IndexSet<OutPoint>,
    tip: u32,
) -> Result<Vec<Candidate>, Memory>
    requires { tip < 4294967295 }
    ensures sound { OnOk result (fault_of book.now ≡ None) }
    ensures left { IfOk result (λ v. v.items ≡ filter_map (λ (c : Coin). left_by book.now (contains bytes_eq gone.now) tip (contains same_outpoint claimed.now c.coin) (contains same_outpoint locked.now c.coin) c) (coins_of book.now)) }
{
    let mut all = Vec::new(alloc);
    for number in 0..book.len() {
        match left_number(alloc, book, gone, claimed, locked, tip, number)? {
            Some(candidate) => all.push(candidate)?,
            None => {}
        }
    }
    Ok(all)
}

/// The outpoints that the Pending ones of these transactions spend, and these that are locked.
fn spoken_by(
    alloc: Global,
    book: &Known<'_>,
    txs: &[Tx],
    abandoned: &[Txid],
    points: &[OutPoint],
) -> Result<SpokenFor, Memory>
    requires distinct { AreDistinct txs.now }
    requires parents { ParentsComeFirst txs.now }
    requires waiting { AreWaiting book.now txs.now }
    ensures claimed { (o : OutPoint) → IfOk result (λ s. contains same_outpoint s.claimed o ≡ is_claimed (view_by book.now.confirmed txs.now abandoned.now) o) }
    ensures locked { (o : OutPoint) → IfOk result (λ s. contains same_outpoint s.locked o ≡ list_any (λ x. same_outpoint x o) points.now) }
{
    let states = states_of(alloc, book, txs, abandoned)?;
    let pending = pending_of(alloc, states.payments())?;
    let spoken = spoken_for(alloc, txs, &pending, points)?;
    Ok(spoken)
}

/// The same of these transactions without those of the txids that are left out.
fn spoken_without(
    alloc: Global,
    book: &Known<'_>,
    txs: &[Tx],
    abandoned: &[Txid],
    points: &[OutPoint],
    gone: &IndexSet<Txid>,
) -> Result<SpokenFor, Memory>
    requires distinct { AreDistinct txs.now }
    requires parents { ParentsComeFirst txs.now }
    requires waiting { AreWaiting book.now txs.now }
    ensures claimed { (o : OutPoint) → IfOk result (λ s. contains same_outpoint s.claimed o ≡ is_claimed (view_by book.now.confirmed (filter (λ (t : Transaction). not (contains bytes_eq gone.now (txid_of t))) txs.now) abandoned.now) o) }
    ensures locked { (o : OutPoint) → IfOk result (λ s. contains same_outpoint s.locked o ≡ list_any (λ x. same_outpoint x o) points.now) }
{
    let left = left_of(alloc, txs, gone)?;
    let spoken = spoken_by(alloc, book, &left, abandoned, points)?;
    Ok(spoken)
}

/// The same as [`confirmed_without`], by a book that is lent.
pub fn known_without(
    alloc: Global,
    book: &Known<'_>,
    wallet: &Wallet,
    tip: u32,
    gone: &[Txid],
) -> Result<Vec<Candidate>, Memory>
    requires book { IsBookOf wallet.now book.now }
    requires tip { tip < 4294967295 }
    ensures exact { IfOk result (λ v. v.items ≡ confirmed_without_of wallet.now book.now tip gone.now) }
    ensures fit { IfOk result (λ v. AreCandidates v.items) }
    ensures makers { IfOk result (λ v. All (HasMaker book.now) v.items) }
{
    let out = listed(alloc, gone)?;
    let spoken = spoken_without(
        alloc,
        book,
        &wallet.pending,
        &wallet.abandoned,
        &wallet.locked,
        &out,
    )?;
    all_left(alloc, book, &out, &spoken.claimed, &spoken.locked, tip)
}

/// The confirmed coins that could be spent if the pending list had been written without the transactions of these txids,
/// in order of creation, each with what would be known of it. Outputs of these are no coins then; a transaction that
/// spends one is no longer the wallet's own. The states of the others are those of the shorter list. A txid that isn't in
/// the list, or is confirmed, changes nothing. The error is out of memory.
///
/// The tip is the height of the last block, at least that of each confirmed transaction.
pub fn confirmed_without(
    alloc: Global,
    book: &Book,
    wallet: &Wallet,
    tip: u32,
    gone: &[Txid],
) -> Result<Vec<Candidate>, Memory>
    requires book { IsBookOf wallet.now book.now }
    requires tip { tip < 4294967295 }
    ensures exact { IfOk result (λ v. v.items ≡ confirmed_without_of wallet.now book.now tip gone.now) }
    ensures fit { IfOk result (λ v. AreCandidates v.items) }
    ensures makers { IfOk result (λ v. All (HasMaker book.now) v.items) }
{
    let known = book.known();
    known_without(alloc, &known, wallet, tip, gone)
}
