//! The coins of a transaction.

ghost use Rattle.std.specs.Prelude.{◌≡◌, ◌++◌, ◌∷◌, [], ◌<◌, IfOk, IfSome, None, OnErr, OnOk, Option, is_some, length, map, take, true, ℕ};
ghost use Rattle.std.specs.Option.{option_to_list};
ghost use Rattle.tx_codec.specs.Txid.{txid_of};
ghost use Rattle.coin_book.specs.Coins.{IsFirstPlace, Made, coin_at, coin_of, coins_below, made_in};
ghost use Rattle.coin_book.specs.declared.coin.Coin.{Coin};
ghost use Rattle.coin_book.specs.Faults.{points};
ghost use Rattle.coin_book.specs.Invariant.{coin_made, held_made, weigher};

use crate::coin::Coin;
use crate::coinbase::is_coinbase;
use crate::held::Held;
use crate::ledger::Weights;
use fund_base::{Memory, OutPoint, Txid};
use std::alloc::Global;
use std::rc::Rc;
use tx_codec::{Tx, TxOut};

/// The output as a coin. None exactly where its script isn't listed: then it takes no memory.
#[tactic(auto, unfolding(crate::specs::Coins::coin_of))]
fn coin_from(
    alloc: Global,
    weights: &Weights,
    tx: &Tx,
    txid: Txid,
    height: Option<u32>,
    index: u32,
    output: &TxOut,
) -> Result<Option<Coin>, Memory>
    requires { txid ≡ txid_of tx.now }
    ensures made { IfOk result (λ found. found ≡ coin_made (coin_of (weigher weights.now.entries) height tx.now index output.now)) }
    ensures short { OnErr result (is_some (coin_of (weigher weights.now.entries) height tx.now index output.now) ≡ true) }
{
    let Some(weight) = weights.get(output.script.bytes()) else {
        return Ok(None);
    };
    let script = output.script.copy(alloc)?;
    Ok(Some(Coin {
        coin: OutPoint { txid, index },
        value: output.value.get(),
        script,
        weight: *weight,
        height,
        coinbase: is_coinbase(tx),
    }))
}

/// The coin at this place of the outputs. None exactly where its script isn't listed, or the place is above
/// 4,294,967,295: then it takes no memory.
#[tactic(auto, unfolding(crate::specs::Coins::coin_at))]
fn coin_at(
    alloc: Global,
    weights: &Weights,
    tx: &Tx,
    txid: Txid,
    height: Option<u32>,
    index: usize,
) -> Result<Option<Coin>, Memory>
    requires txid { txid ≡ txid_of tx.now }
    requires index { index < length tx.now.outputs }
    ensures made { IfOk result (λ found. found ≡ coin_made (coin_at (weigher weights.now.entries) height tx.now index)) }
    ensures short { OnErr result (is_some (coin_at (weigher weights.now.entries) height tx.now index) ≡ true) }
{
    if index > u32::MAX as usize {
        return Ok(None);
    }
    coin_from(
        alloc,
        weights,
        tx,
        txid,
        height,
        index as u32,
        &tx.outputs[index],
    )
}

/// Whether the output at this place is a coin.
#[tactic(auto, unfolding(crate::specs::Coins::coin_at, crate::specs::Coins::coin_of))]
fn is_coin(weights: &Weights, tx: &Tx, index: usize) -> bool
    requires { index < length tx.now.outputs }
    ensures { (height : Option ℕ) → result ≡ is_some (coin_at (weigher weights.now.entries) height tx.now index) }
{
    index <= u32::MAX as usize && weights.contains_key(tx.outputs[index].script.bytes())
}

/// How many coins the transaction has.
pub fn count_in(weights: &Weights, tx: &Tx) -> usize
    ensures { result ≡ length (made_in (weigher weights.now.entries) None tx.now) }
{
    let mut count = 0;
    for index in 0..tx.outputs.len() {
        if is_coin(weights, tx, index) {
            count += 1;
        }
    }
    count
}

/// The place of the first output of the transaction that is a coin. None exactly where it has no coin.
fn first_place(weights: &Weights, tx: &Tx) -> Option<usize>
    ensures { (height : Option ℕ) → IsFirstPlace (coin_at (weigher weights.now.entries) height tx.now) (length tx.now.outputs) result }
{
    for index in 0..tx.outputs.len() {
        if is_coin(weights, tx, index) {
            return Some(index);
        }
    }
    None
}

/// The outpoint of the first coin of the transaction of this txid. None exactly where it has no coin.
pub fn first_point(weights: &Weights, tx: &Tx, txid: Txid) -> Option<OutPoint>
    requires { txid ≡ txid_of tx.now }
    ensures { (height : Option ℕ) → option_to_list result ≡ take 1 (points (made_in (weigher weights.now.entries) height tx.now)) }
{
    let place = first_place(weights, tx)?;
    Some(OutPoint {
        txid,
        index: place as u32,
    })
}

/// The coins of the transaction, in order. It takes memory only where there is one.
fn coins_in(
    alloc: Global,
    weights: &Weights,
    tx: &Tx,
    txid: Txid,
    height: Option<u32>,
) -> Result<Vec<Coin>, Memory>
    requires { txid ≡ txid_of tx.now }
    ensures made { IfOk result (λ v. v.items ≡ map (λ (m : Made). m.coin) (coins_below (coin_at (weigher weights.now.entries) height tx.now) (length tx.now.outputs))) }
    ensures short { OnErr result (0 < length (coins_below (coin_at (weigher weights.now.entries) height tx.now) (length tx.now.outputs))) }
{
    let mut coins = Vec::new(alloc);
    for index in 0..tx.outputs.len() {
        match coin_at(alloc, weights, tx, txid, height, index)? {
            Some(coin) => coins.push(coin)?,
            None => {}
        }
    }
    Ok(coins)
}

/// The coins, each with its transaction.
fn held_by(alloc: Global, coins: Vec<Coin>, maker: Rc<Tx>) -> Result<Vec<Held>, Memory>
    ensures { IfOk result (λ v. map held_made v.items ≡ map (λ (c : Coin). record { coin = c; maker = maker.value }) coins.items) }
{
    let mut held = Vec::new(alloc);
    for coin in coins {
        held.push(Held {
            coin,
            maker: maker.clone()?,
        })?;
    }
    Ok(held)
}

/// The coins of a transaction of this txid that is lent alone, in order, each with a copy of it that they share. It takes
/// memory only where there is one.
#[tactic(auto, unfolding(crate::specs::Coins::made_in))]
fn lent_in(
    alloc: Global,
    weights: &Weights,
    tx: &Tx,
    txid: Txid,
    height: Option<u32>,
) -> Result<Vec<Held>, Memory>
    requires { txid ≡ txid_of tx.now }
    ensures made { IfOk result (λ v. map held_made v.items ≡ made_in (weigher weights.now.entries) height tx.now) }
    ensures short { OnErr result (0 < length (made_in (weigher weights.now.entries) height tx.now)) }
{
    let coins = coins_in(alloc, weights, tx, txid, height)?;
    if coins.is_empty() {
        return Ok(Vec::new(alloc));
    }
    let maker = Rc::new(alloc, tx.copy(alloc)?)?;
    let held = held_by(alloc, coins, maker)?;
    Ok(held)
}

/// Puts a coin with its transaction after others.
fn add_held(held: &mut Vec<Held>, coin: Coin, maker: &Rc<Tx>) -> Result<(), Memory>
    ensures { OnOk result (map held_made held.new.items ≡ map held_made held.old.items ++ record { coin = coin; maker = maker.now.value } ∷ []) }
{
    let maker = maker.clone()?;
    held.push(Held { coin, maker })?;
    Ok(())
}

/// The coins of a transaction of this txid, in order, each with the transaction, which they share. It takes memory only
/// where there is one.
#[tactic(auto, unfolding(crate::specs::Coins::made_in))]
fn shared_in(
    alloc: Global,
    weights: &Weights,
    maker: &Rc<Tx>,
    txid: Txid,
    height: Option<u32>,
) -> Result<Vec<Held>, Memory>
    requires { txid ≡ txid_of maker.now.value }
    ensures made { IfOk result (λ v. map held_made v.items ≡ made_in (weigher weights.now.entries) height maker.now.value) }
    ensures short { OnErr result (0 < length (made_in (weigher weights.now.entries) height maker.now.value)) }
{
    let tx = maker.as_ref();
    let mut held = Vec::new(alloc);
    for index in 0..tx.outputs.len() {
        match coin_at(alloc, weights, tx, txid, height, index)? {
            Some(coin) => add_held(&mut held, coin, maker)?,
            None => {}
        }
    }
    Ok(held)
}

/// The coins of the transaction of this txid, in order, each with the transaction that they share: the one that is shared,
/// or else a copy of it. It takes memory only where there is one.
pub fn held_in(
    alloc: Global,
    weights: &Weights,
    tx: &Tx,
    shared: Option<&Rc<Tx>>,
    txid: Txid,
    height: Option<u32>,
) -> Result<Vec<Held>, Memory>
    requires txid { txid ≡ txid_of tx.now }
    requires shared { IfSome shared (λ maker. maker.now.value ≡ tx.now) }
    ensures made { IfOk result (λ v. map held_made v.items ≡ made_in (weigher weights.now.entries) height tx.now) }
    ensures short { OnErr result (0 < length (made_in (weigher weights.now.entries) height tx.now)) }
{
    match shared {
        Some(maker) => shared_in(alloc, weights, maker, txid, height),
        None => lent_in(alloc, weights, tx, txid, height),
    }
}
