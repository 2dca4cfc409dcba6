//! Transactions added to a ledger.

ghost use Rattle.std.specs.Prelude.{ℕ, ◌≡◌, ◌+◌, ◌<◌, ◌^◌, ◌++◌, ◌&&◌, ◌||◌, ◌∷◌, [], Err, IfOk, IfSome, List, None, OnOk, Option, Some, bytes_eq, is_some, length, map, not, take, unwrap_or, if◌then◌else◌};
ghost use Rattle.std.specs.Map.{keys_of, lookup};
ghost use Rattle.std.specs.Option.{option_to_list};
ghost use Rattle.fund_base.specs.declared.outpoint.OutPoint.{OutPoint};
ghost use Rattle.tx_codec.specs.Txid.{txid_of};
ghost use Rattle.coin_book.specs.Coins.{made_by, made_in};
ghost use Rattle.coin_book.specs.Faults.{points, fault_behind};
ghost use Rattle.coin_book.specs.History.{Confirmed, confirmed_at};
ghost use Rattle.coin_book.specs.Invariant.{HoldsChain, is_known, points_in, weigher};
ghost use Rattle.coin_book.specs.Places.{spends_in};
ghost use Rattle.coin_book.specs.Spends.{has_input};
ghost use Rattle.coin_book.specs.Merging.{Meets, is_new};
ghost use Rattle.coin_book.specs.Short.{StopsAt};
ghost use Rattle.coin_book.specs.Watched.{watches_txid};
ghost use Rattle.coin_book.specs.declared.fault.BookFault.TheVariants.{Memory as NoMemory};

use crate::coin::Spend;
use crate::fault::BookFault;
use crate::ledger::{Ledger, Weights, add_coins, add_spends, point_fault};
use crate::making::{first_point, held_in};
use crate::watched::Watched;
use fund_base::{Memory, OutPoint, Txid};
use indexmap::IndexMap;
use indexmap::map::Entry;
use std::alloc::Global;
use std::rc::Rc;
use tx_codec::{Tx, TxIn};

/// Whether this txid has a height. Where none has one it isn't looked for.
fn has_height(heights: &IndexMap<Txid, u32>, txid: &Txid) -> bool
    ensures { result ≡ is_some (lookup (bytes_eq txid.now) heights.now.entries) }
{
    if heights.is_empty() {
        return false;
    }
    heights.contains_key(txid)
}

/// Keeps the height of a transaction of this txid, unless the txid has one.
fn add_height(heights: &mut IndexMap<Txid, u32>, txid: Txid, height: u32) -> Result<(), Memory>
    ensures { (t : List ℕ) → OnOk result (lookup (bytes_eq t) heights.new.entries ≡ (if is_some (lookup (bytes_eq txid) heights.old.entries) then lookup (bytes_eq t) heights.old.entries else if bytes_eq txid t then Some height else lookup (bytes_eq t) heights.old.entries)) }
{
    match heights.entry(txid)? {
        Entry::Vacant(place) => {
            place.insert(height);
        }
        Entry::Occupied(_) => {}
    }
    Ok(())
}

/// Keeps the height of a transaction where its txid is watched, unless one of its txid stands in these or in the other
/// ledger.
fn add_watched_height(
    heights: &mut IndexMap<Txid, u32>,
    base: &Ledger,
    watched: &Watched,
    spend: &Spend,
) -> Result<(), Memory>
    ensures { (t : List ℕ) → OnOk result (lookup (bytes_eq t) heights.new.entries ≡ (if not (watches_txid watched.now spend.now.txid) || (is_some (lookup (bytes_eq spend.now.txid) base.now.heights.entries) || is_some (lookup (bytes_eq spend.now.txid) heights.old.entries)) then lookup (bytes_eq t) heights.old.entries else if bytes_eq spend.now.txid t then Some spend.now.height else lookup (bytes_eq t) heights.old.entries)) }
{
    if !watched.has_txid(&spend.txid) || has_height(&base.heights, &spend.txid) {
        return Ok(());
    }
    add_height(heights, spend.txid, spend.height)
}

/// What is told where memory is short before the coins of a transaction are added, whose first coin stands at this outpoint,
/// if it has one: the fault of that coin, or else that memory is short.
pub fn point_or_short(base: &Ledger, own: &Ledger, point: Option<OutPoint>) -> BookFault
    ensures { result ≡ unwrap_or (fault_behind (keys_of base.now.coins.entries ++ keys_of own.now.coins.entries) (option_to_list point)) NoMemory }
{
    match point {
        Some(point) => point_fault(&base.coins, &own.coins, point).unwrap_or(BookFault::Memory),
        None => BookFault::Memory,
    }
}

/// The same of a transaction of this txid.
fn fault_or_short(base: &Ledger, own: &Ledger, weights: &Weights, tx: &Tx, txid: Txid) -> BookFault
    requires { txid ≡ txid_of tx.now }
    ensures { (height : Option ℕ) → result ≡ unwrap_or (fault_behind (keys_of base.now.coins.entries ++ keys_of own.now.coins.entries) (take 1 (points (made_in (weigher weights.now.entries) height tx.now)))) NoMemory }
{
    point_or_short(base, own, first_point(weights, tx, txid))
}

impl Ledger {
    /// Adds the height of a transaction of this txid where that is watched, unless one stands here or in the other ledger;
    /// and those of its spends that are to be kept.
    fn add_spender(
        &mut self,
        alloc: Global,
        base: &Ledger,
        watched: &Watched,
        inputs: &[TxIn],
        spend: &Spend,
    ) -> Result<(), Memory>
        ensures coins { self.new.coins ≡ self.old.coins }
        ensures heights { (t : List ℕ) → OnOk result (lookup (bytes_eq t) self.new.heights.entries ≡ (if not (watches_txid watched.now spend.now.txid) || is_known base.now self.old spend.now.txid then lookup (bytes_eq t) self.old.heights.entries else if bytes_eq spend.now.txid t then Some spend.now.height else lookup (bytes_eq t) self.old.heights.entries)) }
        ensures spends { (o : OutPoint) → OnOk result (spends_in self.new.spends o ≡ spends_in self.old.spends o ++ (if has_input o inputs.now && is_new watched.now base.now.spends self.old.spends spend.now.txid o then spend.now ∷ [] else [])) }
    {
        add_watched_height(&mut self.heights, base, watched, spend)?;
        add_spends(
            alloc,
            &mut self.spends,
            &base.spends,
            watched,
            inputs,
            spend,
        )
    }

    /// Adds the transaction that stands after these and those of `base`, with its txid, height and place. Its coins share
    /// the one that is shared, if there is one, and otherwise a copy of it. RepeatCoin or Full comes exactly where an
    /// outpoint would be a coin twice or a coin be number 100,001, by the first coin of which this is so. When out of memory,
    /// its first coin is none of which this is so.
    pub fn add(
        &mut self,
        alloc: Global,
        base: &Ledger,
        watched: &Watched,
        weights: &Weights,
        tx: &Tx,
        shared: Option<&Rc<Tx>>,
        spend: &Spend,
    ) -> Result<(), BookFault>
        requires spend { spend.now.txid ≡ txid_of tx.now }
        requires shared { IfSome shared (λ maker. maker.now.value ≡ tx.now) }
        ensures holds { (before behind : List Confirmed) → HoldsChain watched.now (weigher weights.now.entries) [] before base.now → HoldsChain watched.now (weigher weights.now.entries) before behind self.old → spend.now.place ≡ length (before ++ behind)
            → OnOk result (HoldsChain watched.now (weigher weights.now.entries) before (behind ++ confirmed_at spend.now.height tx.now ∷ []) self.new) }
        ensures exact { (before behind : List Confirmed) → HoldsChain watched.now (weigher weights.now.entries) [] before base.now → HoldsChain watched.now (weigher weights.now.entries) before behind self.old
            → Meets result (fault_behind (points_in (weigher weights.now.entries) before ++ points_in (weigher weights.now.entries) behind) (points (made_by (weigher weights.now.entries) (confirmed_at spend.now.height tx.now)))) }
        ensures short { (before behind : List Confirmed) → HoldsChain watched.now (weigher weights.now.entries) [] before base.now → HoldsChain watched.now (weigher weights.now.entries) before behind self.old → result ≡ Err NoMemory
            → fault_behind (points_in (weigher weights.now.entries) before ++ points_in (weigher weights.now.entries) behind) (take 1 (points (made_by (weigher weights.now.entries) (confirmed_at spend.now.height tx.now)))) ≡ None }
    {
        let height = Some(spend.height);
        let held = match held_in(alloc, weights, tx, shared, spend.txid, height) {
            Ok(held) => held,
            Err(_) => return Err(fault_or_short(base, self, weights, tx, spend.txid)),
        };
        match add_coins(&mut self.coins, &base.coins, held) {
            Ok(()) => {}
            Err(fault) => return Err(fault),
        }
        self.add_spender(alloc, base, watched, &tx.inputs, spend)?;
        Ok(())
    }
}

/// A ledger of transactions of these txids at one height, which stand after those of `base`, the first at this place.
/// RepeatCoin or Full comes exactly where an outpoint would be a coin twice or a coin be number 100,001, by the first
/// coin of which this is so. When out of memory, no coin is one of which this is so up to the first coin of a transaction.
pub fn ledger_behind(
    alloc: Global,
    base: &Ledger,
    watched: &Watched,
    weights: &Weights,
    txs: &[Tx],
    txids: &[Txid],
    height: u32,
    first: u64,
) -> Result<Ledger, BookFault>
    requires room { first + length txs.now < 2 ^ 64 }
    requires txids { txids.now ≡ map txid_of txs.now }
    ensures holds { (before : List Confirmed) → HoldsChain watched.now (weigher weights.now.entries) [] before base.now → first ≡ length before
        → IfOk result (λ l. HoldsChain watched.now (weigher weights.now.entries) before (map (confirmed_at height) txs.now) l) }
    ensures exact { (before : List Confirmed) → HoldsChain watched.now (weigher weights.now.entries) [] before base.now → first ≡ length before
        → Meets result (fault_behind (points_in (weigher weights.now.entries) before) (points_in (weigher weights.now.entries) (map (confirmed_at height) txs.now))) }
    ensures short { (before : List Confirmed) → HoldsChain watched.now (weigher weights.now.entries) [] before base.now → first ≡ length before → result ≡ Err NoMemory
        → StopsAt (weigher weights.now.entries) before (map (confirmed_at height) txs.now) }
{
    let mut ledger = Ledger::new(alloc);
    for index in 0..txs.len() {
        let spend = Spend {
            txid: txids[index],
            height,
            place: first + index as u64,
        };
        match ledger.add(alloc, base, watched, weights, &txs[index], None, &spend) {
            Ok(()) => {}
            Err(fault) => return Err(fault),
        }
    }
    Ok(ledger)
}
