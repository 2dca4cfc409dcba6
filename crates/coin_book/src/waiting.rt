//! The coins of transactions that wait for a block.

ghost use Rattle.std.specs.Prelude.{◌≡◌, ◌+◌, ◌<◌, ◌++◌, ◌∷◌, [], Err, IfErr, IfOk, None, OnErr, OnOk, false, true, bytes_eq, length, map, nat_le};
ghost use Rattle.std.specs.Map.{keys_of};
ghost use Rattle.std.specs.declared.snapshot.Snapshot.{Snapshot};
ghost use Rattle.indexmap.specs.IndexMap.{insert_all};
ghost use Rattle.indexmap.specs.IndexSet.{insert_key};
ghost use Rattle.fund_base.specs.Outpoints.{same_outpoint};
ghost use Rattle.tx_codec.specs.Transaction.{Transaction};
ghost use Rattle.tx_codec.specs.Txid.{txid_of};
ghost use Rattle.coin_book.specs.Faults.{fault_behind, points};
ghost use Rattle.coin_book.specs.Invariant.{HoldsCoins, made_waiting, weigher};
ghost use Rattle.coin_book.specs.Merging.{Meets};
ghost use Rattle.coin_book.specs.declared.fault.BookFault.TheVariants.{Full as TooMany, Memory as NoMemory};

use crate::fault::BookFault;
use crate::held::Held;
use crate::ledger::{MOST_COINS, Weights, add_coins};
use crate::making::{count_in, held_in};
use fund_base::{Memory, OutPoint, Txid};
use indexmap::{IndexMap, IndexSet};
use std::alloc::Global;
use std::snapshot::Snapshot;
use tx_codec::Tx;

/// Whether so many coins are within the most.
pub fn fits(confirmed: usize, waiting: usize, more: usize) -> bool
    ensures { result ≡ nat_le (confirmed + waiting + more) 100_000 }
{
    confirmed <= MOST_COINS
        && waiting <= MOST_COINS - confirmed
        && more <= MOST_COINS - confirmed - waiting
}

/// That so many coins are within the most. It takes no memory.
pub fn check_fits(confirmed: usize, waiting: usize, more: usize) -> Result<(), BookFault>
    ensures fits { OnOk result (nat_le (confirmed + waiting + more) 100_000 ≡ true) }
    ensures full { IfErr result (λ e. (e ≡ TooMany) × (nat_le (confirmed + waiting + more) 100_000 ≡ false)) }
{
    if !fits(confirmed, waiting, more) {
        return Err(BookFault::Full);
    }
    Ok(())
}

/// How many coins a transaction of this txid has that is to wait. There are none where it is confirmed.
pub fn count_beside(weights: &Weights, heights: &IndexMap<Txid, u32>, tx: &Tx, txid: &Txid) -> usize
    requires { txid.now ≡ txid_of tx.now }
    ensures { result ≡ length (made_waiting (weigher weights.now.entries) heights.now.entries tx.now) }
{
    if heights.contains_key(txid) {
        return 0;
    }
    count_in(weights, tx)
}

/// The coins of a transaction of this txid, which is to wait beside others. There are none where it is confirmed. It takes
/// memory only where there is one.
pub fn coins_beside(
    alloc: Global,
    weights: &Weights,
    heights: &IndexMap<Txid, u32>,
    pending: &IndexMap<OutPoint, Held>,
    tx: &Tx,
    txid: Txid,
) -> Result<IndexMap<OutPoint, Held>, BookFault>
    requires { txid ≡ txid_of tx.now }
    ensures made { IfOk result (λ m. HoldsCoins (made_waiting (weigher weights.now.entries) heights.now.entries tx.now) m.entries) }
    ensures short { result ≡ Err NoMemory → 0 < length (made_waiting (weigher weights.now.entries) heights.now.entries tx.now) }
    ensures exact { Meets result (fault_behind (keys_of pending.now.entries) (points (made_waiting (weigher weights.now.entries) heights.now.entries tx.now))) }
{
    let mut coins = IndexMap::new(alloc);
    if heights.contains_key(&txid) {
        return Ok(coins);
    }
    let held = held_in(alloc, weights, tx, None, txid, None)?;
    match add_coins(&mut coins, pending, held) {
        Ok(()) => Ok(coins),
        Err(fault) => Err(fault),
    }
}

/// Puts a transaction of this txid and its coins after those that wait. When out of memory, these stay as they were.
pub fn keep_waiting(
    waiting: &mut Vec<Snapshot<Tx>>,
    txids: &mut IndexSet<Txid>,
    pending: &mut IndexMap<OutPoint, Held>,
    coins: &mut IndexMap<OutPoint, Held>,
    tx: &Tx,
    txid: Txid,
) -> Result<(), Memory>
    ensures waiting { OnOk result (map (λ (s : Snapshot Transaction). s.value) waiting.new.items ≡ map (λ (s : Snapshot Transaction). s.value) waiting.old.items ++ tx.now ∷ []) }
    ensures txids { OnOk result (txids.new.keys ≡ insert_key bytes_eq txids.old.keys txid) }
    ensures pending { OnOk result (pending.new.entries ≡ insert_all same_outpoint pending.old.entries coins.old.entries) }
    ensures kept_waiting { OnErr result (waiting.new.items ≡ waiting.old.items) }
    ensures kept_txids { OnErr result (txids.new.keys ≡ txids.old.keys) }
    ensures kept_pending { OnErr result (pending.new.entries ≡ pending.old.entries) }
{
    waiting.reserve(1)?;
    txids.reserve(1)?;
    pending.append(coins)?;
    // there is room for these two
    let _ = waiting.push(Snapshot::of(tx));
    let _ = txids.insert(txid);
    Ok(())
}
