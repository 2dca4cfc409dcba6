//! Transactions that a block lends: one is made into lists only where something of it is kept.

ghost use Rattle.std.specs.Prelude.{ℕ, ◌≡◌, ◌+◌, ◌<◌, ◌^◌, ◌++◌, ◌||◌, ◌∷◌, [], Err, IfOk, List, OnOk, Option, is_some, length, map, take, unwrap_or};
ghost use Rattle.std.specs.List.{list_any};
ghost use Rattle.std.specs.Option.{option_to_list};
ghost use Rattle.tx_codec.specs.Txid.{txid_of};
ghost use Rattle.tx_codec.specs.Views.{points_of};
ghost use Rattle.coin_book.specs.Coins.{IsFirstPlace, coin_at, made_by, made_in};
ghost use Rattle.coin_book.specs.Faults.{points, fault_behind};
ghost use Rattle.coin_book.specs.History.{Confirmed, confirmed_at, confirmed_in};
ghost use Rattle.coin_book.specs.Invariant.{HoldsChain, points_in, weigher};
ghost use Rattle.coin_book.specs.Merging.{Meets};
ghost use Rattle.coin_book.specs.Short.{StopsAt};
ghost use Rattle.coin_book.specs.Watched.{watches, watches_txid};
ghost use Rattle.coin_book.specs.declared.fault.BookFault.TheVariants.{Memory as NoMemory};

use crate::adding::point_or_short;
use crate::coin::Spend;
use crate::fault::BookFault;
use crate::ledger::{Ledger, Weights};
use crate::watched::Watched;
use block_feed::RawBlock;
use fund_base::{OutPoint, Txid};
use std::alloc::Global;
use tx_codec::TxView;

/// How many outputs of a transaction can be coins: an outpoint's index has 32 bits.
const PLACES: u64 = 1 << 32;

/// Whether the script is listed.
fn is_listed(weights: &Weights, script: &[u8]) -> bool
    ensures { result ≡ is_some (weigher weights.now.entries script.now) }
{
    weights.contains_key(script)
}

/// The index of the first output of the transaction that is a coin. None exactly where it has no coin.
fn first_index(weights: &Weights, tx: &TxView) -> Option<u32>
    ensures { (height : Option ℕ) → IsFirstPlace (coin_at (weigher weights.now.entries) height tx.now) (length tx.now.outputs) result }
{
    let mut scripts = tx.scripts();
    for index in 0..PLACES {
        let script = scripts.next()?;
        if is_listed(weights, script) {
            return Some(index as u32);
        }
    }
    None
}

/// The outpoint of the first coin of the transaction of this txid. None exactly where it has no coin.
fn first_point(weights: &Weights, tx: &TxView, txid: Txid) -> Option<OutPoint>
    requires { txid ≡ txid_of tx.now }
    ensures { (height : Option ℕ) → option_to_list result ≡ take 1 (points (made_in (weigher weights.now.entries) height tx.now)) }
{
    let index = first_index(weights, tx)?;
    Some(OutPoint { txid, index })
}

/// Whether the transaction spends an outpoint that is watched.
fn spends_watched(watched: &Watched, tx: &TxView) -> bool
    ensures { result ≡ list_any (watches watched.now) (points_of tx.now) }
{
    for point in tx.outpoints() {
        if watched.has(&point) {
            return true;
        }
    }
    false
}

/// Whether the transaction's txid is watched, or an outpoint that it spends.
fn is_watched(watched: &Watched, tx: &TxView, txid: &Txid) -> bool
    ensures { result ≡ (watches_txid watched.now txid.now || list_any (watches watched.now) (points_of tx.now)) }
{
    watched.has_txid(txid) || spends_watched(watched, tx)
}

impl Ledger {
    /// Adds a transaction that is lent, as [`Ledger::add`] adds one of lists. No list of it is made where it has no coin and
    /// neither its txid is watched nor an outpoint that it spends.
    fn add_lent(
        &mut self,
        alloc: Global,
        base: &Ledger,
        watched: &Watched,
        weights: &Weights,
        tx: &TxView,
        spend: &Spend,
    ) -> Result<(), BookFault>
        requires spend { spend.now.txid ≡ txid_of tx.now }
        ensures holds { (before behind : List Confirmed) → HoldsChain watched.now (weigher weights.now.entries) [] before base.now → HoldsChain watched.now (weigher weights.now.entries) before behind self.old → spend.now.place ≡ length (before ++ behind)
            → OnOk result (HoldsChain watched.now (weigher weights.now.entries) before (behind ++ confirmed_at spend.now.height tx.now ∷ []) self.new) }
        ensures exact { (before behind : List Confirmed) → HoldsChain watched.now (weigher weights.now.entries) [] before base.now → HoldsChain watched.now (weigher weights.now.entries) before behind self.old
            → Meets result (fault_behind (points_in (weigher weights.now.entries) before ++ points_in (weigher weights.now.entries) behind) (points (made_by (weigher weights.now.entries) (confirmed_at spend.now.height tx.now)))) }
        ensures short { (before behind : List Confirmed) → HoldsChain watched.now (weigher weights.now.entries) [] before base.now → HoldsChain watched.now (weigher weights.now.entries) before behind self.old → result ≡ Err NoMemory
            → fault_behind (points_in (weigher weights.now.entries) before ++ points_in (weigher weights.now.entries) behind) (take 1 (points (made_by (weigher weights.now.entries) (confirmed_at spend.now.height tx.now)))) ≡ None }
    {
        let point = first_point(weights, tx, spend.txid);
        if point.is_none() && !is_watched(watched, tx, &spend.txid) {
            return Ok(());
        }
        match tx.to_tx(alloc) {
            Ok(tx) => self.add(alloc, base, watched, weights, &tx, None, spend),
            Err(_) => Err(point_or_short(base, self, point)),
        }
    }
}

/// A ledger of the transactions of a block, which stand after those of `base`, the first at this place. The faults are those
/// of [`ledger_behind`](crate::adding::ledger_behind), and so is what is said of being out of memory.
pub fn lent_behind(
    alloc: Global,
    base: &Ledger,
    watched: &Watched,
    weights: &Weights,
    block: &RawBlock,
    first: u64,
) -> Result<Ledger, BookFault>
    requires { first + length block.now.txs < 2 ^ 64 }
    ensures holds { (before : List Confirmed) → HoldsChain watched.now (weigher weights.now.entries) [] before base.now → first ≡ length before
        → IfOk result (λ l. HoldsChain watched.now (weigher weights.now.entries) before (confirmed_in block.now) l) }
    ensures exact { (before : List Confirmed) → HoldsChain watched.now (weigher weights.now.entries) [] before base.now → first ≡ length before
        → Meets result (fault_behind (points_in (weigher weights.now.entries) before) (points_in (weigher weights.now.entries) (confirmed_in block.now))) }
    ensures short { (before : List Confirmed) → HoldsChain watched.now (weigher weights.now.entries) [] before base.now → first ≡ length before → result ≡ Err NoMemory
        → StopsAt (weigher weights.now.entries) before (confirmed_in block.now) }
{
    let mut ledger = Ledger::new(alloc);
    let mut txs = block.txs();
    let txids = block.txids();
    let height = block.height;
    for index in 0..txids.len() {
        let Some(tx) = txs.next() else { unreachable!() };
        let spend = Spend {
            txid: txids[index],
            height,
            place: first + index as u64,
        };
        match ledger.add_lent(alloc, base, watched, weights, &tx, &spend) {
            Ok(()) => {}
            Err(fault) => return Err(fault),
        }
    }
    Ok(ledger)
}
