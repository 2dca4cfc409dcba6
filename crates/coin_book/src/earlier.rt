//! What a wallet tells of coins before any block: its scripts, and its earlier transactions.

ghost use Rattle.std.specs.Prelude.{◌≡◌, [], IfOk, OnOk, map};
ghost use Rattle.fund_base.specs.declared.outpoint.OutPoint.{OutPoint};
ghost use Rattle.coin_book.specs.Coins.{weight_for};
ghost use Rattle.coin_book.specs.Faults.{fault_behind};
ghost use Rattle.coin_book.specs.History.{confirmed_before};
ghost use Rattle.coin_book.specs.Invariant.{HoldsChain, points_in, weigher};
ghost use Rattle.coin_book.specs.Merging.{Meets};
ghost use Rattle.coin_book.specs.Places.{spends_in};

use crate::coin::Spend;
use crate::fault::BookFault;
use crate::ledger::{Ledger, Weights};
use crate::watched::Watched;
use fund_base::Memory;
use indexmap::IndexMap;
use std::alloc::Global;
use wallet_text::{Earlier, Watch};

/// The listed scripts with their weights.
pub fn weights_of(alloc: Global, scripts: &[Watch]) -> Result<Weights, Memory>
    ensures { IfOk result (λ m. weigher m.entries ≡ weight_for scripts.now) }
{
    let mut weights = IndexMap::new(alloc);
    add_weights(alloc, &mut weights, scripts)?;
    Ok(weights)
}

/// Adds the listed scripts with their weights to none.
fn add_weights(alloc: Global, weights: &mut Weights, scripts: &[Watch]) -> Result<(), Memory>
    requires { weights.old.entries ≡ [] }
    ensures { OnOk result (weigher weights.new.entries ≡ weight_for scripts.now) }
{
    for watch in scripts {
        if !weights.contains_key(watch.script.bytes()) {
            let script = watch.script.bytes().to_vec(alloc)?;
            weights.insert(script, watch.weight)?;
        }
    }
    Ok(())
}

/// Adds the earlier transactions to a ledger of none. RepeatCoin or Full comes exactly where an outpoint would be a coin
/// twice or a coin be number 100,001, by the first coin of which this is so.
fn add_all(
    alloc: Global,
    ledger: &mut Ledger,
    watched: &Watched,
    weights: &Weights,
    earlier: &[Earlier],
) -> Result<(), BookFault>
    requires coins { ledger.old.coins.entries ≡ [] }
    requires spends { (o : OutPoint) → spends_in ledger.old.spends o ≡ [] }
    requires heights { ledger.old.heights.entries ≡ [] }
    ensures holds { OnOk result (HoldsChain watched.now (weigher weights.now.entries) [] (map confirmed_before earlier.now) ledger.new) }
    ensures exact { Meets result (fault_behind [] (points_in (weigher weights.now.entries) (map confirmed_before earlier.now))) }
{
    let base = Ledger::new(alloc);
    for index in 0..earlier.len() {
        let entry = &earlier[index];
        let spend = Spend {
            txid: entry.txid(),
            height: entry.height,
            place: index as u64,
        };
        match ledger.add(
            alloc,
            &base,
            watched,
            weights,
            entry.tx.as_ref(),
            Some(&entry.tx),
            &spend,
        ) {
            Ok(()) => {}
            Err(fault) => return Err(fault),
        }
    }
    Ok(())
}

/// For how many of so many transactions a ledger makes room to keep what they spend and their heights.
fn count_kept(watched: &Watched, count: usize) -> usize {
    if watched.is_everything() { count } else { 0 }
}

/// A ledger of the earlier transactions. RepeatCoin or Full comes exactly where an outpoint would be a coin twice or a
/// coin be number 100,001, by the first coin of which this is so.
pub fn ledger_of(
    alloc: Global,
    watched: &Watched,
    weights: &Weights,
    earlier: &[Earlier],
) -> Result<Ledger, BookFault>
    ensures holds { IfOk result (λ l. HoldsChain watched.now (weigher weights.now.entries) [] (map confirmed_before earlier.now) l) }
    ensures exact { Meets result (fault_behind [] (points_in (weigher weights.now.entries) (map confirmed_before earlier.now))) }
{
    let others = count_kept(watched, earlier.len());
    let mut ledger = Ledger::with_room(alloc, earlier.len(), others)?;
    match add_all(alloc, &mut ledger, watched, weights, earlier) {
        Ok(()) => Ok(ledger),
        Err(fault) => Err(fault),
    }
}
