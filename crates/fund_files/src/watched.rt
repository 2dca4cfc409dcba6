//! What the book of a wallet watches.

ghost use Rattle.std.specs.Prelude.{◌≡◌, ◌||◌, All, IfOk, OnOk};
ghost use Rattle.fund_base.specs.Outpoints.{same_outpoint};
ghost use Rattle.fund_base.specs.declared.outpoint.OutPoint.{OutPoint};
ghost use Rattle.indexmap.specs.IndexSet.{contains};
ghost use Rattle.coin_book.specs.Spends.{has_input};
ghost use Rattle.coin_book.specs.Watched.{IsWatched};

use coin_book::Watched;
use fund_base::{Memory, OutPoint, Txid};
use indexmap::IndexSet;
use std::alloc::Global;
use tx_codec::{Tx, TxIn, txid};

/// Adds the outpoints that these inputs spend. The error is out of memory.
fn add_inputs(points: &mut IndexSet<OutPoint>, inputs: &[TxIn]) -> Result<(), Memory>
    ensures { (o : OutPoint) → OnOk result (contains same_outpoint points.new o ≡ (contains same_outpoint points.old o || has_input o inputs.now)) }
{
    for input in inputs {
        points.insert(input.prev)?;
    }
    Ok(())
}

/// What is watched for transactions that wait: these outpoints, those that they spend, and their txids. The error is out of
/// memory.
pub fn watched_for(
    alloc: Global,
    points: IndexSet<OutPoint>,
    pending: &[Tx],
) -> Result<Watched, Memory>
    ensures { IfOk result (λ w. All (IsWatched w) pending.now) }
{
    let mut points = points;
    let mut txids = IndexSet::new(alloc);
    for tx in pending {
        add_inputs(&mut points, &tx.inputs)?;
        txids.insert(txid(tx))?;
    }
    Ok(Watched::these(points, txids))
}
