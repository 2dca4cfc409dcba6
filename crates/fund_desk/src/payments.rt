//! Committed payments, and the coins that they spend.

ghost use Rattle.std.specs.Prelude.{◌≡◌, ◌||◌, IfOk, OnOk, not, filter};
ghost use Rattle.std.specs.List.{list_any};
ghost use Rattle.indexmap.specs.IndexSet.{contains};
ghost use Rattle.fund_base.specs.Outpoints.{same_outpoint};
ghost use Rattle.coin_candidates.specs.declared.candidate.Candidate.{Candidate};
ghost use Rattle.fund_base.specs.declared.outpoint.OutPoint.{OutPoint};
ghost use Rattle.desk_machine.specs.Machine.{has_txid, without_payment};
ghost use Rattle.desk_machine.specs.State.{has_point, is_reserved, points};

use coin_candidates::Candidate;
use fund_base::{Memory, OutPoint, Txid};
use indexmap::IndexSet;
use std::alloc::Global;
use std::marker::Model;

/// A payment that was committed and isn't released.
#[derive(Drop)]
pub struct Committed {
    txid: Txid,
    coins: Vec<OutPoint>,
}

impl Model for Committed {
    ghost use Rattle.desk_machine.specs.State.{Payment};

    ghost Value = { Payment };

    ghost view = { λ p. record { txid = p.txid; coins = p.coins.items } };
}

impl Committed {
    /// The payment of this txid from these coins. The error is out of memory.
    pub fn new(alloc: Global, txid: Txid, coins: &[Candidate]) -> Result<Committed, Memory>
        ensures { IfOk result (λ p. p ≡ record { txid = txid; coins = points coins.now }) }
    {
        let coins = points_of(alloc, coins)?;
        Ok(Committed { txid, coins })
    }

    /// Whether it has this txid.
    pub fn has_txid(&self, txid: &Txid) -> bool
        ensures { result ≡ has_txid txid.now self.now }
    {
        txid == &self.txid
    }
}

/// The outpoints of coins, in order. The error is out of memory.
fn points_of(alloc: Global, coins: &[Candidate]) -> Result<Vec<OutPoint>, Memory>
    ensures { IfOk result (λ v. v.items ≡ points coins.now) }
{
    let mut points = Vec::new(alloc);
    for coin in coins {
        points.push(coin.coin)?;
    }
    Ok(points)
}

/// Whether the payment has this txid.
fn has_txid(payment: &Committed, txid: &Txid) -> bool
    ensures { result ≡ has_txid txid.now payment.now }
{
    payment.has_txid(txid)
}

/// Whether a payment of this txid is committed.
pub fn is_committed(committed: &[Committed], txid: &Txid) -> bool
    ensures { result ≡ list_any (has_txid txid.now) committed.now }
{
    committed.iter().any(|payment| has_txid(payment, txid))
}

/// Releases all payments of this txid.
pub fn release(committed: &mut Vec<Committed>, txid: &Txid)
    ensures { committed.new.items ≡ without_payment txid.now committed.old.items }
{
    committed.retain(|payment| !has_txid(payment, txid));
}

/// Adds outpoints to a set. The error is out of memory.
fn add_points(set: &mut IndexSet<OutPoint>, points: &[OutPoint]) -> Result<(), Memory>
    ensures { (o : OutPoint) → OnOk result (contains same_outpoint set.new o ≡ (contains same_outpoint set.old o || has_point points.now o)) }
{
    for point in points {
        set.insert(*point)?;
    }
    Ok(())
}

/// These outpoints as a set. The error is out of memory.
pub fn set_of(alloc: Global, points: &[OutPoint]) -> Result<IndexSet<OutPoint>, Memory>
    ensures { (o : OutPoint) → IfOk result (λ s. contains same_outpoint s o ≡ has_point points.now o) }
{
    let mut set = IndexSet::new(alloc);
    add_points(&mut set, points)?;
    Ok(set)
}

/// The coins that committed payments spend. The error is out of memory.
pub fn reserved_of(alloc: Global, committed: &[Committed]) -> Result<IndexSet<OutPoint>, Memory>
    ensures { (o : OutPoint) → IfOk result (λ s. contains same_outpoint s o ≡ is_reserved committed.now o) }
{
    let mut set = IndexSet::new(alloc);
    for payment in committed {
        add_points(&mut set, &payment.coins)?;
    }
    Ok(set)
}

/// Whether the coin isn't in the set.
fn is_outside(set: &IndexSet<OutPoint>, coin: &Candidate) -> bool
    ensures { result ≡ not (contains same_outpoint set.now coin.now.coin) }
{
    !set.contains(&coin.coin)
}

/// Keeps of these coins those that no committed payment spends. The error is out of memory.
pub fn keep_free(
    alloc: Global,
    committed: &[Committed],
    coins: &mut Vec<Candidate>,
) -> Result<(), Memory>
    ensures { OnOk result (coins.new.items ≡ filter (λ (c : Candidate). not (is_reserved committed.now c.coin)) coins.old.items) }
{
    let reserved = reserved_of(alloc, committed)?;
    coins.retain(|coin| is_outside(&reserved, coin));
    Ok(())
}
