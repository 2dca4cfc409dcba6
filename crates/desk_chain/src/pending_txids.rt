//! The txids of the transactions that wait. By these it is told whether one more may wait, without a look at each that
//! does.

ghost use Rattle.std.specs.Prelude.{ℕ, ◌≡◌, ◌<◌, ◌≤◌, ◌||◌, ◌++◌, ◌∷◌, [], List, IfOk, IsOk, OnOk, bytes_eq, length};
ghost use Rattle.std.specs.List.{list_any};
ghost use Rattle.indexmap.specs.IndexSet.{contains, spare};
ghost use Rattle.tx_codec.specs.Transaction.{Transaction};
ghost use Rattle.tx_codec.specs.Txid.{txid_of};
ghost use Rattle.desk_machine.specs.Machine.{is_repeat, spends_txid};
ghost use Rattle.desk_chain.specs.PendingTxids.{AreTxidsOf, HasRoomFor, has_parent};

use fund_base::{Memory, Txid};
use indexmap::IndexSet;
use std::alloc::Global;
use tx_codec::{Tx, TxIn, txid};

/// The txids of the transactions that wait, and those of the transactions whose outputs they spend.
#[derive(Drop)]
pub struct PendingTxids {
    txids: IndexSet<Txid>,
    parents: IndexSet<Txid>,
}

/// Makes room for the txids of as many transactions as there are inputs. The error is out of memory.
fn make_room(set: &mut IndexSet<Txid>, inputs: &[TxIn]) -> Result<(), Memory>
    ensures same { set.new.keys ≡ set.old.keys }
    ensures room { OnOk result (length inputs.now ≤ spare set.new) }
{
    set.reserve(inputs.len())?;
    Ok(())
}

/// Adds the txids of the transactions whose outputs these inputs spend. The error is out of memory, which never comes where
/// there is room for as many.
fn add_parents(set: &mut IndexSet<Txid>, inputs: &[TxIn]) -> Result<(), Memory>
    ensures added { (txid : List ℕ) → OnOk result (contains bytes_eq set.new txid ≡ (contains bytes_eq set.old txid || has_parent txid inputs.now)) }
    ensures succeeds { length inputs.now ≤ spare set.old → IsOk result }
{
    for input in inputs {
        set.insert(input.prev.txid)?;
    }
    Ok(())
}

impl PendingTxids {
    /// Those of these transactions. The error is out of memory.
    pub fn of(alloc: Global, pending: &[Tx]) -> Result<PendingTxids, Memory>
        ensures { IfOk result (AreTxidsOf pending.now) }
    {
        let txids = IndexSet::new(alloc);
        let parents = IndexSet::new(alloc);
        let mut all = PendingTxids { txids, parents };
        for tx in pending {
            all.add(tx, txid(tx))?;
        }
        Ok(all)
    }

    /// Whether a transaction of this txid waits.
    pub(crate) fn has(&self, id: &Txid) -> bool
        ensures { (pending : List Transaction) → AreTxidsOf pending self.now → result ≡ is_repeat pending id.now }
    {
        self.txids.contains(id)
    }

    /// Whether one that waits spends an output of the transaction of this txid.
    pub(crate) fn is_parent(&self, id: &Txid) -> bool
        ensures { (pending : List Transaction) → AreTxidsOf pending self.now → result ≡ list_any (spends_txid id.now) pending }
    {
        self.parents.contains(id)
    }

    /// Makes room for a transaction more. The error is out of memory.
    pub(crate) fn reserve(&mut self, tx: &Tx) -> Result<(), Memory>
        ensures txids { self.new.txids.keys ≡ self.old.txids.keys }
        ensures parents { self.new.parents.keys ≡ self.old.parents.keys }
        ensures room { OnOk result (HasRoomFor tx.now self.new) }
    {
        self.txids.reserve(1)?;
        make_room(&mut self.parents, &tx.inputs)
    }

    /// Adds a transaction of this txid. The error is out of memory, which never comes where there is room for it.
    pub(crate) fn add(&mut self, tx: &Tx, id: Txid) -> Result<(), Memory>
        requires { id ≡ txid_of tx.now }
        ensures added { (pending : List Transaction) → OnOk result (AreTxidsOf pending self.old → AreTxidsOf (pending ++ tx.now ∷ []) self.new) }
        ensures succeeds { HasRoomFor tx.now self.old → IsOk result }
    {
        self.txids.insert(id)?;
        add_parents(&mut self.parents, &tx.inputs)
    }
}
