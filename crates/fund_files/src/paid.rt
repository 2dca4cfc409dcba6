//! The outputs that pay a script of a wallet, as they are found before its book is made.

use fund_base::{Memory, OutPoint, Txid};
use indexmap::IndexSet;
use std::alloc::Global;
use tx_codec::{Tx, TxView, txid};
use wallet_text::{Wallet, Watch};

/// The scripts of a wallet, and the outpoints of the outputs found that pay one. Nothing is promised of what is found: a book
/// that is made by it is asked whether each of its coins is watched.
#[derive(Drop)]
pub struct Paid {
    scripts: IndexSet<Vec<u8>>,
    points: IndexSet<OutPoint>,
}

/// The scripts, as a set. The error is out of memory.
fn scripts_of(alloc: Global, listed: &[Watch]) -> Result<IndexSet<Vec<u8>>, Memory> {
    let mut scripts = IndexSet::new(alloc);
    for watch in listed {
        scripts.insert(watch.script.bytes().to_vec(alloc)?)?;
    }
    Ok(scripts)
}

/// Whether an output of the transaction pays one of the scripts.
fn pays(scripts: &IndexSet<Vec<u8>>, tx: &Tx) -> bool {
    tx.outputs
        .iter()
        .any(|output| scripts.contains(output.script.bytes()))
}

/// Adds the outpoints of the outputs that pay one of the scripts, of a transaction of this txid. The error is out of memory.
fn add_outputs(
    points: &mut IndexSet<OutPoint>,
    scripts: &IndexSet<Vec<u8>>,
    tx: &Tx,
    txid: Txid,
) -> Result<(), Memory> {
    for index in 0..tx.outputs.len() {
        if scripts.contains(tx.outputs[index].script.bytes()) {
            let Ok(index) = u32::try_from(index) else {
                return Ok(());
            };
            points.insert(OutPoint { txid, index })?;
        }
    }
    Ok(())
}

/// Whether an output of the transaction that is lent pays one of the scripts.
fn lent_pays(scripts: &IndexSet<Vec<u8>>, tx: &TxView) -> bool {
    for script in tx.scripts() {
        if scripts.contains(script) {
            return true;
        }
    }
    false
}

/// Adds the outpoints of the outputs that pay one of the scripts, of a transaction of this txid that is lent. The error is out
/// of memory.
fn add_lent_outputs(
    points: &mut IndexSet<OutPoint>,
    scripts: &IndexSet<Vec<u8>>,
    tx: &TxView,
    txid: Txid,
) -> Result<(), Memory> {
    let mut paid = tx.scripts();
    for index in 0..u32::MAX {
        let Some(script) = paid.next() else {
            return Ok(());
        };
        if scripts.contains(script) {
            points.insert(OutPoint { txid, index })?;
        }
    }
    Ok(())
}

impl Paid {
    /// What the wallet's earlier and pending transactions pay. The error is out of memory.
    pub fn of(alloc: Global, wallet: &Wallet) -> Result<Paid, Memory> {
        let scripts = scripts_of(alloc, &wallet.scripts)?;
        let points = IndexSet::new(alloc);
        let mut paid = Paid { scripts, points };
        for entry in &wallet.earlier {
            add_outputs(&mut paid.points, &paid.scripts, &entry.tx, entry.txid())?;
        }
        paid.add_all(&wallet.pending)?;
        Ok(paid)
    }

    /// Adds what these transactions pay. The error is out of memory.
    fn add_all(&mut self, txs: &[Tx]) -> Result<(), Memory> {
        for tx in txs {
            self.add(tx)?;
        }
        Ok(())
    }

    /// Adds what the transaction pays. Its txid is computed only where it pays a script. The error is out of memory.
    fn add(&mut self, tx: &Tx) -> Result<(), Memory> {
        if pays(&self.scripts, tx) {
            add_outputs(&mut self.points, &self.scripts, tx, txid(tx))?;
        }
        Ok(())
    }

    /// The same of a transaction that is lent, of which no list is made.
    pub fn add_lent(&mut self, tx: &TxView) -> Result<(), Memory> {
        if lent_pays(&self.scripts, tx) {
            add_lent_outputs(&mut self.points, &self.scripts, tx, tx.txid())?;
        }
        Ok(())
    }

    /// The outpoints.
    pub fn into_points(self) -> IndexSet<OutPoint> {
        let Paid { scripts: _, points } = self;
        points
    }
}
