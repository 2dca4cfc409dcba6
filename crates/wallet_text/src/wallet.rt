//! What the wallet file tells.

ghost use Rattle.std.specs.Prelude.{◌≡◌, IfOk};
ghost use Rattle.tx_codec.specs.Txid.{txid_of};

use fund_base::{Memory, OutPoint, Script, Txid};
use std::alloc::Global;
use std::marker::Model;
use std::rc::Rc;
use tx_codec::{Tx, txid};

/// A script that the wallet owns.
#[derive(Drop)]
pub struct Watch {
    /// 1 to 10,000 bytes.
    pub script: Script,
    /// The weight that an input which spends it is declared to have, in weight units, 165 to 400,000.
    pub weight: u64,
}

/// A transaction that the chain holds before the block file begins. It keeps its txid, which is computed once.
#[derive(Drop)]
pub struct Earlier {
    /// The transaction, for others to share.
    pub tx: Rc<Tx>,
    /// The height of its block, at most that of the wallet.
    pub height: u32,
    txid: Txid,
}

impl Model for Earlier {
    ghost use Rattle.std.specs.Prelude.{◌≡◌};
    ghost use Rattle.tx_codec.specs.Txid.{txid_of};
    ghost use Rattle.wallet_text.specs.PlainWallet as plain;

    ghost Value = { plain.Earlier };

    ghost view = { λ e. record { tx = e.tx.value; height = e.height } };

    ghost invariant = { λ e. e.txid ≡ txid_of e.tx.value };
}

impl Earlier {
    /// A transaction, and the height at which it stands. The error is out of memory.
    pub fn new(alloc: Global, tx: Tx, height: u32) -> Result<Earlier, Memory>
        ensures { IfOk result (λ e. e ≡ record { tx = tx; height = height }) }
    {
        let txid = txid(&tx);
        let tx = Rc::new(alloc, tx)?;
        Ok(Earlier { tx, height, txid })
    }

    /// Its txid.
    pub fn txid(&self) -> Txid
        ensures { result ≡ txid_of self.now.tx }
    {
        self.txid
    }
}

/// A wallet that only watches, at a height of the chain. Every wallet keeps the rules that stand with its fields.
#[derive(Drop)]
pub struct Wallet {
    /// The chain's height before the block file, at most 100,000,000.
    pub height: u32,
    /// The hash of the block at that height, its bytes as a header holds them.
    pub hash: [u8; 32],
    /// The scripts whose outputs are coins, no script twice.
    pub scripts: Vec<Watch>,
    /// Where change is paid.
    pub change: Watch,
    /// Transactions up to that height, no txid twice.
    pub earlier: Vec<Earlier>,
    /// Transactions that wait for a block, no txid twice. A parent stands before its children.
    pub pending: Vec<Tx>,
    /// Pending transactions that the wallet has given up.
    pub abandoned: Vec<Txid>,
    /// Coins that aren't spent.
    pub locked: Vec<OutPoint>,
}

impl Model for Wallet {
    ghost use Rattle.wallet_text.specs.PlainWallet.{PlainWallet};

    ghost Value = { PlainWallet };

    ghost view = { λ w. record { height = w.height; hash = w.hash; scripts = w.scripts.items; change = w.change; earlier = w.earlier.items; pending = w.pending.items; abandoned = w.abandoned.items; locked = w.locked.items } };

    ghost use Rattle.wallet_text.specs.WalletRules.{IsWallet};

    ghost invariant = { λ w. IsWallet (record { height = w.height; hash = w.hash; scripts = w.scripts.items; change = w.change; earlier = w.earlier.items; pending = w.pending.items; abandoned = w.abandoned.items; locked = w.locked.items }) };
}
