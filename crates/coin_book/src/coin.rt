//! Coins, and the confirmed transactions that spend outputs.

use fund_base::{OutPoint, Script, Txid};

/// An output that pays a listed script.
#[derive(Drop)]
pub struct Coin {
    /// The output that it is.
    pub coin: OutPoint,
    /// In satoshi.
    pub value: u64,
    /// The script that it pays.
    pub script: Script,
    /// The declared weight of an input that spends it, in weight units.
    pub weight: u64,
    /// The height of its transaction. None where it waits for a block.
    pub height: Option<u32>,
    /// Whether its transaction is a coinbase.
    pub coinbase: bool,
}

/// A confirmed transaction that spends some outpoint.
#[derive(Clone, Copy, PartialEq, Eq)]
pub struct Spend {
    /// Its txid.
    pub txid: Txid,
    /// The height at which it stands.
    pub height: u32,
    /// Its number in chain order, from 0: the wallet's earlier transactions, then those of the blocks.
    pub place: u64,
}
