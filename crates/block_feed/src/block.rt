//! A block of a chain.

ghost use Rattle.std.specs.Prelude.{◌≡◌, map, IfOk};
ghost use Rattle.tx_codec.specs.Txid.{txid_of};

use crate::views::{TxViews, lists_of, views_in};
use fund_base::{Memory, Txid};
use std::alloc::Global;
use std::marker::Model;
use tx_codec::Tx;

/// A block at its height in the chain. It keeps the txids that its Merkle root was tested with.
#[derive(Drop)]
pub struct Block {
    /// Its place in the chain, the first block of all being at 0.
    pub height: u32,
    /// The double SHA-256 of its header, as stored; it is shown with its bytes reversed.
    pub hash: [u8; 32],
    /// Its transactions, in order.
    pub txs: Vec<Tx>,
    pub(crate) txids: Vec<Txid>,
}

impl Model for Block {
    ghost use Rattle.std.specs.Prelude.{◌≡◌, map};
    ghost use Rattle.tx_codec.specs.Txid.{txid_of};
    ghost use Rattle.block_feed.specs.Block.{ChainBlock};

    ghost Value = { ChainBlock };

    ghost view = { λ b. record { height = b.height; hash = b.hash; txs = b.txs.items } };

    ghost invariant = { λ b. b.txids.items ≡ map txid_of b.txs.items };
}

impl Block {
    /// The txids of its transactions, in order.
    pub fn txids(&self) -> &[Txid]
        ensures { result.now ≡ map txid_of self.now.txs }
    {
        self.txids.as_slice()
    }
}

/// A block at its height in the chain, whose transactions stay in its bytes: none of them is copied. It keeps the
/// txids that its Merkle root was tested with.
#[derive(Drop)]
pub struct RawBlock {
    /// Its place in the chain, the first block of all being at 0.
    pub height: u32,
    /// The double SHA-256 of its header, as stored; it is shown with its bytes reversed.
    pub hash: [u8; 32],
    pub(crate) body: Vec<u8>,
    pub(crate) txids: Vec<Txid>,
}

impl Model for RawBlock {
    ghost use Rattle.block_feed.specs.Block.{ChainBlock};
    ghost use Rattle.block_feed.specs.Names.{IsHeld, held_block};

    ghost Value = { ChainBlock };

    ghost view = { λ b. held_block b.height b.hash b.body.items };

    ghost invariant = { λ b. IsHeld b.height b.body.items b.txids.items };
}

impl RawBlock {
    /// The txids of its transactions, in order.
    pub fn txids(&self) -> &[Txid]
        ensures { result.now ≡ map txid_of self.now.txs }
    {
        self.txids.as_slice()
    }

    /// Its transactions, one by one, in order, as its bytes lend them. None of them is copied.
    pub fn txs(&self) -> TxViews<'_>
        ensures { result ≡ self.now.txs }
    {
        views_in(self.height, &self.body)
    }

    /// The same block, with its transactions as lists.
    pub fn into_block(self, alloc: Global) -> Result<Block, Memory>
        ensures { IfOk result (λ block. block ≡ self) }
    {
        let txs = lists_of(alloc, self.txs())?;
        Ok(Block {
            height: self.height,
            hash: self.hash,
            txs,
            txids: self.txids,
        })
    }
}
