//! The coins of a wallet, beside what of the chain is watched.

ghost use Rattle.std.specs.Prelude.{◌≡◌, ◌≢◌, ◌+◌, ◌↔◌, All, Err, IfErr, IfOk, IfSome, None, OnErr, OnOk, false, length, option_map, slice_get, true};
ghost use Rattle.std.specs.List.{list_all};
ghost use Rattle.std.specs.Map.{keys_of};
ghost use Rattle.std.specs.Option.{option_copied};
ghost use Rattle.tx_codec.specs.Transaction.{Transaction};
ghost use Rattle.tx_codec.specs.TransactionText.{IsTransaction};
ghost use Rattle.tx_codec.specs.Txid.{txid_of};
ghost use Rattle.tx_codec.specs.declared.tx.TxIn.{TxIn};
ghost use Rattle.coin_book.specs.Asked.{HasUnwatchedCoin, Suffices};
ghost use Rattle.coin_book.specs.AtOutpoint.{coin_under};
ghost use Rattle.coin_book.specs.Coins.{coins_of, parent_of, weight_for};
ghost use Rattle.coin_book.specs.Faults.{Answers, fault_behind, fault_of};
ghost use Rattle.coin_book.specs.History.{confirmed_in, start_of, with_block, with_pending};
ghost use Rattle.coin_book.specs.Invariant.{HoldsChain, points_in};
ghost use Rattle.coin_book.specs.Short.{IsShortFor};
ghost use Rattle.coin_book.specs.Spends.{height_of, spends_of};
ghost use Rattle.coin_book.specs.Watched.{IsWatched, everything, watches, watches_txid};
ghost use Rattle.coin_book.specs.declared.fault.BookFault.TheVariants.{Full, Memory};

use crate::added::Added;
use crate::adding::ledger_behind;
use crate::coin::{Coin, Spend};
use crate::earlier::{ledger_of, weights_of};
use crate::fault::BookFault;
use crate::held::Held;
use crate::ledger::{Ledger, Weights};
use crate::lent::lent_behind;
use crate::moving::{left_of, settle};
use crate::showing::{coin_in, held_in, made_in, maker_in};
use crate::waiting::{check_fits, coins_beside, count_beside, fits, keep_waiting};
use crate::watched::Watched;
use block_feed::{Block, RawBlock};
use fund_base::{OutPoint, Txid};
use indexmap::{IndexMap, IndexSet};
use std::alloc::Global;
use std::marker::Model;
use std::snapshot::Snapshot;
use tx_codec::{Tx, TxIn, txid};
use wallet_text::Wallet;

/// All coins of a history, as a [`Book`](crate::Book) has them, and so much as is watched of what its chain spends and of
/// the heights at which it has txids. So the memory is that of the coins and of what is watched, however long the chain is.
pub struct Watching {
    alloc: Global,
    watched: Watched,
    // what the book was made from takes no memory
    wallet: Snapshot<Wallet>,
    blocks: Vec<Added>,
    waiting: Vec<Snapshot<Tx>>,
    weights: Weights,
    ledger: Ledger,
    pending: IndexMap<OutPoint, Held>,
    // those of the transactions that were added to wait
    txids: IndexSet<Txid>,
    // how many transactions are confirmed
    count: u64,
}

/// One call, wherever it is dropped.
impl Drop for Watching {
    fn drop(self) {
        let Watching {
            alloc: _,
            watched: _,
            wallet: _,
            blocks: _,
            waiting: _,
            weights: _,
            ledger: _,
            pending: _,
            txids: _,
            count: _,
        } = self;
    }
}

impl Model for Watching {
    ghost use Rattle.coin_book.specs.Watched.{WatchedHistory};
    ghost use Rattle.coin_book.specs.Invariant.{IsLedger, history_of};

    ghost Value = { WatchedHistory };

    ghost view = { λ b. record { history = history_of b.wallet.value b.blocks.items b.waiting.items; watched = b.watched } };

    ghost invariant = { λ b. IsLedger (history_of b.wallet.value b.blocks.items b.waiting.items) b.watched b.weights.entries b.ledger b.pending.entries b.txids.keys b.count };
}

impl Watching {
    /// The coins of a wallet's earlier transactions. The faults are those of [`Book::new`](crate::Book::new).
    pub fn new(alloc: Global, wallet: &Wallet, watched: Watched) -> Result<Watching, BookFault>
        ensures made { IfOk result (λ book. book ≡ record { history = start_of wallet.now; watched = watched }) }
        ensures exact { Answers result (start_of wallet.now) }
    {
        let weights = weights_of(alloc, &wallet.scripts)?;
        let ledger = match ledger_of(alloc, &watched, &weights, &wallet.earlier) {
            Ok(ledger) => ledger,
            Err(fault) => return Err(fault),
        };
        Ok(Watching {
            alloc,
            watched,
            wallet: Snapshot::of(wallet),
            blocks: Vec::new(alloc),
            waiting: Vec::new(alloc),
            weights,
            ledger,
            pending: IndexMap::new(alloc),
            txids: IndexSet::new(alloc),
            count: wallet.earlier.len() as u64,
        })
    }

    /// Adds a block, as [`Book::add_block`](crate::Book::add_block) does.
    pub fn add_block(&mut self, block: &Block) -> Result<(), BookFault>
        requires texts { All IsTransaction block.now.txs }
        ensures added { OnOk result (self.new.history ≡ with_block self.old.history block.now) }
        ensures watched { self.new.watched ≡ self.old.watched }
        ensures exact { Answers result (with_block self.old.history block.now) }
        ensures short { result ≡ Err Memory → IsShortFor self.old.history block.now }
        ensures kept { OnErr result (self.new ≡ self.old) }
    {
        let Some(count) = self.count.checked_add(block.txs.len() as u64) else {
            // no memory holds so many transactions
            return Err(BookFault::Memory);
        };
        let more = match ledger_behind(
            self.alloc,
            &self.ledger,
            &self.watched,
            &self.weights,
            &block.txs,
            block.txids(),
            block.height,
            self.count,
        ) {
            Ok(more) => more,
            Err(fault) => return Err(fault),
        };
        self.append(more, Added::lists(block), count)
    }

    /// Adds a block whose transactions stay in its bytes, as [`Book::add_block`](crate::Book::add_block) does. Lists are made
    /// only of those that pay a listed script, spend an outpoint that is watched or have a txid that is watched.
    pub fn add_raw(&mut self, block: &RawBlock) -> Result<(), BookFault>
        requires texts { All IsTransaction block.now.txs }
        ensures added { OnOk result (self.new.history ≡ with_block self.old.history block.now) }
        ensures watched { self.new.watched ≡ self.old.watched }
        ensures exact { Answers result (with_block self.old.history block.now) }
        ensures short { result ≡ Err Memory → IsShortFor self.old.history block.now }
        ensures kept { OnErr result (self.new ≡ self.old) }
    {
        let Some(count) = self.count.checked_add(block.txids().len() as u64) else {
            // no memory holds so many transactions
            return Err(BookFault::Memory);
        };
        let more = match lent_behind(
            self.alloc,
            &self.ledger,
            &self.watched,
            &self.weights,
            block,
            self.count,
        ) {
            Ok(more) => more,
            Err(fault) => return Err(fault),
        };
        self.append(more, Added::bytes(block), count)
    }

    /// Puts the ledger of a block after that of the chain, so that so many transactions are confirmed.
    fn append(&mut self, more: Ledger, block: Added, count: u64) -> Result<(), BookFault>
        requires holds { HoldsChain self.old.watched (weight_for self.old.history.scripts) self.old.history.confirmed (confirmed_in block.value) more }
        requires sound { fault_behind (points_in (weight_for self.old.history.scripts) self.old.history.confirmed) (points_in (weight_for self.old.history.scripts) (confirmed_in block.value)) ≡ None }
        requires count { count ≡ length self.old.history.confirmed + length block.value.txs }
        ensures added { OnOk result (self.new.history ≡ with_block self.old.history block.value) }
        ensures watched { self.new.watched ≡ self.old.watched }
        ensures exact { Answers result (with_block self.old.history block.value) }
        ensures short { result ≡ Err Memory → fault_of (with_block self.old.history block.value) ≡ None }
        ensures kept { OnErr result (self.new ≡ self.old) }
    {
        let left = left_of(&self.txids, &self.pending, &more.heights);
        match check_fits(self.ledger.coins.len(), more.coins.len(), left) {
            Ok(()) => {}
            Err(fault) => return Err(fault),
        }
        self.blocks.reserve(1)?;
        self.ledger.append(self.alloc, more)?;
        // there is room for this one
        let _ = self.blocks.push(block);
        settle(&mut self.pending, &self.ledger.heights, left);
        self.count = count;
        Ok(())
    }

    /// Adds a transaction that waits for a block, as [`Book::add_pending`](crate::Book::add_pending) does. Where its txid or
    /// an outpoint that it spends isn't watched, it can't be added: this is told as out of memory.
    pub fn add_pending(&mut self, tx: &Tx) -> Result<(), BookFault>
        requires text { IsTransaction tx.now }
        requires fresh { All (λ (t : Transaction). txid_of t ≢ txid_of tx.now) self.old.history.pending }
        ensures added { OnOk result (self.new.history ≡ with_pending self.old.history tx.now) }
        ensures watched { self.new.watched ≡ self.old.watched }
        ensures exact { Answers result (with_pending self.old.history tx.now) }
        ensures full { IfErr result (λ e. e ≢ Memory → e ≡ Full) }
        ensures short { IsWatched self.old.watched tx.now → result ≡ Err Memory → fault_of (with_pending self.old.history tx.now) ≡ None }
        ensures kept { OnErr result (self.new ≡ self.old) }
    {
        let id = txid(tx);
        if !is_watched(&self.watched, tx, &id) {
            return Err(BookFault::Memory);
        }
        let heights = &self.ledger.heights;
        let more = count_beside(&self.weights, heights, tx, &id);
        if !fits(self.ledger.coins.len(), self.pending.len(), more) {
            return Err(BookFault::Full);
        }
        let mut coins = match coins_beside(
            self.alloc,
            &self.weights,
            heights,
            &self.pending,
            tx,
            id,
        ) {
            Ok(coins) => coins,
            Err(fault) => return Err(fault),
        };
        keep_waiting(
            &mut self.waiting,
            &mut self.txids,
            &mut self.pending,
            &mut coins,
            tx,
            id,
        )?;
        Ok(())
    }

    /// How many coins there are, at most 100,000. No book has a history with a fault.
    pub fn len(&self) -> usize
        ensures count { result ≡ length (coins_of self.now.history) }
        ensures sound { fault_of self.now.history ≡ None }
    {
        self.ledger.coins.len() + self.pending.len()
    }

    /// The coin of this number in order of creation, from 0. None exactly from the number of coins on.
    pub fn at(&self, i: usize) -> Option<&Coin>
        ensures { option_copied result ≡ slice_get (coins_of self.now.history) i }
    {
        let confirmed = self.ledger.coins.len();
        if i < confirmed {
            coin_in(&self.ledger.coins, i)
        } else {
            coin_in(&self.pending, i - confirmed)
        }
    }

    /// The coin of this number in order of creation, from 0, with its transaction, as [`Watching::parent`] gives it. None
    /// exactly from the number of coins on. The transaction of a confirmed coin isn't looked for by its outpoint.
    pub fn at_with_parent(&self, i: usize) -> Option<(&Coin, Option<&Tx>)>
        ensures coin { option_map (λ m. m.0.now) result ≡ slice_get (coins_of self.now.history) i }
        ensures parent { IfSome result (λ m. option_copied m.1 ≡ parent_of self.now.history m.0.now.coin) }
    {
        let confirmed = self.ledger.coins.len();
        if i < confirmed {
            let (coin, tx) = made_in(&self.ledger.coins, i)?;
            Some((coin, Some(tx)))
        } else {
            let coin = coin_in(&self.pending, i - confirmed)?;
            Some((coin, self.parent(&coin.coin)))
        }
    }

    /// The coin at this outpoint. None exactly where no coin is there.
    pub fn get(&self, coin: &OutPoint) -> Option<&Coin>
        ensures { option_copied result ≡ coin_under self.now.history coin.now }
    {
        match held_in(&self.ledger.coins, coin) {
            Some(found) => Some(found),
            None => held_in(&self.pending, coin),
        }
    }

    /// The transaction whose output is the coin at this outpoint. None exactly where no coin is there.
    pub fn parent(&self, coin: &OutPoint) -> Option<&Tx>
        ensures { option_copied result ≡ parent_of self.now.history coin.now }
    {
        match maker_in(&self.ledger.coins, coin) {
            Some(tx) => Some(tx),
            None => maker_in(&self.pending, coin),
        }
    }

    /// The confirmed transactions that spend an outpoint which is watched, in chain order. Of those of one txid the first
    /// alone is given.
    pub fn spends(&self, coin: &OutPoint) -> &[Spend]
        requires { watches self.now.watched coin.now ≡ true }
        ensures { result.now ≡ spends_of self.now.history.confirmed coin.now }
    {
        self.ledger.spends.at(coin)
    }

    /// The height of the first confirmed transaction of this txid, which is watched, in chain order. None exactly where
    /// there is none.
    pub fn height(&self, txid: &Txid) -> Option<u32>
        requires { watches_txid self.now.watched txid.now ≡ true }
        ensures { result ≡ height_of self.now.history.confirmed txid.now }
    {
        self.ledger.heights.get(txid).copied()
    }

    /// Whether all outpoints and all txids are watched.
    pub fn watches_everything(&self) -> bool
        ensures { (result ≡ true) ↔ (self.now.watched ≡ everything) }
    {
        self.watched.is_everything()
    }

    /// Whether every outpoint at which a coin stands is watched. Then, and only then, so is all that a wallet may ask for.
    pub fn watches_coins(&self) -> bool
        ensures whole { (result ≡ true) ↔ Suffices self.now }
        ensures unwatched { (result ≡ false) ↔ HasUnwatchedCoin self.now }
    {
        all_watched(&self.watched, &self.ledger.coins) && all_watched(&self.watched, &self.pending)
    }
}

/// Whether the outpoint of each coin is watched.
fn all_watched(watched: &Watched, coins: &IndexMap<OutPoint, Held>) -> bool
    ensures { result ≡ list_all (watches watched.now) (keys_of coins.now.entries) }
{
    coins.keys().all(|point| watched.has(point))
}

/// Whether each outpoint that the inputs spend is watched.
fn inputs_watched(watched: &Watched, inputs: &[TxIn]) -> bool
    ensures { result ≡ list_all (λ (i : TxIn). watches watched.now i.prev) inputs.now }
{
    for input in inputs {
        if !watched.has(&input.prev) {
            return false;
        }
    }
    true
}

/// Whether the txid of the transaction is watched, and each outpoint that it spends.
fn is_watched(watched: &Watched, tx: &Tx, txid: &Txid) -> bool
    requires { txid.now ≡ txid_of tx.now }
    ensures yes { result ≡ true → IsWatched watched.now tx.now }
    ensures no { IsWatched watched.now tx.now → result ≡ true }
{
    watched.has_txid(txid) && inputs_watched(watched, &tx.inputs)
}
