//! The book of coins.

ghost use Rattle.std.specs.Prelude.{◌≡◌, ◌≢◌, All, Err, IfErr, IfOk, IfSome, OnErr, OnOk, length, option_map, slice_get};
ghost use Rattle.std.specs.Option.{option_copied};
ghost use Rattle.tx_codec.specs.Transaction.{Transaction};
ghost use Rattle.tx_codec.specs.TransactionText.{IsTransaction};
ghost use Rattle.tx_codec.specs.Txid.{txid_of};
ghost use Rattle.coin_book.specs.AtOutpoint.{coin_under};
ghost use Rattle.coin_book.specs.Coins.{coins_of, parent_of};
ghost use Rattle.coin_book.specs.Faults.{Answers, fault_of};
ghost use Rattle.coin_book.specs.History.{start_of, with_block, with_pending};
ghost use Rattle.coin_book.specs.Short.{IsShortFor};
ghost use Rattle.coin_book.specs.Spends.{height_of, spends_of};
ghost use Rattle.coin_book.specs.declared.fault.BookFault.TheVariants.{Full, Memory};

use crate::coin::{Coin, Spend};
use crate::fault::BookFault;
use crate::known::Known;
use crate::watched::Watched;
use crate::watching::Watching;
use block_feed::{Block, RawBlock};
use fund_base::{OutPoint, Txid};
use std::alloc::Global;
use std::marker::Model;
use tx_codec::Tx;
use wallet_text::Wallet;

/// The coins of a wallet in order of creation: outputs that pay a listed script, of the wallet's earlier transactions,
/// then of those of blocks, then of pending transactions. An output at a place above 4,294,967,295 is no coin.
///
/// A pending transaction that is confirmed too, by its txid, counts at its confirmed place alone. A book never has more
/// than 100,000 coins, and no outpoint of it is a confirmed coin twice.
#[derive(Drop)]
pub struct Book {
    // everything is watched
    watching: Watching,
}

impl Model for Book {
    ghost use Rattle.std.specs.Prelude.{◌≡◌};
    ghost use Rattle.coin_book.specs.History.{History};
    ghost use Rattle.coin_book.specs.Watched.{everything};

    ghost Value = { History };

    ghost view = { λ b. b.watching.history };

    ghost invariant = { λ b. b.watching.watched ≡ everything };
}

impl Book {
    /// The book of a wallet's earlier transactions.
    ///
    /// [`BookFault::RepeatCoin`] and [`BookFault::Full`] come exactly where an outpoint of these is a coin twice or
    /// there are more than 100,000 coins: the first coin that comes again, or is number 100,001, says which.
    pub fn new(alloc: Global, wallet: &Wallet) -> Result<Book, BookFault>
        ensures made { IfOk result (λ book. book ≡ start_of wallet.now) }
        ensures exact { Answers result (start_of wallet.now) }
    {
        match Watching::new(alloc, wallet, Watched::everything()) {
            Ok(watching) => Ok(Book { watching }),
            Err(fault) => Err(fault),
        }
    }

    /// Adds a block, which stands after all that were added before. Coins of pending transactions that it holds move
    /// to their places in it.
    ///
    /// [`BookFault::RepeatCoin`] and [`BookFault::Full`] come exactly where with this block an outpoint would be a
    /// confirmed coin twice or there would be more than 100,000 coins: the first coin, in order of creation, that comes
    /// again or would be number 100,001 says which. After a fault the book is as before.
    pub fn add_block(&mut self, block: &Block) -> Result<(), BookFault>
        requires texts { All IsTransaction block.now.txs }
        ensures added { OnOk result (self.new ≡ with_block self.old block.now) }
        ensures exact { Answers result (with_block self.old block.now) }
        // Out of memory comes where no coin is at fault up to the first coin of some transaction of the block, or of all of
        // them. So what is wrong with the first coin of its first transaction is never told as that.
        ensures short { result ≡ Err Memory → IsShortFor self.old block.now }
        ensures kept { OnErr result (self.new ≡ self.old) }
    {
        self.watching.add_block(block)
    }

    /// Adds a block whose transactions stay in its bytes, as [`Book::add_block`] does.
    pub fn add_raw(&mut self, block: &RawBlock) -> Result<(), BookFault>
        requires texts { All IsTransaction block.now.txs }
        ensures added { OnOk result (self.new ≡ with_block self.old block.now) }
        ensures exact { Answers result (with_block self.old block.now) }
        ensures short { result ≡ Err Memory → IsShortFor self.old block.now }
        ensures kept { OnErr result (self.new ≡ self.old) }
    {
        self.watching.add_raw(block)
    }

    /// Adds a transaction that waits for a block, after all that were added before. Its coins stand last, unless a
    /// transaction of its txid is confirmed: then it has none.
    ///
    /// [`BookFault::Full`] comes exactly where there would be more than 100,000 coins, and nothing else there. After a
    /// fault the book is as before.
    pub fn add_pending(&mut self, tx: &Tx) -> Result<(), BookFault>
        requires text { IsTransaction tx.now }
        requires fresh { All (λ (t : Transaction). txid_of t ≢ txid_of tx.now) self.old.pending }
        ensures added { OnOk result (self.new ≡ with_pending self.old tx.now) }
        ensures exact { Answers result (with_pending self.old tx.now) }
        ensures full { IfErr result (λ e. e ≢ Memory → e ≡ Full) }
        ensures short { result ≡ Err Memory → fault_of (with_pending self.old tx.now) ≡ None }
        ensures kept { OnErr result (self.new ≡ self.old) }
    {
        self.watching.add_pending(tx)
    }

    /// How many coins there are, at most 100,000. No book has a history with a fault.
    pub fn len(&self) -> usize
        ensures count { result ≡ length (coins_of self.now) }
        ensures sound { fault_of self.now ≡ None }
    {
        self.watching.len()
    }

    /// That no book has a history with a fault. A call does nothing.
    pub fn keeps_rules(&self)
        ensures { fault_of self.now ≡ None }
    {
        self.len();
    }

    /// The coin of this number in order of creation, from 0. None exactly from the number of coins on.
    pub fn at(&self, i: usize) -> Option<&Coin>
        ensures { option_copied result ≡ slice_get (coins_of self.now) i }
    {
        self.watching.at(i)
    }

    /// The coin of this number in order of creation, from 0, with its transaction, as [`Book::parent`] gives it. None
    /// exactly from the number of coins on. The transaction of a confirmed coin isn't looked for by its outpoint.
    pub fn at_with_parent(&self, i: usize) -> Option<(&Coin, Option<&Tx>)>
        ensures coin { option_map (λ m. m.0.now) result ≡ slice_get (coins_of self.now) i }
        ensures parent { IfSome result (λ m. option_copied m.1 ≡ parent_of self.now m.0.now.coin) }
    {
        self.watching.at_with_parent(i)
    }

    /// The coin at this outpoint. None exactly where no coin is there.
    pub fn get(&self, coin: &OutPoint) -> Option<&Coin>
        ensures { option_copied result ≡ coin_under self.now coin.now }
    {
        self.watching.get(coin)
    }

    /// The transaction whose output is the coin at this outpoint. None exactly where no coin is there.
    pub fn parent(&self, coin: &OutPoint) -> Option<&Tx>
        ensures { option_copied result ≡ parent_of self.now coin.now }
    {
        self.watching.parent(coin)
    }

    /// The confirmed transactions that spend an outpoint, whether or not it is a coin, in chain order. Of those of one
    /// txid the first alone is given.
    #[tactic(auto, unfolding(crate::specs::Watched::watches))]
    pub fn spends(&self, coin: &OutPoint) -> &[Spend]
        ensures { result.now ≡ spends_of self.now.confirmed coin.now }
    {
        self.watching.spends(coin)
    }

    /// The height of the first confirmed transaction of this txid in chain order. None exactly where there is none.
    #[tactic(auto, unfolding(crate::specs::Watched::watches_txid))]
    pub fn height(&self, txid: &Txid) -> Option<u32>
        ensures { result ≡ height_of self.now.confirmed txid.now }
    {
        self.watching.height(txid)
    }

    /// The book, as a wallet asks it.
    pub fn known(&self) -> Known<'_>
        ensures { result ≡ self.now }
    {
        Known::of(&self.watching)
    }
}
