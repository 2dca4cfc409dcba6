//! A book, as its wallet asks it.

ghost use Rattle.std.specs.Prelude.{◌≡◌, IfSome, None, length, option_map, slice_get};
ghost use Rattle.std.specs.Option.{option_copied};
ghost use Rattle.coin_book.specs.Asked.{IsAsked, IsAskedTxid, Suffices};
ghost use Rattle.coin_book.specs.AtOutpoint.{coin_under};
ghost use Rattle.coin_book.specs.Coins.{coins_of, parent_of};
ghost use Rattle.coin_book.specs.Faults.{fault_of};
ghost use Rattle.coin_book.specs.Spends.{height_of, spends_of};

use crate::coin::{Coin, Spend};
use crate::watching::Watching;
use fund_base::{OutPoint, Txid};
use std::marker::Model;
use tx_codec::Tx;

/// A book that is lent to whom asks as its wallet does: for coins and their transactions; for what spends an outpoint at
/// which a coin stands or that a pending transaction spends; and for the height of a pending transaction.
#[derive(Drop)]
pub struct Known<'a> {
    watching: &'a Watching,
}

impl<'a> Model for Known<'a> {
    ghost use Rattle.coin_book.specs.Asked.{Suffices};
    ghost use Rattle.coin_book.specs.History.{History};

    ghost Value = { History };

    ghost view = { λ k. k.watching.now.history };

    ghost invariant = { λ k. Suffices k.watching.now };
}

impl<'a> Known<'a> {
    /// The book of a history of which all is watched that may be asked.
    pub(crate) fn of(watching: &'a Watching) -> Known<'a>
        requires { Suffices watching.now }
        ensures { result ≡ watching.now.history }
    {
        Known { watching }
    }

    /// How many coins there are, at most 100,000. No book has a history with a fault.
    pub fn len(&self) -> usize
        ensures count { result ≡ length (coins_of self.now) }
        ensures sound { fault_of self.now ≡ None }
    {
        self.watching.len()
    }

    /// That no book has a history with a fault. A call does nothing.
    pub fn keeps_rules(&self)
        ensures { fault_of self.now ≡ None }
    {
        self.len();
    }

    /// The coin of this number in order of creation, from 0. None exactly from the number of coins on.
    pub fn at(&self, i: usize) -> Option<&'a Coin>
        ensures { option_copied result ≡ slice_get (coins_of self.now) i }
    {
        self.watching.at(i)
    }

    /// The coin of this number in order of creation, from 0, with its transaction, as [`Known::parent`] gives it. None
    /// exactly from the number of coins on.
    pub fn at_with_parent(&self, i: usize) -> Option<(&'a Coin, Option<&'a Tx>)>
        ensures coin { option_map (λ m. m.0.now) result ≡ slice_get (coins_of self.now) i }
        ensures parent { IfSome result (λ m. option_copied m.1 ≡ parent_of self.now m.0.now.coin) }
    {
        self.watching.at_with_parent(i)
    }

    /// The coin at this outpoint. None exactly where no coin is there.
    pub fn get(&self, coin: &OutPoint) -> Option<&'a Coin>
        ensures { option_copied result ≡ coin_under self.now coin.now }
    {
        self.watching.get(coin)
    }

    /// The transaction whose output is the coin at this outpoint. None exactly where no coin is there.
    pub fn parent(&self, coin: &OutPoint) -> Option<&'a Tx>
        ensures { option_copied result ≡ parent_of self.now coin.now }
    {
        self.watching.parent(coin)
    }

    /// The confirmed transactions that spend an outpoint at which a coin stands or that a pending transaction spends, in
    /// chain order. Of those of one txid the first alone is given.
    pub fn spends(&self, coin: &OutPoint) -> &'a [Spend]
        requires { IsAsked self.now coin.now }
        ensures { result.now ≡ spends_of self.now.confirmed coin.now }
    {
        self.watching.spends(coin)
    }

    /// The height of the first confirmed transaction of a pending transaction's txid in chain order. None exactly where
    /// there is none.
    pub fn height(&self, txid: &Txid) -> Option<u32>
        requires { IsAskedTxid self.now txid.now }
        ensures { result ≡ height_of self.now.confirmed txid.now }
    {
        self.watching.height(txid)
    }
}
