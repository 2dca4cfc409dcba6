//! The class of each coin of a wallet.

ghost use Rattle.std.specs.Prelude.{◌≡◌, ◌<◌, IfOk, OnOk, map, option_map, slice_get};
ghost use Rattle.indexmap.specs.IndexSet.{contains};
ghost use Rattle.fund_base.specs.Outpoints.{same_outpoint};
ghost use Rattle.coin_book.specs.Asked.{HasCoin};
ghost use Rattle.coin_book.specs.Coins.{coins_of};
ghost use Rattle.payment_states.specs.BookOf.{IsBookOf};
ghost use Rattle.payment_states.specs.ByPlace.{place_among};
ghost use Rattle.payment_states.specs.Payments.{payments_of};
ghost use Rattle.coin_totals.specs.ByPlace.{classed_at, classed_by};
ghost use Rattle.coin_totals.specs.Classes.{classes_of};

use crate::class::{CoinClass, class_by};
use coin_book::{Coin, Known};
use fund_base::{Memory, OutPoint};
use indexmap::IndexSet;
use payment_states::{Facts, States, facts_of, flag_at, is_deep, spoken_for};
use std::alloc::Global;
use wallet_text::Wallet;

/// The class of a coin, and its value.
#[derive(Clone, Copy)]
pub struct ClassedCoin {
    /// Its class.
    pub class: CoinClass,
    /// Its value, in satoshi.
    pub value: u64,
}

/// The class of a coin of the book.
fn classed(
    book: &Known<'_>,
    states: &States,
    facts: &Facts,
    claimed: &IndexSet<OutPoint>,
    locked: &IndexSet<OutPoint>,
    tip: u32,
    coin: &Coin,
) -> ClassedCoin
    requires tip { tip < 4294967295 }
    requires coin { HasCoin book.now coin.now.coin }
    ensures { result ≡ classed_at book.now tip facts.now.pending.items facts.now.safe.items (contains same_outpoint claimed.now coin.now.coin) (contains same_outpoint locked.now coin.now.coin) coin.now (place_among states.now coin.now.coin.txid) }
{
    let place = states.place(&coin.coin.txid);
    let confirmed = coin.height.is_some();
    let live = confirmed || flag_at(&facts.pending, place);
    let spent = !book.spends(&coin.coin).is_empty();
    let is_claimed = claimed.contains(&coin.coin);
    let is_locked = locked.contains(&coin.coin);
    let deep = is_deep(tip, coin);
    let safe = flag_at(&facts.safe, place);
    ClassedCoin {
        class: class_by(live, spent, is_claimed, is_locked, deep, confirmed, safe),
        value: coin.value,
    }
}

/// The class of the coin of this number, if there is one.
fn classed_number(
    book: &Known<'_>,
    states: &States,
    facts: &Facts,
    claimed: &IndexSet<OutPoint>,
    locked: &IndexSet<OutPoint>,
    tip: u32,
    number: usize,
) -> Option<ClassedCoin>
    requires { tip < 4294967295 }
    ensures { result ≡ option_map (classed_by book.now tip facts.now.pending.items facts.now.safe.items (contains same_outpoint claimed.now) (contains same_outpoint locked.now) states.now) (slice_get (coins_of book.now) number) }
{
    match book.at(number) {
        Some(coin) => Some(classed(book, states, facts, claimed, locked, tip, coin)),
        None => None,
    }
}

/// The classes of all coins of the book, by what is spoken for.
fn all_classed(
    alloc: Global,
    book: &Known<'_>,
    states: &States,
    facts: &Facts,
    claimed: &IndexSet<OutPoint>,
    locked: &IndexSet<OutPoint>,
    tip: u32,
) -> Result<Vec<ClassedCoin>, Memory>
    requires { tip < 4294967295 }
    ensures { IfOk result (λ v. v.items ≡ map (classed_by book.now tip facts.now.pending.items facts.now.safe.items (contains same_outpoint claimed.now) (contains same_outpoint locked.now) states.now) (coins_of book.now)) }
{
    let mut all = Vec::with_capacity(alloc, book.len())?;
    for number in 0..book.len() {
        match classed_number(book, states, facts, claimed, locked, tip, number) {
            Some(one) => all.push(one)?,
            None => {}
        }
    }
    Ok(all)
}

/// The class of each coin of a wallet, in order of creation, by a book that is lent. The error is out of memory.
///
/// The tip is the height of the last block, at least that of each confirmed transaction.
pub fn coin_classes(
    alloc: Global,
    book: &Known<'_>,
    wallet: &Wallet,
    states: &States,
    tip: u32,
) -> Result<Vec<ClassedCoin>, Memory>
    requires book { IsBookOf wallet.now book.now }
    requires states { states.now ≡ payments_of wallet.now book.now }
    requires tip { tip < 4294967295 }
    ensures { IfOk result (λ v. v.items ≡ classes_of wallet.now book.now tip) }
{
    let facts = facts_of(alloc, book, wallet, states)?;
    let spoken = spoken_for(alloc, &wallet.pending, &facts.pending, &wallet.locked)?;
    let all = all_classed(
        alloc,
        book,
        states,
        &facts,
        &spoken.claimed,
        &spoken.locked,
        tip,
    )?;
    Ok(all)
}
