//! The coins that may be spent.

ghost use Rattle.std.specs.Prelude.{◌≡◌, ◌<◌, ◌≤◌, ◌&&◌, not, IfOk, OnOk, None, option_and_then, slice_get};
ghost use Rattle.std.specs.List.{filter_map};
ghost use Rattle.std.specs.Option.{option_copied};
ghost use Rattle.indexmap.specs.IndexSet.{contains};
ghost use Rattle.coin_candidates.specs.Candidates.{AreCandidates};
ghost use Rattle.fund_base.specs.Outpoints.{same_outpoint};
ghost use Rattle.coin_book.specs.Asked.{HasCoin};
ghost use Rattle.coin_book.specs.Coins.{coins_of, parent_of};
ghost use Rattle.coin_book.specs.Faults.{fault_of};
ghost use Rattle.coin_book.specs.declared.coin.Coin.{Coin};
ghost use Rattle.payment_states.specs.BookOf.{IsBookOf};
ghost use Rattle.payment_states.specs.Candidates.{candidates_of, is_deep};
ghost use Rattle.payment_states.specs.Payments.{payments_of};
ghost use Rattle.payment_states.specs.ByPlace.{chosen_at, place_among};

use crate::candidate::{described, standing};
use crate::claims::{is_among, spoken_for};
use crate::own_coins::flag_at;
use crate::pending_facts::{Facts, facts_of};
use crate::prices::prices_of;
use crate::states::States;
use coin_book::{Book, Coin, Known};
use coin_candidates::Candidate;
use fee_rates::MAX_RATE;
use fund_base::{Memory, OutPoint};
use indexmap::IndexSet;
use std::alloc::Global;
use tx_codec::Tx;
use wallet_text::Wallet;

/// Whether a coin is deep enough: a coinbase's is at least 101 blocks deep.
pub fn is_deep(tip: u32, coin: &Coin) -> bool
    requires { tip < 4294967295 }
    ensures { result ≡ is_deep tip coin.now }
{
    let depth = match coin.height {
        Some(height) => (tip + 1).saturating_sub(height),
        None => 0,
    };
    !coin.coinbase || 101 <= depth
}

/// Whether a coin may be spent, by each rule in turn.
pub fn may_be_spent(live: bool, spent: bool, claimed: bool, locked: bool, deep: bool) -> bool
    ensures { result ≡ (live && (not spent && (not claimed && (not locked && deep)))) }
{
    live && !spent && !claimed && !locked && deep
}

/// The coin of this transaction, if it may be spent.
fn chosen(
    alloc: Global,
    book: &Known<'_>,
    states: &States,
    facts: &Facts,
    prices: &[u64],
    claimed: &IndexSet<OutPoint>,
    locked: &IndexSet<OutPoint>,
    tip: u32,
    coin: &Coin,
    parent: Option<&Tx>,
) -> Result<Option<Candidate>, Memory>
    requires tip { tip < 4294967295 }
    requires coin { HasCoin book.now coin.now.coin }
    requires parent { option_copied parent ≡ parent_of book.now coin.now.coin }
    ensures { IfOk result (λ r. r ≡ chosen_at book.now tip facts.now.pending.items facts.now.safe.items facts.now.ancestors.items facts.now.descendants.items prices.now (contains same_outpoint claimed.now coin.now.coin) (contains same_outpoint locked.now coin.now.coin) coin.now (place_among states.now coin.now.coin.txid)) }
{
    let place = states.place(&coin.coin.txid);
    let live = coin.height.is_some() || flag_at(&facts.pending, place);
    let spent = !book.spends(&coin.coin).is_empty();
    let is_claimed = is_among(claimed, &coin.coin);
    let is_locked = is_among(locked, &coin.coin);
    if may_be_spent(live, spent, is_claimed, is_locked, is_deep(tip, coin)) {
        let stands = standing(
            tip,
            &facts.safe,
            &facts.ancestors,
            &facts.descendants,
            prices,
            coin.height,
            place,
        );
        Ok(Some(described(alloc, book, coin, parent, stands)?))
    } else {
        Ok(None)
    }
}

/// The coin of this number, if there is one and it may be spent.
fn chosen_number(
    alloc: Global,
    book: &Known<'_>,
    states: &States,
    facts: &Facts,
    prices: &[u64],
    claimed: &IndexSet<OutPoint>,
    locked: &IndexSet<OutPoint>,
    tip: u32,
    number: usize,
) -> Result<Option<Candidate>, Memory>
    requires { tip < 4294967295 }
    ensures { IfOk result (λ r. r ≡ option_and_then (λ (c : Coin). chosen_at book.now tip facts.now.pending.items facts.now.safe.items facts.now.ancestors.items facts.now.descendants.items prices.now (contains same_outpoint claimed.now c.coin) (contains same_outpoint locked.now c.coin) c (place_among states.now c.coin.txid)) (slice_get (coins_of book.now) number)) }
{
    match book.at_with_parent(number) {
        Some((coin, parent)) => chosen(
            alloc, book, states, facts, prices, claimed, locked, tip, coin, parent,
        ),
        None => Ok(None),
    }
}

/// The coins that may be spent, by what is known of the pending list.
fn all_chosen(
    alloc: Global,
    book: &Known<'_>,
    states: &States,
    facts: &Facts,
    prices: &[u64],
    claimed: &IndexSet<OutPoint>,
    locked: &IndexSet<OutPoint>,
    tip: u32,
) -> Result<Vec<Candidate>, Memory>
    requires { tip < 4294967295 }
    ensures sound { OnOk result (fault_of book.now ≡ None) }
    ensures chosen { IfOk result (λ v. v.items ≡ filter_map (λ (c : Coin). chosen_at book.now tip facts.now.pending.items facts.now.safe.items facts.now.ancestors.items facts.now.descendants.items prices.now (contains same_outpoint claimed.now c.coin) (contains same_outpoint locked.now c.coin) c (place_among states.now c.coin.txid)) (coins_of book.now)) }
{
    let mut all = Vec::with_capacity(alloc, book.len())?;
    for number in 0..book.len() {
        match chosen_number(
            alloc, book, states, facts, prices, claimed, locked, tip, number,
        )? {
            Some(candidate) => all.push(candidate)?,
            None => {}
        }
    }
    Ok(all)
}

/// The same as [`candidates`], by a book that is lent.
pub fn known_candidates(
    alloc: Global,
    book: &Known<'_>,
    wallet: &Wallet,
    states: &States,
    tip: u32,
    rate: u64,
) -> Result<Vec<Candidate>, Memory>
    requires book { IsBookOf wallet.now book.now }
    requires states { states.now ≡ payments_of wallet.now book.now }
    requires tip { tip < 4294967295 }
    requires rate { rate ≤ MAX_RATE }
    ensures exact { IfOk result (λ v. v.items ≡ candidates_of wallet.now book.now tip rate) }
    ensures fit { IfOk result (λ v. AreCandidates v.items) }
{
    let facts = facts_of(alloc, book, wallet, states)?;
    let prices = prices_of(alloc, book, wallet, states, &facts.pending, rate)?;
    let spoken = spoken_for(alloc, &wallet.pending, &facts.pending, &wallet.locked)?;
    let all = all_chosen(
        alloc,
        book,
        states,
        &facts,
        &prices,
        &spoken.claimed,
        &spoken.locked,
        tip,
    )?;
    Ok(all)
}

/// The coins that may be spent, in order of creation, each with what is known of it: those whose transaction is
/// confirmed or Pending, that no confirmed or Pending transaction spends, that aren't locked, and that are at least 101
/// deep where their transaction is a coinbase.
///
/// A coin's price is what raises each Pending transaction among its own and the ancestors of that one to the rate, in
/// satoshi per 1,000 virtual bytes, where it is known what that transaction pays; 0 for a confirmed coin. The rate is at most
/// [`fee_rates::MAX_RATE`].
///
/// The tip is the height of the last block, at least that of each confirmed transaction.
pub fn candidates(
    alloc: Global,
    book: &Book,
    wallet: &Wallet,
    states: &States,
    tip: u32,
    rate: u64,
) -> Result<Vec<Candidate>, Memory>
    requires book { IsBookOf wallet.now book.now }
    requires states { states.now ≡ payments_of wallet.now book.now }
    requires tip { tip < 4294967295 }
    requires rate { rate ≤ MAX_RATE }
    ensures exact { IfOk result (λ v. v.items ≡ candidates_of wallet.now book.now tip rate) }
    ensures fit { IfOk result (λ v. AreCandidates v.items) }
{
    let known = book.known();
    known_candidates(alloc, &known, wallet, states, tip, rate)
}
