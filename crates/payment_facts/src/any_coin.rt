//! What is known of any coin, whether or not it may be spent.

ghost use Rattle.std.specs.Prelude.{◌≡◌, ◌≢◌, ◌<◌, ◌≤◌, ℕ, All, IfOk, IfSome, IsSomeAnd, None, OnErr, false, length};
ghost use Rattle.std.specs.Option.{option_map_or};
ghost use Rattle.coin_candidates.specs.Candidates.{IsCandidate};
ghost use Rattle.coin_book.specs.AtOutpoint.{coin_under};
ghost use Rattle.payment_facts.specs.AnyCoin.{AreFacts, facts_among, facts_at, waiting_at};
ghost use Rattle.payment_states.specs.BookOf.{IsBookOf};
ghost use Rattle.payment_states.specs.Candidates.{ancestors, candidate_of, is_pending, prices_in};
ghost use Rattle.payment_states.specs.Makers.{HasMaker};
ghost use Rattle.payment_states.specs.Payments.{payments_of};
ghost use Rattle.payment_states.specs.PendingView.{view_of};

use coin_book::{Book, Coin, Known};
use coin_candidates::Candidate;
use fee_rates::MAX_RATE;
use fund_base::{Memory, OutPoint};
use payment_states::{
    Facts, Standing, States, amount_at, count_at, described, facts_of, flag_at, graph_of,
    number_at, prices_of,
};
use std::alloc::Global;
use wallet_text::Wallet;

/// How many Pending ones are among the transaction at this place and its ancestors. Of one that is Pending no memory is
/// needed to tell.
fn ancestors_at(
    alloc: Global,
    book: &Known<'_>,
    wallet: &Wallet,
    states: &States,
    facts: &Facts,
    place: usize,
) -> Result<u32, Memory>
    requires book { IsBookOf wallet.now book.now }
    requires states { states.now ≡ payments_of wallet.now book.now }
    requires facts { AreFacts wallet.now book.now facts.now }
    requires place { place < length wallet.now.pending }
    ensures exact { IfOk result (λ n. n ≡ ancestors (view_of wallet.now book.now) place) }
    ensures short { OnErr result (is_pending (view_of wallet.now book.now) place ≡ false) }
{
    if flag_at(&facts.pending, Some(place)) {
        return Ok(number_at(&facts.ancestors, Some(place)));
    }
    let parents = graph_of(alloc, book, states.txids(), &wallet.pending)?;
    let count = count_at(alloc, &parents, &facts.pending, place)?;
    Ok(count)
}

/// The same, where there is a place.
fn ancestors_of(
    alloc: Global,
    book: &Known<'_>,
    wallet: &Wallet,
    states: &States,
    facts: &Facts,
    place: Option<usize>,
) -> Result<u32, Memory>
    requires book { IsBookOf wallet.now book.now }
    requires states { states.now ≡ payments_of wallet.now book.now }
    requires facts { AreFacts wallet.now book.now facts.now }
    requires place { IfSome place (λ i. i < length wallet.now.pending) }
    ensures exact { IfOk result (λ n. n ≡ option_map_or (ancestors (view_of wallet.now book.now)) place 0) }
    ensures short { OnErr result (IsSomeAnd place (λ i. is_pending (view_of wallet.now book.now) i ≡ false)) }
{
    match place {
        Some(place) => ancestors_at(alloc, book, wallet, states, facts, place),
        None => Ok(0),
    }
}

/// How a coin stands that has no height, and whose transaction is at this place.
fn waiting_at(
    alloc: Global,
    book: &Known<'_>,
    wallet: &Wallet,
    states: &States,
    facts: &Facts,
    prices: &[u64],
    place: Option<usize>,
) -> Result<Standing, Memory>
    requires book { IsBookOf wallet.now book.now }
    requires states { states.now ≡ payments_of wallet.now book.now }
    requires facts { AreFacts wallet.now book.now facts.now }
    requires place { IfSome place (λ i. i < length wallet.now.pending) }
    ensures exact { (rate : ℕ) → prices.now ≡ prices_in wallet.now book.now rate → IfOk result (λ s. s ≡ waiting_at wallet.now book.now rate place) }
    ensures short { OnErr result (IsSomeAnd place (λ i. is_pending (view_of wallet.now book.now) i ≡ false)) }
{
    let ancestors = ancestors_of(alloc, book, wallet, states, facts, place)?;
    Ok(Standing {
        depth: 0,
        safe: flag_at(&facts.safe, place),
        ancestors,
        descendants: number_at(&facts.descendants, place),
        price: amount_at(prices, place),
    })
}

/// The coin, with what is known of it.
fn known(
    alloc: Global,
    book: &Known<'_>,
    wallet: &Wallet,
    states: &States,
    facts: &Facts,
    prices: &[u64],
    tip: u32,
    coin: &Coin,
) -> Result<Candidate, Memory>
    requires book { IsBookOf wallet.now book.now }
    requires states { states.now ≡ payments_of wallet.now book.now }
    requires facts { AreFacts wallet.now book.now facts.now }
    requires tip { tip < 4294967295 }
    ensures { (rate : ℕ) → prices.now ≡ prices_in wallet.now book.now rate → IfOk result (λ c. c ≡ candidate_of wallet.now book.now tip rate coin.now) }
{
    match coin.height {
        Some(height) => {
            let stands = Standing {
                depth: (tip + 1).saturating_sub(height),
                safe: true,
                ancestors: 0,
                descendants: 0,
                price: 0,
            };
            described(alloc, book, coin, book.parent(&coin.coin), stands)
        }
        None => {
            let place = states.place(&coin.coin.txid);
            let stands = waiting_at(alloc, book, wallet, states, facts, prices, place)?;
            described(alloc, book, coin, book.parent(&coin.coin), stands)
        }
    }
}

/// The coin at an outpoint, if there is one, with what is known of it.
fn fact_at(
    alloc: Global,
    book: &Known<'_>,
    wallet: &Wallet,
    states: &States,
    facts: &Facts,
    prices: &[u64],
    tip: u32,
    coin: &OutPoint,
) -> Result<Option<Candidate>, Memory>
    requires book { IsBookOf wallet.now book.now }
    requires states { states.now ≡ payments_of wallet.now book.now }
    requires facts { AreFacts wallet.now book.now facts.now }
    requires tip { tip < 4294967295 }
    ensures exact { (rate : ℕ) → prices.now ≡ prices_in wallet.now book.now rate → IfOk result (λ c. c ≡ facts_at wallet.now book.now tip rate coin.now) }
    ensures short { OnErr result (coin_under book.now coin.now ≢ None) }
{
    match book.get(coin) {
        Some(found) => {
            let candidate = known(alloc, book, wallet, states, facts, prices, tip, found)?;
            Ok(Some(candidate))
        }
        None => Ok(None),
    }
}

/// The same as [`coin_facts`], by a book that is lent.
pub fn known_fact(
    alloc: Global,
    book: &Known<'_>,
    wallet: &Wallet,
    states: &States,
    tip: u32,
    coin: &OutPoint,
    rate: u64,
) -> Result<Option<Candidate>, Memory>
    requires book { IsBookOf wallet.now book.now }
    requires states { states.now ≡ payments_of wallet.now book.now }
    requires tip { tip < 4294967295 }
    requires rate { rate ≤ MAX_RATE }
    ensures exact { IfOk result (λ c. c ≡ facts_at wallet.now book.now tip rate coin.now) }
{
    let facts = facts_of(alloc, book, wallet, states)?;
    let prices = prices_of(alloc, book, wallet, states, &facts.pending, rate)?;
    let fact = fact_at(alloc, book, wallet, states, &facts, &prices, tip, coin)?;
    Ok(fact)
}

/// The same as [`facts_of_coins`], by a book that is lent.
pub fn known_facts(
    alloc: Global,
    book: &Known<'_>,
    wallet: &Wallet,
    states: &States,
    tip: u32,
    coins: &[OutPoint],
    rate: u64,
) -> Result<Vec<Candidate>, Memory>
    requires book { IsBookOf wallet.now book.now }
    requires states { states.now ≡ payments_of wallet.now book.now }
    requires tip { tip < 4294967295 }
    requires rate { rate ≤ MAX_RATE }
    ensures exact { IfOk result (λ v. v.items ≡ facts_among wallet.now book.now tip rate coins.now) }
    ensures fit { IfOk result (λ v. All IsCandidate v.items) }
    ensures makers { IfOk result (λ v. All (HasMaker book.now) v.items) }
{
    book.keeps_rules();
    wallet.pending.len();
    let facts = facts_of(alloc, book, wallet, states)?;
    let prices = prices_of(alloc, book, wallet, states, &facts.pending, rate)?;
    let mut all = Vec::new(alloc);
    for coin in coins {
        match fact_at(alloc, book, wallet, states, &facts, &prices, tip, coin)? {
            Some(candidate) => all.push(candidate)?,
            None => {}
        }
    }
    Ok(all)
}

/// The coin at this outpoint, with what is known of it, whether or not it may be spent. None exactly where the book has
/// no coin there. The error is out of memory.
///
/// Its price is what raises each Pending transaction among its own and the ancestors of that one to the rate, in satoshi per
/// 1,000 virtual bytes, where it is known what that transaction pays; 0 for a confirmed coin. The rate is at most
/// [`fee_rates::MAX_RATE`].
///
/// The tip is the height of the last block, at least that of each confirmed transaction.
pub fn coin_facts(
    alloc: Global,
    book: &Book,
    wallet: &Wallet,
    states: &States,
    tip: u32,
    coin: &OutPoint,
    rate: u64,
) -> Result<Option<Candidate>, Memory>
    requires book { IsBookOf wallet.now book.now }
    requires states { states.now ≡ payments_of wallet.now book.now }
    requires tip { tip < 4294967295 }
    requires rate { rate ≤ MAX_RATE }
    ensures exact { IfOk result (λ c. c ≡ facts_at wallet.now book.now tip rate coin.now) }
{
    let known = book.known();
    known_fact(alloc, &known, wallet, states, tip, coin, rate)
}

/// The coins at these outpoints, in order, each with what is known of it, whether or not it may be spent. An outpoint at
/// which the book has no coin is passed over. The error is out of memory.
///
/// The tip and the rate are as for [`coin_facts`], and what is known of the pending list is worked out once.
pub fn facts_of_coins(
    alloc: Global,
    book: &Book,
    wallet: &Wallet,
    states: &States,
    tip: u32,
    coins: &[OutPoint],
    rate: u64,
) -> Result<Vec<Candidate>, Memory>
    requires book { IsBookOf wallet.now book.now }
    requires states { states.now ≡ payments_of wallet.now book.now }
    requires tip { tip < 4294967295 }
    requires rate { rate ≤ MAX_RATE }
    ensures exact { IfOk result (λ v. v.items ≡ facts_among wallet.now book.now tip rate coins.now) }
    ensures fit { IfOk result (λ v. All IsCandidate v.items) }
    ensures makers { IfOk result (λ v. All (HasMaker book.now) v.items) }
{
    let known = book.known();
    known_facts(alloc, &known, wallet, states, tip, coins, rate)
}
