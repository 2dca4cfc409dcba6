//! What coins that are used together count for.

ghost use Rattle.std.specs.Prelude.{◌≡◌, ◌<◌, ◌≤◌, ◌≤ℤ◌, pos, neg_ℤ, true, length, All, fold};
ghost use Rattle.coin_candidates.specs.declared.candidate.Candidate.{Candidate};
ghost use Rattle.coin_candidates.specs.Candidates.{IsCandidate};
ghost use Rattle.output_groups.specs.Measures.{charge_of, net_of, is_useful, gain, coin_cost, value_of, weight_of, cost_of, ancestors_of, descendants_of, depth_of, is_mine, is_safe, least_of, lesser, IsGroup};

use crate::coin_refs::CoinRef;
use coin_candidates::Candidate;
use fee_rates::{effective, input_fee};

/// Whether all of the coins are mine.
pub fn is_mine(coins: &[CoinRef]) -> bool
    ensures { result ≡ is_mine coins.now }
{
    coins.iter().all(|lent| lent.coin().mine)
}

/// Whether all of the coins are safe.
pub fn is_safe(coins: &[CoinRef]) -> bool
    ensures { result ≡ is_safe coins.now }
{
    coins.iter().all(|lent| lent.coin().safe)
}

/// The least depth of the coins, and 0 without coins.
pub fn depth(coins: &[CoinRef]) -> u32
    ensures { result ≡ depth_of coins.now }
{
    match coins {
        [] => 0,
        [first, rest @ ..] => rest.iter().fold(
            first.coin().depth,
            |least, lent| least.min(lent.coin().depth),
        ),
    }
}

/// How many pending ancestors the coins have, added up.
pub fn ancestors(coins: &[CoinRef]) -> u64
    requires { length coins.now ≤ 100 }
    ensures { result ≡ ancestors_of coins.now }
{
    let mut sum = 0;
    for lent in coins {
        sum += lent.coin().ancestors as u64;
    }
    sum
}

/// The greatest number of pending descendants of the coins.
pub fn descendants(coins: &[CoinRef]) -> u32
    ensures { result ≡ descendants_of coins.now }
{
    coins
        .iter()
        .fold(0, |most: u32, lent| most.max(lent.coin().descendants))
}

/// What they bring when they are spent at the rate, in satoshi.
pub fn value(coins: &[CoinRef], rate: u64) -> u64
    requires rate { rate ≤ 100_000_000 }
    requires group { IsGroup rate coins.now }
    ensures value { result ≡ value_of rate coins.now }
    ensures some { 1 ≤ result }
    ensures most { result ≤ 210_000_000_000_000_000 }
{
    let mut sum = 0;
    for lent in coins {
        sum += gain(rate, lent.coin());
    }
    sum
}

/// What their inputs weigh, in weight units.
pub fn weight(coins: &[CoinRef]) -> u64
    requires some { 0 < length coins.now }
    requires few { length coins.now ≤ 100 }
    requires each { All IsCandidate coins.now }
    ensures value { result ≡ weight_of coins.now }
    ensures some { 1 ≤ result }
    ensures most { result ≤ 40_000_000 }
{
    let mut sum = 0;
    for lent in coins {
        sum += lent.coin().weight;
    }
    sum
}

/// What their inputs cost at the rate above what they would cost at the long-term rate, and their prices, in satoshi.
pub fn cost(coins: &[CoinRef], rate: u64, long_term: u64) -> i64
    requires rate { rate ≤ 100_000_000 }
    requires long_term { long_term ≤ 100_000_000 }
    requires group { IsGroup rate coins.now }
    ensures value { result ≡ cost_of rate long_term coins.now }
    ensures low { neg_ℤ (pos 1_000_000_000_000) ≤ℤ result }
    ensures high { result ≤ℤ pos 210_001_000_000_000_000 }
{
    let mut sum = 0;
    for lent in coins {
        sum += coin_cost(rate, long_term, lent.coin());
    }
    sum
}

/// The one of the coins with the least outpoint.
pub fn least<'a>(coins: &[CoinRef<'a>]) -> &'a Candidate
    requires { 0 < length coins.now }
    ensures { result.now.coin ≡ least_of coins.now }
{
    match coins {
        [] => unreachable!(),
        [first, rest @ ..] => least_from(first.coin(), rest),
    }
}

/// The one with the least outpoint of a coin and others.
fn least_from<'a>(first: &'a Candidate, rest: &[CoinRef<'a>]) -> &'a Candidate
    ensures { result.now.coin ≡ fold (λ m (c : Candidate). lesser m c.coin) first.now.coin rest.now }
{
    let mut least = first;
    for lent in rest {
        least = lesser(least, lent.coin());
    }
    least
}

/// The one of two coins with the lesser outpoint.
fn lesser<'a>(a: &'a Candidate, b: &'a Candidate) -> &'a Candidate
    ensures { result.now.coin ≡ lesser a.now.coin b.now.coin }
{
    if b.coin.cmp(&a.coin).is_lt() { b } else { a }
}

/// What a coin takes for itself when it is spent at the rate, in satoshi: the fee of its input, and its price.
pub fn charge(rate: u64, coin: &Candidate) -> u64
    requires rate { rate ≤ 100_000_000 }
    requires coin { IsCandidate coin.now }
    ensures value { result ≡ charge_of rate coin.now }
    ensures most { result ≤ 2_100_010_000_000_000 }
{
    input_fee(rate, coin.weight) + coin.price
}

/// What is left of it then, in satoshi, and negative where it takes more than it is worth.
fn net(rate: u64, coin: &Candidate) -> i64
    requires rate { rate ≤ 100_000_000 }
    requires coin { IsCandidate coin.now }
    ensures { result ≡ net_of rate coin.now }
{
    effective(coin.value, rate, coin.weight) - coin.price as i64
}

/// Whether the coin brings something when it is spent at the rate.
pub fn is_useful(rate: u64, coin: &Candidate) -> bool
    requires rate { rate ≤ 100_000_000 }
    requires coin { IsCandidate coin.now }
    ensures { result ≡ is_useful rate coin.now }
{
    net(rate, coin) > 0
}

/// What such a coin brings, in satoshi.
fn gain(rate: u64, coin: &Candidate) -> u64
    requires rate { rate ≤ 100_000_000 }
    requires coin { IsCandidate coin.now }
    requires useful { is_useful rate coin.now ≡ true }
    ensures value { result ≡ gain rate coin.now }
    ensures some { 1 ≤ result }
    ensures most { result ≤ 2_100_000_000_000_000 }
{
    coin.value - charge(rate, coin)
}

/// What its input costs at the rate above what it would cost at the long-term rate, and its price, in satoshi.
fn coin_cost(rate: u64, long_term: u64, coin: &Candidate) -> i64
    requires rate { rate ≤ 100_000_000 }
    requires long_term { long_term ≤ 100_000_000 }
    requires coin { IsCandidate coin.now }
    ensures value { result ≡ coin_cost rate long_term coin.now }
    ensures low { neg_ℤ (pos 10_000_000_000) ≤ℤ result }
    ensures high { result ≤ℤ pos 2_100_010_000_000_000 }
{
    input_fee(rate, coin.weight) as i64 - input_fee(long_term, coin.weight) as i64
        + coin.price as i64
}
