//! What coins come to together.

ghost use Rattle.std.specs.Prelude.{◌≡◌, ◌≤◌, ◌<◌, ◌++◌, ◌^◌, ◌≤ℤ◌, ◌-ℤ◌, pos, neg_ℤ, IfSome};
ghost use Rattle.coin_candidates.specs.Candidates.{AreCandidates};
ghost use Rattle.fund_steps.specs.Amounts.{AreWithin, charges_of, fees_of, prices_of, value_of, weight_of};
ghost use Rattle.fund_steps.specs.Plan.{coins_with};

use crate::bump::BumpInput;
use coin_candidates::Candidate;
use fee_rates::{MAX_RATE, input_fee};
use fund_base::MAX_MONEY;

/// What the candidates are worth together, in satoshi.
fn total(candidates: &[Candidate]) -> u128
    requires { value_of candidates.now < 2 ^ 128 }
    ensures { result ≡ value_of candidates.now }
{
    candidates
        .iter()
        .map(|candidate| u128::from(candidate.value))
        .sum()
}

/// What the coins of a replaced payment and the candidates are worth together, in satoshi.
fn total_of_both(presets: &[Candidate], candidates: &[Candidate]) -> u128
    requires presets { AreCandidates presets.now }
    requires candidates { AreCandidates candidates.now }
    ensures { result ≡ value_of (presets.now ++ candidates.now) }
{
    total(presets) + total(candidates)
}

/// What the coins that a payment can spend are worth together, in satoshi.
#[tactic(auto, using(crate::proofs::SumLaws::value_within))]
pub fn worth(candidates: &[Candidate], bump: &Option<BumpInput>) -> u128
    requires candidates { AreCandidates candidates.now }
    requires bump { IfSome bump.now (λ b. AreCandidates b.presets) }
    ensures { result ≡ value_of (coins_with bump.now candidates.now) }
{
    match bump {
        Some(bump) => total_of_both(&bump.presets, candidates),
        None => total(candidates),
    }
}

/// What the coins are worth together, in satoshi.
pub fn value(coins: &[Candidate]) -> u64
    requires { AreWithin coins.now }
    ensures value { result ≡ value_of coins.now }
    ensures most { result ≤ MAX_MONEY }
{
    coins.iter().map(|coin| coin.value).sum()
}

/// What the inputs that spend the coins are declared to weigh together, in weight units.
pub fn weight(coins: &[Candidate]) -> u64
    requires { weight_of coins.now ≤ 40_000_000_000 }
    ensures { result ≡ weight_of coins.now }
{
    coins.iter().map(|coin| coin.weight).sum()
}

/// What the inputs that spend the coins pay for themselves together at this rate, in satoshi.
pub fn fees(rate: u64, coins: &[Candidate]) -> u64
    requires rate { rate ≤ MAX_RATE }
    requires coins { AreWithin coins.now }
    ensures value { result ≡ fees_of rate coins.now }
    ensures most { result ≤ 1_000_000_000_000_000 }
{
    let mut fees = 0;
    for coin in coins {
        fees += input_fee(rate, coin.weight);
    }
    fees
}

/// The prices of the coins together, in satoshi.
#[tactic(auto, using(crate::proofs::SumLaws::prices_within))]
fn prices(coins: &[Candidate]) -> u128
    requires { AreWithin coins.now }
    ensures value { result ≡ prices_of coins.now }
    ensures most { result ≤ 210_000_000_000_000_000_000 }
{
    coins.iter().map(|coin| u128::from(coin.price)).sum()
}

/// What the coins take for themselves together at this rate, in satoshi: the fees of their inputs, and their prices.
#[tactic(auto, using(crate::proofs::SumLaws::charges_are))]
pub fn charges(rate: u64, coins: &[Candidate]) -> u128
    requires rate { rate ≤ MAX_RATE }
    requires coins { AreWithin coins.now }
    ensures value { result ≡ charges_of rate coins.now }
    ensures most { result ≤ 210_001_000_000_000_000_000 }
{
    u128::from(fees(rate, coins)) + prices(coins)
}

/// What the coins are worth together less what they take for themselves at this rate, in satoshi.
pub fn effective(rate: u64, coins: &[Candidate]) -> i128
    requires rate { rate ≤ MAX_RATE }
    requires coins { AreWithin coins.now }
    ensures value { result ≡ pos (value_of coins.now) -ℤ pos (charges_of rate coins.now) }
    ensures low { neg_ℤ (pos 210_001_000_000_000_000_000) ≤ℤ result }
    ensures high { result ≤ℤ pos MAX_MONEY }
{
    let value = value(coins);
    let charges = charges(rate, coins);
    i128::from(value) - charges as i128
}
