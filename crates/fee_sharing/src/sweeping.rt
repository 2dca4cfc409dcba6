//! A payment of all coins to one recipient.

ghost use Rattle.std.specs.Prelude.{◌≡◌, ◌≤◌, ◌++◌, ◌-ℤ◌, ◌≤ℤ◌, ℕ, pos, neg_ℤ, IfErr, IfOk, OnOk, List, length};
ghost use Rattle.std.specs.List.{flat_map};
ghost use Rattle.coin_candidates.specs.Candidates.{AreCandidates};
ghost use Rattle.coin_candidates.specs.declared.candidate.Candidate.{Candidate};
ghost use Rattle.fee_rates.specs.Fee.{fee_of, vsize_of};
ghost use Rattle.fee_rates.specs.Terms.{base_of};
ghost use Rattle.fund_steps.specs.Amounts.{AreWithin, charges_of, value_of};
ghost use Rattle.fee_sharing.specs.Sweep.{IsSweepFault, IsSwept, IsSweptBy, KeepsAlone, last_row, sweep_load, sweep_weight, swept_of};

use crate::fault::SweepFault;
use crate::swept::Swept;
use coin_candidates::Candidate;
use fee_rates::{PaymentLoad, Terms, fee, vsize};
use fund_base::{MAX_WEIGHT, Memory};
use fund_steps::{effective, in_order, paid, rates, weight};
use output_groups::{Group, PoolFault, Row, ladder, pool};
use request_text::{Request, outputs_count, outputs_size};
use std::alloc::Global;

/// The last row of the request's ladder.
pub fn last_row(request: &Request) -> &'static Row
    ensures row { result.now ≡ last_row request.now }
    ensures own { result.now.own ≤ result.now.foreign }
{
    let rows = ladder(request.zero_conf, request.include_unsafe);
    &rows[rows.len() - 1]
}

/// Appends a copy of each coin, in order.
fn add_copies(alloc: Global, coins: &mut Vec<Candidate>, group: &[Candidate]) -> Result<(), Memory>
    ensures { OnOk result (coins.new.items ≡ coins.old.items ++ group.now) }
{
    for coin in group {
        let copy = coin.copy(alloc)?;
        coins.push(copy)?;
    }
    Ok(())
}

/// A copy of each coin of the groups, in their order.
fn coins_of(alloc: Global, groups: &[Group]) -> Result<Vec<Candidate>, Memory>
    ensures { IfOk result (λ v. v.items ≡ flat_map (λ (g : List Candidate). g) groups.now) }
{
    let mut coins = Vec::with_capacity(alloc, groups.len())?;
    for group in groups {
        add_copies(alloc, &mut coins, group.as_slice())?;
    }
    Ok(coins)
}

/// All coins of the pool of the ladder's last row, in the order of their outpoints.
fn all_coins(
    alloc: Global,
    candidates: &[Candidate],
    request: &Request,
) -> Result<Vec<Candidate>, SweepFault>
    requires candidates { AreCandidates candidates.now }
    requires worth { value_of candidates.now ≤ 2_100_000_000_000_000 }
    ensures coins { IfOk result (λ v. v.items ≡ swept_of request.now candidates.now) }
    ensures within { IfOk result (λ v. AreWithin v.items) }
    ensures few { IfOk result (λ _. (n : ℕ) → KeepsAlone request.now candidates.now n → n ≤ 10_000) }
    ensures many { IfErr result (IsSweepFault request.now candidates.now) }
{
    request.keeps_rules();
    let row = last_row(request);
    match pool(
        alloc,
        candidates,
        row,
        request.rate,
        request.long_term,
        false,
    ) {
        Ok(pool) => {
            let coins = coins_of(alloc, &pool.groups)?;
            let coins = in_order(alloc, coins)?;
            Ok(coins)
        }
        Err(PoolFault::TooMany(count)) => Err(SweepFault::TooMany(count)),
        Err(PoolFault::Memory) => Err(SweepFault::Memory),
    }
}

/// The weight of the base of a payment of so many coins and without change, in weight units.
fn base(request: &Request, coins: u64) -> u64
    ensures value { (l : List Candidate) → length l ≡ coins → result ≡ base_of (sweep_load request.now l) }
    ensures most { result ≤ 5_000_000_000 }
{
    request.keeps_rules();
    let rates = rates(request);
    let terms = Terms::new(
        &rates,
        &PaymentLoad {
            paid: paid(request),
            outputs: outputs_size(&request.recipients),
            count: outputs_count(&request.recipients),
            coins,
            preset_effective: 0,
            preset_weight: 0,
            has_presets: false,
            burden: 0,
            change_size: 0,
            change_weight: 0,
            change_dust: 0,
        },
    );
    terms.base
}

/// What is left for the recipient, in satoshi; it may be below zero. The base is a weight in weight units.
fn left(request: &Request, base: u64, coins: &[Candidate]) -> i128
    requires coins { AreWithin coins.now }
    requires base { base ≤ 5_000_000_000 }
    ensures value { result ≡ (pos (value_of coins.now) -ℤ pos (charges_of request.now.rate coins.now)) -ℤ pos (fee_of request.now.rate (vsize_of base)) }
    ensures low { neg_ℤ (pos 300_000_000_000_000_000_000) ≤ℤ result }
    ensures high { result ≤ℤ pos 2_100_000_000_000_000 }
{
    request.keeps_rules();
    effective(request.rate, coins) - i128::from(fee(request.rate, vsize(base)))
}

/// The payment of all coins to the one recipient of the request.
///
/// Its inputs are all coins of the pool of the ladder's last row, each a group by itself, in the order of their outpoints:
/// those that are worth more than the fee and the price of their input (Bitcoin Core, `sendall` with `send_max`). The
/// recipient gets what they are worth less the fees of their inputs and their prices, less the fee of the base, in satoshi.
/// The answer is `Short` where this is less than the request asks for, or where there is no coin.
///
/// The candidates are together worth at most [`fund_base::MAX_MONEY`], and the request has one recipient. The error is
/// [`SweepFault::TooMany`] where the row keeps more than 10,000 coins, with their number. It is [`SweepFault::TooHeavy`], with
/// the weight, where the payment weighs more than 400,000 weight units; this is told before `Short`. Or it is out of memory.
pub fn sweep(
    alloc: Global,
    candidates: &[Candidate],
    request: &Request,
) -> Result<Swept, SweepFault>
    requires candidates { AreCandidates candidates.now }
    requires worth { value_of candidates.now ≤ 2_100_000_000_000_000 }
    requires one { length request.now.recipients ≡ 1 }
    // The coins and the amount, or that they are short.
    ensures swept { IfOk result (IsSwept request.now candidates.now) }
    // The coins pay for all of it.
    ensures pays { IfOk result (IsSweptBy request.now candidates.now) }
    ensures few { IfOk result (λ _. (n : ℕ) → KeepsAlone request.now candidates.now n → n ≤ 10_000) }
    ensures light { IfOk result (λ _. sweep_weight request.now (swept_of request.now candidates.now) ≤ 400_000) }
    ensures many { IfErr result (IsSweepFault request.now candidates.now) }
{
    let coins = all_coins(alloc, candidates, request)?;
    let base = base(request, coins.len() as u64);
    let weight = base + weight(&coins);
    if weight > MAX_WEIGHT {
        return Err(SweepFault::TooHeavy(weight));
    }
    let left = left(request, base, &coins);
    if coins.is_empty() || left < i128::from(paid(request)) {
        return Ok(Swept::Short);
    }
    Ok(Swept::Paid {
        coins,
        amount: left as u64,
    })
}

/// The declared weight of the payment that spends these coins, which [`sweep`] gave, in weight units.
pub fn sweep_weight(request: &Request, coins: &[Candidate]) -> u64
    requires { AreWithin coins.now }
    ensures { result ≡ sweep_weight request.now coins.now }
{
    base(request, coins.len() as u64) + weight(coins)
}
