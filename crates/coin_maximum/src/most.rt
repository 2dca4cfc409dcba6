//! The most that listed coins pay.

ghost use Rattle.std.specs.Prelude.{◌≡◌, ◌≢◌, ◌≤◌, ◌≤ℤ◌, ◌<ℤ◌, ◌-ℤ◌, pos, neg_ℤ, None, IfOk, IfSome};
ghost use Rattle.coin_candidates.specs.Candidates.{AreCandidates};
ghost use Rattle.fee_rates.specs.Fee.{fee_of, vsize_of};
ghost use Rattle.fund_steps.specs.Amounts.{AreWithin, charges_of, value_of};
ghost use Rattle.fund_steps.specs.Plan.{IsPlan};
ghost use Rattle.fund_steps.specs.declared.fault.PlanFault.TheVariants.{Memory as OutOfMemory};
ghost use Rattle.wallet_text.specs.WalletRules.{IsWatch};
ghost use Rattle.coin_maximum.specs.Maximum.{IsMaximum, max_of, plan_with};

use coin_candidates::Candidate;
use fee_rates::{MAX_RATE, Terms, fee, vsize};
use fund_base::Memory;
use fund_steps::{PlanBasis, PlanFault, Prepared, effective};
use request_text::Request;
use std::alloc::Global;
use wallet_text::Watch;

/// What is left of coins at this rate, less the fee of a base of this weight, in satoshi. It may be below zero.
fn left_of(rate: u64, base: u64, coins: &[Candidate]) -> i128
    requires rate { rate ≤ MAX_RATE }
    requires base { base ≤ 5_000_000_000 }
    requires coins { AreWithin coins.now }
    ensures value { result ≡ (pos (value_of coins.now) -ℤ pos (charges_of rate coins.now)) -ℤ pos (fee_of rate (vsize_of base)) }
    ensures low { neg_ℤ (pos 1_000_000_000_000_000_000_000_000) ≤ℤ result }
    ensures high { result ≤ℤ pos 2_100_000_000_000_000 }
{
    effective(rate, coins) - i128::from(fee(rate, vsize(base)))
}

/// What is left of the coins that each payment spends for those who are paid, in satoshi. It may be below zero.
fn left(funds: &PlanBasis) -> i128
    requires { funds.now.bump ≡ None }
    ensures value { result ≡ max_of funds.now }
    ensures low { neg_ℤ (pos 1_000_000_000_000_000_000_000_000) ≤ℤ result }
    ensures high { result ≤ℤ pos 2_100_000_000_000_000 }
    ensures plan { IsPlan funds.now }
{
    funds.keeps_rules();
    let rates = funds.rates();
    let terms = Terms::new(&rates, &funds.load());
    left_of(rates.rate, terms.base, funds.presets())
}

/// An amount that isn't below zero.
fn amount(left: i128) -> Option<u64>
    requires { left ≤ℤ pos 2_100_000_000_000_000 }
    ensures some { IfSome result (λ n. pos n ≡ left) }
    ensures none { result ≡ None → left <ℤ pos 0 }
{
    if left < 0 {
        return None;
    }
    Some(left as u64)
}

/// That no plan is made: so there is no such amount.
fn refused(fault: PlanFault) -> Result<Option<u64>, Memory>
    ensures { IfOk result (λ o. (o ≡ None) × (fault ≢ OutOfMemory)) }
{
    match fault {
        PlanFault::Memory => Err(Memory),
        PlanFault::Total(_) | PlanFault::NotEligible(_) | PlanFault::TooMany(_, _) => Ok(None),
    }
}

/// The most that the coins pay that a request lists, in satoshi, where no other is added: what they are worth less the fees of their inputs
/// and their prices, less the fee of the base of a payment to the request's recipients (Bitcoin Core, `sendall` with `inputs`). The amounts
/// that the request asks for count for nothing. There is none where the request replaces a payment, where no plan of it is made, as where a
/// listed coin may not be spent, or where that is below zero.
///
/// The change script keeps the rules of a wallet's, and the candidates are at most 100,000, each outpoint once. The error is out of memory.
pub fn maximum(
    alloc: Global,
    request: &Request,
    change: &Watch,
    candidates: Vec<Candidate>,
) -> Result<Option<u64>, Memory>
    requires change { IsWatch change.now }
    requires candidates { AreCandidates candidates.items }
    ensures { IfOk result (IsMaximum (plan_with request.now change.now candidates.items)) }
{
    if request.bump.is_some() {
        return Ok(None);
    }
    match PlanBasis::new(alloc, request, change, candidates, None) {
        Ok(Prepared { funds, steps: _ }) => Ok(amount(left(&funds))),
        Err(fault) => refused(fault),
    }
}
