//! What the coins of a plan bring, what the payment needs, and what is missing.

ghost use Rattle.std.specs.Prelude.{◌≡◌, ◌≢◌, ◌≤◌, ℕ, Err, IfErr, IfOk, None, Ok, OnOk, Some};
ghost use Rattle.coin_candidates.specs.Candidates.{AreCandidates};
ghost use Rattle.fee_rates.specs.Terms.{AreRates, IsLoad};
ghost use Rattle.output_groups.specs.Pool.{IsPoolFault};
ghost use Rattle.fund_steps.specs.Basis.{basis_of};
ghost use Rattle.fund_steps.specs.Plan.{IsPlan};
ghost use Rattle.fund_steps.specs.Selection.{unlisted};
ghost use Rattle.fund_steps.specs.declared.fault.PlanFault.TheVariants.{Memory as OutOfMemory};
ghost use Rattle.output_groups.specs.declared.fault.PoolFault.TheVariants.{Memory as NoMemory, TooMany};
ghost use Rattle.wallet_text.specs.WalletRules.{IsWatch};
ghost use Rattle.fee_sharing.specs.Sweep.{last_row};
ghost use Rattle.fund_gap.specs.Gap.{IsGapOf, gap_by, gap_from, gap_of, need_of};

use crate::reach::{Reach, reach_by};
use coin_candidates::Candidate;
use fee_rates::{PaymentLoad, Rates, Terms, fee, vsize};
use fund_base::Memory;
use fund_steps::{PlanBasis, PlanFault, Prepared, charges, value};
use output_groups::PoolFault;
use request_text::Request;
use std::alloc::Global;
use wallet_text::Watch;

/// What coins bring toward a payment, and what it needs.
#[derive(Clone, Copy)]
pub struct Gap {
    /// What the coins bring beyond their fees and prices, in satoshi; 0 where these take more than they are worth.
    pub brings: u128,
    /// What the payment needs beside these, in satoshi.
    pub needs: u64,
    /// What is missing of that, in satoshi, and what the coins lack of their own fees and prices.
    pub missing: u128,
}

/// What a payment needs beside the fees of its inputs, in satoshi.
fn need(rates: &Rates, load: &PaymentLoad) -> u64
    requires rates { AreRates rates.now }
    requires load { IsLoad load.now }
    ensures { result ≡ need_of rates.now.rate load.now }
{
    let terms = Terms::new(rates, load);
    load.paid + fee(rates.rate, vsize(terms.base)) + load.burden
}

/// What coins of this worth bring beyond these charges, and what is missing of what is needed, all in satoshi.
pub fn gap_from(worth: u128, charges: u128, needs: u64) -> Gap
    requires { charges ≤ 1_000_000_000_000_000_000_000_000 }
    ensures { result ≡ gap_from worth charges needs }
{
    Gap {
        brings: worth.saturating_sub(charges),
        needs,
        missing: (u128::from(needs) + charges).saturating_sub(worth),
    }
}

/// What is missing where coins may be added that come to this.
fn gap_by(funds: &PlanBasis, added: Reach) -> Gap
    requires value { added.value ≤ 2_100_000_000_000_000_000_000 }
    requires coins { added.coins ≤ 1_000_000 }
    ensures { result ≡ gap_by (basis_of funds.now) added }
{
    let rates = funds.rates();
    let load = funds.load();
    let presets = funds.presets();
    let coins = presets.len() as u64 + added.coins;
    let needs = need(&rates, &PaymentLoad { coins, ..load });
    let worth = u128::from(value(presets)) + added.value;
    gap_from(worth, charges(rates.rate, presets), needs)
}

/// What is missing of a plan that replaces no payment.
#[tactic(auto, unfolding(crate::specs::Gap::gap_of))]
fn gap_of(alloc: Global, request: &Request, funds: &PlanBasis) -> Result<Gap, PoolFault>
    requires { funds.now.request ≡ request.now }
    ensures gap { IfOk result (λ g. g ≡ gap_of (basis_of funds.now)) }
    ensures plan { IsPlan funds.now }
    ensures fault { IfErr result (IsPoolFault request.now.group (last_row request.now) request.now.rate (unlisted request.now.coins funds.now.candidates)) }
{
    funds.keeps_rules();
    let added = reach_by(alloc, request, funds.rest())?;
    Ok(gap_by(funds, added))
}

/// What is missing of a plan that is made, or that it is one of too many groups.
fn some_gap(gap: Result<Gap, PoolFault>) -> Result<Option<Gap>, Memory>
    ensures some { IfOk gap (λ g. result ≡ Ok (Some g)) }
    ensures many { (n : ℕ) → gap ≡ Err (TooMany n) → result ≡ Ok None }
    ensures short { gap ≡ Err NoMemory → OnOk result ⊥ }
{
    match gap {
        Ok(gap) => Ok(Some(gap)),
        Err(PoolFault::TooMany(_)) => Ok(None),
        Err(PoolFault::Memory) => Err(Memory),
    }
}

/// That no plan is made.
fn refused(fault: PlanFault) -> Result<Option<Gap>, Memory>
    ensures { IfOk result (λ o. (o ≡ None) × (fault ≢ OutOfMemory)) }
{
    match fault {
        PlanFault::Memory => Err(Memory),
        PlanFault::Total(_) | PlanFault::NotEligible(_) | PlanFault::TooMany(_, _) => Ok(None),
    }
}

/// What the coins of a request bring that may be spent, what its payment needs, and what is missing, in satoshi. By `manual` they are the
/// listed coins. By the other methods they are these and those that the last row of the ladder takes. There are none of these figures
/// where the request replaces a payment, or no plan of it is made.
///
/// The change script keeps the rules of a wallet's, and the candidates are at most 100,000, each outpoint once. The error is out of memory.
pub fn fund_gap(
    alloc: Global,
    request: &Request,
    change: &Watch,
    candidates: Vec<Candidate>,
) -> Result<Option<Gap>, Memory>
    requires change { IsWatch change.now }
    requires candidates { AreCandidates candidates.items }
    ensures { IfOk result (IsGapOf (record { request = request.now; change = change.now; candidates = candidates.items; bump = None })) }
{
    if request.bump.is_some() {
        return Ok(None);
    }
    match PlanBasis::new(alloc, request, change, candidates, None) {
        Ok(Prepared { funds, steps: _ }) => some_gap(gap_of(alloc, request, &funds)),
        Err(fault) => refused(fault),
    }
}
