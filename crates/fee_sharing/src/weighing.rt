//! What a payment weighs whose recipients bear the fee.

ghost use Rattle.std.specs.Prelude.{◌≡◌, ◌≤◌, ◌*◌, ℕ, None, Some, IfErr, IfOk};
ghost use Rattle.coin_candidates.specs.Candidates.{AreCandidates};
ghost use Rattle.fee_rates.specs.Output.{output_size_of};
ghost use Rattle.wallet_text.specs.WalletRules.{IsWatch};
ghost use Rattle.fund_plan.specs.Pays.{payment_weight};
ghost use Rattle.fund_steps.specs.Amounts.{AreWithin};
ghost use Rattle.fee_sharing.specs.RowShares.{IsShareRowFault, load_in};

use crate::fault::ShareRowFault;
use crate::row_shares::seen;
use crate::row_terms::{row_terms, unpriced_all};
use coin_candidates::Candidate;
use fee_rates::output_size;
use fund_steps::weight;
use output_groups::{Groups, Row};
use request_text::Request;
use std::alloc::Global;
use wallet_text::Watch;

/// What the change output weighs, if there is any, in weight units.
fn change_weight(change: &Watch, amount: Option<u64>) -> u64
    requires { IsWatch change.now }
    ensures none { amount ≡ None → result ≡ 0 }
    ensures some { (n : ℕ) → amount ≡ Some n → result ≡ 4 * output_size_of change.now.script }
    ensures most { result ≤ 100_000 }
{
    match amount {
        None => 0,
        Some(_) => 4 * output_size(&change.script),
    }
}

/// The declared weight of the payment of a row from these coins and with this change, which [`crate::share_row`] gave, in
/// weight units. The error is as there.
pub fn share_weight(
    alloc: Global,
    candidates: &[Candidate],
    request: &Request,
    change: &Watch,
    row: &Row,
    coins: &[Candidate],
    amount: Option<u64>,
) -> Result<u64, ShareRowFault>
    requires candidates { AreCandidates candidates.now }
    requires change { IsWatch change.now }
    requires coins { AreWithin coins.now }
    ensures value { IfOk result (λ w. w ≡ payment_weight (load_in request.now change.now row.now candidates.now) coins.now amount) }
    ensures many { IfErr result (IsShareRowFault request.now row.now candidates.now) }
{
    let unpriced = unpriced_all(alloc, candidates)?;
    let groups = Groups::new(alloc, &unpriced, 0, request.long_term, request.group)?;
    let seen = seen(alloc, &groups, row)?;
    let terms = row_terms(request, change, &seen.sizes);
    Ok(terms.base + weight(coins) + change_weight(change, amount))
}
