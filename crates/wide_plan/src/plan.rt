//! The wide search of a request.

ghost use Rattle.std.specs.Prelude.{◌≡◌, IfErr, IfOk, None};
ghost use Rattle.coin_candidates.specs.Candidates.{AreCandidates};
ghost use Rattle.fund_plan.specs.Steps.{steps_of};
ghost use Rattle.fund_steps.specs.Plan.{IsPlan, IsPlanFault};
ghost use Rattle.search_run.specs.Step.{AreSteps};
ghost use Rattle.wallet_text.specs.WalletRules.{IsWatch};
ghost use Rattle.wide_plan.specs.Asked.{IsForWide};
ghost use Rattle.wide_plan.specs.Payments.{ArePayments, CanEnd, CanPay, HasSelection};
ghost use Rattle.wide_plan.specs.Run.{by_end, paid_at, plan_from, run_of};
ghost use Rattle.wide_plan.specs.declared.outcome.WideOutcome.TheVariants as outcomes;

use crate::outcome::{WideOutcome, WideRun};
use crate::payment::pay;
use crate::rows::{Rows, RowsEnd, search_rows};
use closing_log::Mark;
use coin_candidates::Candidate;
use fund_base::{Memory, Places};
use fund_plan::PaymentMaker;
use fund_steps::{PlanBasis, PlanFault, Prepared};
use request_text::Request;
use std::alloc::Global;
use wallet_text::Watch;

/// The payment from places of the row of this number, as what the search comes to. The error is out of memory.
fn funded(
    alloc: Global,
    request: &Request,
    maker: &PaymentMaker,
    mark: Mark,
    number: u8,
    places: &Places,
) -> Result<WideOutcome, Memory>
    requires request { maker.now.request ≡ request.now }
    requires can { CanPay maker.now number places.now }
    ensures value { IfOk result (λ o. o ≡ outcomes.Funded (paid_at maker.now mark number places.now)) }
    ensures pays { IfOk result (ArePayments maker.now) }
    ensures fits { IfOk result (HasSelection maker.now) }
{
    let funded = pay(alloc, request, maker, mark, number, places.as_slice())?;
    Ok(WideOutcome::Funded(funded))
}

/// What an end of the search comes to: the best so far of an open walk is taken where the request asks for that. The error is
/// out of memory.
fn come_to(
    alloc: Global,
    request: &Request,
    maker: &PaymentMaker,
    end: &RowsEnd,
) -> Result<WideOutcome, Memory>
    requires request { maker.now.request ≡ request.now }
    requires can { CanEnd maker.now end.now }
    ensures value { IfOk result (λ o. o ≡ by_end maker.now end.now) }
    ensures pays { IfOk result (ArePayments maker.now) }
    ensures fits { IfOk result (HasSelection maker.now) }
{
    match end {
        RowsEnd::Found(number, places) => {
            funded(alloc, request, maker, Mark::Exhausted, *number, places)
        }
        RowsEnd::Nothing => Ok(WideOutcome::NoSelection),
        RowsEnd::Open(number, None) => Ok(WideOutcome::Unfinished(*number)),
        RowsEnd::Open(number, Some(places)) => {
            if request.take {
                funded(alloc, request, maker, Mark::Partial, *number, places)
            } else {
                Ok(WideOutcome::Unfinished(*number))
            }
        }
    }
}

/// The wide search of a request that it takes, with the request's tries. The change script is one that a wallet may
/// have: what change would cost bounds what may be left over. The candidates are at most 100,000, each outpoint once.
///
/// It goes through the rows of the ladder in order, each with the problem of its pool for a payment without change, and ends
/// at the first row that has a selection. Its best is that of least waste, and of these the first in lexical order. Where the
/// tries are used up before, the best so far of the row is taken if the request says so.
///
/// [`PlanFault::Total`] comes exactly where the candidates are worth more than 21,000,000 bitcoin together. Otherwise
/// [`PlanFault::TooMany`] comes exactly where a row of the request's ladder keeps more than 10,000 groups; it shows the first
/// such row. [`PlanFault::NotEligible`] never comes, since no coin is listed. [`PlanFault::Memory`] is out of memory.
pub fn search_wide(
    alloc: Global,
    request: &Request,
    change: &Watch,
    candidates: Vec<Candidate>,
) -> Result<WideRun, PlanFault>
    requires asked { IsForWide request.now }
    requires change { IsWatch change.now }
    requires candidates { AreCandidates candidates.items }
    ensures run { IfOk result (λ r. r ≡ run_of (plan_from request.now change.now candidates.items)) }
    ensures rules { IfOk result (λ _. IsPlan (plan_from request.now change.now candidates.items)) }
    ensures steps { IfOk result (λ _. AreSteps (steps_of (plan_from request.now change.now candidates.items))) }
    ensures pays { IfOk result (λ r. ArePayments (plan_from request.now change.now candidates.items) r.outcome) }
    ensures fits { IfOk result (λ r. HasSelection (plan_from request.now change.now candidates.items) r.outcome) }
    ensures fault { IfErr result (IsPlanFault (plan_from request.now change.now candidates.items)) }
{
    let Prepared { funds, steps } = PlanBasis::new(alloc, request, change, candidates, None)?;
    funds.keeps_rules();
    let rows = search_rows(alloc, &steps, request.tries)?;
    let Rows { end, closed, tries } = rows;
    let maker = PaymentMaker::new(alloc, request, funds);
    let outcome = come_to(alloc, request, &maker, &end)?;
    Ok(WideRun {
        outcome,
        sections: closed,
        tries,
    })
}
