//! Plans of payments.

ghost use Rattle.std.specs.Prelude.{◌≡◌, None, IfOk};
ghost use Rattle.coin_candidates.specs.Candidates.{AreCandidates};
ghost use Rattle.fund_plan.specs.Answer.{HasSelection, IsSelection};
ghost use Rattle.wallet_text.specs.WalletRules.{IsWatch};

use crate::reports::put_figures;
use coin_candidates::Candidate;
use fund_base::{Memory, Script};
use fund_plan::{Figures, Funded, Outcome, Plan, unsigned};
use fund_steps::PlanFault;
use request_text::{Request, read_request};
use row_columns::Answer;
use std::alloc::Global;
use tx_codec::write_tx;
use wallet_text::Watch;

/// Puts why there is no plan.
fn put_fault(out: &mut Answer, fault: PlanFault) {
    match fault {
        PlanFault::Total(sum) => out.large("total ", sum),
        PlanFault::NotEligible(point) => {
            out.number("not eligible ", u64::from(point.txid.bytes()[0]));
            out.number(":", u64::from(point.index));
        }
        PlanFault::TooMany(row, groups) => {
            out.number("row ", u64::from(row));
            out.number(", ", groups);
            out.word(" groups");
        }
        PlanFault::Memory => out.lack(),
    }
}

/// Puts the change, the figures and the unsigned transaction of a payment. The error is out of memory.
fn put_paid(
    out: &mut Answer,
    request: &Request,
    change: &Watch,
    funded: &Funded,
) -> Result<(), Memory>
    requires { IsSelection request.now funded.now }
{
    match funded.change {
        Some(amount) => out.number("change ", amount),
        None => out.word("change none"),
    }
    let figures = Figures::new(request, funded);
    put_figures(
        out,
        figures.weight,
        figures.vsize,
        figures.fee,
        figures.waste,
    );
    let tx = unsigned(out.alloc, request, change, funded)?;
    out.written(", paid by ", write_tx(out.alloc, &tx));
    Ok(())
}

/// What the plan comes to with so many tries.
fn outcome(plan: &mut Plan, tries: u64) -> Result<Outcome, Memory>
    ensures { IfOk result (HasSelection plan.old.plan.request) }
{
    let outcome = plan.go(tries)?;
    Ok(outcome)
}

/// Puts what a plan of the candidates comes to. The error is out of memory.
fn put_plan(
    out: &mut Answer,
    request: &Request,
    change: &Watch,
    candidates: Vec<Candidate>,
) -> Result<(), Memory>
    requires bump { request.now.bump ≡ None }
    requires change { IsWatch change.now }
    requires candidates { AreCandidates candidates.items }
{
    let mut plan = match Plan::new(out.alloc, request, change, candidates, None) {
        Ok(plan) => plan,
        Err(fault) => {
            put_fault(out, fault);
            return Ok(());
        }
    };
    match outcome(&mut plan, request.tries)? {
        Outcome::Funded(funded) => return put_paid(out, request, change, &funded),
        Outcome::NoSelection => out.word("none"),
        Outcome::Unfinished => out.word("unfinished"),
    }
    Ok(())
}

/// A change that is paid to a witness program of 20 bytes CC, with an input of weight 272.
fn change_of(alloc: Global) -> Result<Watch, Memory>
    ensures { IfOk result (λ w. IsWatch w) }
{
    let mut script = [0xcc; 22];
    script[0] = 0;
    script[1] = 20;
    Ok(Watch {
        script: Script::new(Vec::from_slice(alloc, &script)?),
        weight: 272,
    })
}

/// Puts what the candidates come to by the text of a request, which replaces nothing. The error is out of memory.
pub(crate) fn plan(
    out: &mut Answer,
    request: &str,
    candidates: Vec<Candidate>,
) -> Result<(), Memory>
    requires { AreCandidates candidates.items }
{
    let Ok(request) = read_request(out.alloc, request.as_bytes()) else {
        out.word("no request");
        return Ok(());
    };
    if request.bump.is_some() {
        out.word("another request");
        return Ok(());
    }
    let change = change_of(out.alloc)?;
    put_plan(out, &request, &change, candidates)
}
