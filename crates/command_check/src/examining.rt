//! What a report of the files is judged against.

ghost use Rattle.std.specs.Prelude.{◌≡◌, ◌≢◌, None, IfErr, IfOk};
ghost use Rattle.fund_shelf.specs.Causes.{OnlyReads};
ghost use Rattle.fund_files.specs.Chain.{IsChain};
ghost use Rattle.fund_files.specs.declared.refusal.File.{File};
ghost use Rattle.fund_plan.specs.Selection.{PlainFunded};
ghost use Rattle.fund_steps.specs.Plan.{IsPlan};
ghost use Rattle.command_end.specs.Names.{plain_sources};
ghost use Rattle.command_inputs.specs.Outcome.{bump_fault_in, plan_of, terms_for};
ghost use Rattle.command_inputs.specs.Inputs.{AsksInOrder, NoneBehind};
ghost use Rattle.command_inputs.specs.Names.{plain_payment};
ghost use Rattle.command_inputs.specs.PlanEnds.{StopsPlan};
ghost use Rattle.command_inputs.specs.Replacing.{PaysTheBurden, ReplacesIf};
ghost use Rattle.command_inputs.specs.Stops.{StopsFor};
ghost use Rattle.command_check.specs.Evidence.{IsReplacingPlan};

use command_end::Sources;
use command_inputs::{Inputs, Payment, PlanCoins, Stop, plan_coins, read_inputs};
use fee_bump::BumpTerms;
use fund_files::Chain;
use fund_shelf::Shelf;
use report_check::ReportChecker;
use request_text::Request;
use std::alloc::Global;

/// What reports on a request of a wallet are judged against: the plan of the request. The terms are those of the replacement,
/// where the request names a payment to be replaced.
fn made(
    alloc: Global,
    held: Chain,
    request: Request,
    terms: Option<BumpTerms>,
) -> Result<ReportChecker, Stop>
    requires held { IsChain held }
    requires terms { terms ≡ terms_for held request }
    requires taken { bump_fault_in held request ≡ None }
    ensures made { IfOk result (λ e. e ≡ plan_of held request) }
    ensures rules { IfOk result IsPlan }
    ensures replaces { IfOk result (λ e. (f : PlainFunded) → PaysTheBurden e f → ReplacesIf held.wallet held.book request f) }
    ensures stop { IfErr result (StopsPlan held request) }
{
    held.book.keeps_rules();
    let PlanCoins { candidates, bump } = plan_coins(alloc, &held, &request, terms)?;
    let wallet = held.wallet;
    let change = wallet.change;
    let examiner = ReportChecker::new(alloc, request, change, candidates, bump)?;
    examiner.keeps_rules();
    Ok(examiner)
}

/// What reports of the files of a payment are judged against. Where they are refused, it is for the cause for which no
/// payment is funded.
pub fn examiner<H: Shelf>(
    alloc: Global,
    sources: &Sources,
    payment: &Payment,
    shelf: &mut H,
) -> Result<ReportChecker, Stop>
    ensures plan { IfOk result (IsReplacingPlan H.tells (H.view shelf.old).files (plain_sources sources.now) (plain_payment payment.now)) }
    ensures frame { OnlyReads H.tells (H.view shelf.old) (H.view shelf.new) }
    ensures stop { IfErr result (StopsFor H.tells (plain_sources sources.now) (plain_payment payment.now) (H.view shelf.old) (H.view shelf.new)) }
    ensures asked { H.tells → AsksInOrder (plain_sources sources.now) (plain_payment payment.now) (H.view shelf.old) (H.view shelf.new) }
    ensures none_behind { H.tells → NoneBehind (plain_sources sources.now) (H.view shelf.old) (H.view shelf.new) }
    ensures all_read { ((file : File) → result ≢ Err (Stop.Read file)) → (H.view shelf.new).reads ≡ (H.view shelf.old).reads }
{
    let Inputs {
        held,
        request,
        terms,
    } = read_inputs(alloc, sources, payment, shelf)?;
    made(alloc, held, request, terms)
}
