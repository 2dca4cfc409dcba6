//! How a request ends whose files are read.

ghost use Rattle.std.specs.Prelude.{◌≡◌, All, None, IfErr, IfOk};
ghost use Rattle.closing_log.specs.LogText.{text_of as log_text_of};
ghost use Rattle.fund_plan.specs.Answer.{IsSelection};
ghost use Rattle.fund_plan.specs.Outcome.{is_partial};
ghost use Rattle.fund_plan.specs.State.{end_in};
ghost use Rattle.search_run.specs.Kept.{log_of};
ghost use Rattle.fund_report.specs.ReportText.{IsReportText};
ghost use Rattle.payment_states.specs.Makers.{HasMaker};
ghost use Rattle.psbt_codec.specs.Psbt.{IsPsbt};
ghost use Rattle.fund_files.specs.Chain.{IsChain};
ghost use Rattle.fund_payment.specs.Report.{psbt_of, report_of};
ghost use Rattle.fund_payment.specs.Shown.{ShowsCoins};
ghost use Rattle.command_inputs.specs.Outcome.{bump_fault_in, none_report, open_report, plan_of, terms_for};
ghost use Rattle.command_inputs.specs.PlanEnds.{CanEnd, IsAfter, IsConcluded, IsEndOf, IsNew, IsOpenAt, IsOpenReport, StopsPlan};

use crate::coins::{PlanCoins, plan_coins};
use crate::refusal::Stop;
use closing_log::write_sections;
use fee_bump::BumpTerms;
use fund_base::Memory;
use fund_files::Chain;
use fund_payment::payment_report;
use fund_plan::{Funded, Outcome, Plan};
use fund_report::{Report, write_report};
use request_text::Request;
use std::alloc::Global;

/// The texts of a run that came to its end.
#[derive(Drop)]
pub struct Texts {
    /// The report, which is printed.
    pub report: Vec<u8>,
    /// The log, which a payment from files writes before that.
    pub log: Vec<u8>,
}

/// A run that goes on: its report, its plan, which stands where the tries led, and what is known of its job.
#[derive(Drop)]
pub struct Left<J: Drop> {
    /// The bytes of the report, which says that tries are lacking.
    pub report: Vec<u8>,
    /// The plan.
    pub plan: Plan,
    /// What is known of its job beside the plan.
    pub job: J,
}

/// How a request ends that isn't refused. `J` is what is known of the job of a run that goes on.
#[derive(Drop)]
pub enum Ending<J: Drop> {
    /// The tries are used up, and a search is open.
    Unfinished(Left<J>),
    /// Nothing pays for what is asked, which the log proves.
    NoSelection(Texts),
    /// A payment, with its report.
    Funded(Texts),
}

/// A plan behind its tries, and what it came to.
#[derive(Drop)]
struct Run {
    plan: Plan,
    outcome: Outcome,
}

/// The plan of the request, of which no try is made yet. The terms are those of the replacement, where the request names a
/// payment to be replaced.
pub fn new_plan(
    alloc: Global,
    held: &Chain,
    request: &Request,
    terms: Option<BumpTerms>,
) -> Result<Plan, Stop>
    requires held { IsChain held.now }
    requires terms { terms ≡ terms_for held.now request.now }
    requires taken { bump_fault_in held.now request.now ≡ None }
    ensures plan { IfOk result (IsNew held.now request.now) }
    ensures stop { IfErr result (StopsPlan held.now request.now) }
{
    let PlanCoins { candidates, bump } = plan_coins(alloc, held, request, terms)?;
    let plan = Plan::new(alloc, request, &held.wallet.change, candidates, bump)?;
    Ok(plan)
}

/// A run of the request's plan, with the request's tries.
fn run_plan(
    alloc: Global,
    held: &Chain,
    request: &Request,
    terms: Option<BumpTerms>,
) -> Result<Run, Stop>
    requires held { IsChain held.now }
    requires terms { terms ≡ terms_for held.now request.now }
    requires taken { bump_fault_in held.now request.now ≡ None }
    ensures run { IfOk result (λ r. IsAfter (plan_of held.now request.now) request.now.tries r.plan r.outcome) }
    ensures stop { IfErr result (StopsPlan held.now request.now) }
{
    let mut plan = new_plan(alloc, held, request, terms)?;
    plan.keeps_rules();
    plan.keeps_steps();
    let outcome = plan.go(request.tries)?;
    Ok(Run { plan, outcome })
}

/// The text of a plan's log. The error is out of memory.
fn log_text(alloc: Global, plan: &Plan) -> Result<Vec<u8>, Memory>
    ensures { IfOk result (λ text. text.items ≡ log_text_of (log_of (is_partial (end_in plan.now)) plan.now.stand)) }
{
    let log = plan.log()?;
    let text = write_sections(alloc, &log)?;
    Ok(text)
}

/// The report of a run that goes on. The error is out of memory.
pub fn open_report(alloc: Global, plan: &Plan) -> Result<Vec<u8>, Memory>
    requires { IsOpenAt plan.now.stand.left }
    ensures text { IfOk result (λ text. text.items ≡ open_report plan.now.stand.past.tries plan.now.stand.left) }
    ensures means { IfOk result (λ text. IsOpenReport text.items plan.now.stand.past.tries plan.now.stand.left) }
{
    let tries = plan.tries();
    match plan.place() {
        Some(place) => {
            let report = Report::Unfinished {
                tries,
                row: place.row,
                stage: place.stage,
            };
            let text = write_report(alloc, &report)?;
            Ok(text)
        }
        None => unreachable!(),
    }
}

/// The report where nothing pays. The error is out of memory.
fn none_report(alloc: Global, plan: &Plan) -> Result<Vec<u8>, Memory>
    ensures text { IfOk result (λ text. text.items ≡ none_report plan.now.stand.past.tries) }
    ensures means { IfOk result (λ text. IsReportText text.items (Report.NoSelection plan.now.stand.past.tries)) }
{
    let report = Report::NoSelection {
        tries: plan.tries(),
    };
    let text = write_report(alloc, &report)?;
    Ok(text)
}

/// What is printed and written where nothing pays. The error is out of memory.
pub fn none_texts(alloc: Global, plan: &Plan) -> Result<Texts, Memory>
    ensures report { IfOk result (λ t. t.report.items ≡ none_report plan.now.stand.past.tries) }
    ensures means { IfOk result (λ t. IsReportText t.report.items (Report.NoSelection plan.now.stand.past.tries)) }
    ensures log { IfOk result (λ t. t.log.items ≡ log_text_of (log_of (is_partial (end_in plan.now)) plan.now.stand)) }
{
    let report = none_report(alloc, plan)?;
    let log = log_text(alloc, plan)?;
    Ok(Texts { report, log })
}

/// What is printed and written of a payment from coins whose transactions the book has. The error is out of memory.
pub fn paid_texts(
    alloc: Global,
    held: &Chain,
    request: &Request,
    plan: &Plan,
    funded: &Funded,
) -> Result<Texts, Memory>
    requires held { IsChain held.now }
    requires funded { IsSelection request.now funded.now }
    requires makers { All (HasMaker held.now.book) funded.now.coins }
    ensures report { IfOk result (λ t. t.report.items ≡ report_of held.now.book request.now held.now.wallet.change plan.now.stand.past.tries funded.now) }
    ensures fits { IfOk result (λ _. IsPsbt (psbt_of held.now.book request.now held.now.wallet.change funded.now)) }
    ensures shows { IfOk result (λ _. ShowsCoins funded.now.coins (psbt_of held.now.book request.now held.now.wallet.change funded.now)) }
    ensures log { IfOk result (λ t. t.log.items ≡ log_text_of (log_of (is_partial (end_in plan.now)) plan.now.stand)) }
{
    let report = payment_report(alloc, held, request, funded, plan.tries())?;
    let log = log_text(alloc, plan)?;
    Ok(Texts { report, log })
}

/// How a request ends by what a run of its plan came to. The error is out of memory.
pub fn ends<J: Drop>(
    alloc: Global,
    held: &Chain,
    request: &Request,
    plan: Plan,
    outcome: Outcome,
    job: J,
) -> Result<Ending<J>, Memory>
    requires held { IsChain held.now }
    requires can { CanEnd held.now request.now plan outcome }
    ensures { IfOk result (IsEndOf held.now request.now plan outcome job) }
{
    match outcome {
        Outcome::Unfinished => {
            let report = open_report(alloc, &plan)?;
            Ok(Ending::Unfinished(Left { report, plan, job }))
        }
        Outcome::NoSelection => {
            let texts = none_texts(alloc, &plan)?;
            Ok(Ending::NoSelection(texts))
        }
        Outcome::Funded(funded) => {
            let texts = paid_texts(alloc, held, request, &plan, &funded)?;
            Ok(Ending::Funded(texts))
        }
    }
}

/// How the request of a wallet ends, or its refusal: a run of its plan with the request's tries. The terms are those of the
/// replacement, where the request names a payment to be replaced.
pub fn conclude(
    alloc: Global,
    held: &Chain,
    request: &Request,
    terms: Option<BumpTerms>,
) -> Result<Ending<()>, Stop>
    requires held { IsChain held.now }
    requires terms { terms ≡ terms_for held.now request.now }
    requires taken { bump_fault_in held.now request.now ≡ None }
    ensures ends { IfOk result (IsConcluded held.now request.now) }
    ensures stop { IfErr result (StopsPlan held.now request.now) }
{
    let run = run_plan(alloc, held, request, terms)?;
    let Run { plan, outcome } = run;
    held.book.keeps_rules();
    let ending = ends(alloc, held, request, plan, outcome, ())?;
    Ok(ending)
}
