//! Whether a report has the answer that its log gives.

ghost use Rattle.std.specs.Prelude.{◌≡◌, ◌≢◌, ◌↔◌, List, IfOk, IsTrue};
ghost use Rattle.closing_log.specs.declared.mark.Mark.TheVariants as mark;
ghost use Rattle.fund_plan.specs.Steps.{steps_of};
ghost use Rattle.fund_report.specs.declared.report.Report.TheVariants as reports;
ghost use Rattle.search_run.specs.Answer.{AreWhole};
ghost use Rattle.search_run.specs.Step.{AreSteps, PlainStep};
ghost use Rattle.report_check.specs.Answer.{IsAnswered, IsNamedAnswer, NamesOutcome};
ghost use Rattle.report_check.specs.Backing.{AreBacked, IsNamedBy};
ghost use Rattle.report_check.specs.DueSections.{AreFor, AreRight, AreUpTo};
ghost use Rattle.report_check.specs.Proved.{AreProved};

use crate::column_prefix::column_end;
use crate::log_answer::answer;
use crate::names::names;
use closing_log::{Mark, Section};
use fund_base::Memory;
use fund_plan::{Outcome, PaymentMaker};
use fund_report::{FundedReport, Report};
use request_text::Request;
use search_run::{End, Step};
use std::alloc::Global;

/// Whether a report is of a payment, or of none.
fn names_outcome(report: &Report, outcome: &Outcome) -> bool
    ensures { IsTrue result ↔ NamesOutcome report.now outcome.now }
{
    match report {
        Report::Funded(f) => {
            match outcome {
                Outcome::Funded(g) => names(f, g),
                Outcome::NoSelection => false,
                Outcome::Unfinished => false,
            }
        }
        Report::NoSelection { .. } => {
            match outcome {
                Outcome::Funded(_) => false,
                Outcome::NoSelection => true,
                Outcome::Unfinished => false,
            }
        }
        Report::Unfinished { .. } => false,
    }
}

/// Whether a report names what comes of the answer of these first steps, of which the sections are those of the searches,
/// each accepted. The error is out of memory.
fn names_answer(
    alloc: Global,
    seed: [u8; 32],
    funding: &PaymentMaker,
    searched: &[Step],
    report: &Report,
    sections: &[Section],
) -> Result<bool, Memory>
    requires seed { funding.now.request.seed ≡ seed }
    requires backed { AreBacked funding.now searched.now sections.now }
    ensures { IfOk result (λ b. IsNamedBy funding.now searched.now report.now b) }
{
    let found = answer(alloc, seed, searched, sections)?;
    let end = End::Ended(found);
    let outcome = funding.outcome(&end)?;
    Ok(names_outcome(report, &outcome))
}

/// Whether a report names the answer of all steps. The error is out of memory.
fn whole_answered(
    alloc: Global,
    seed: [u8; 32],
    funding: &PaymentMaker,
    steps: &[Step],
    report: &Report,
    sections: &[Section],
) -> Result<bool, Memory>
    requires seed { funding.now.request.seed ≡ seed }
    requires steps { steps.now ≡ steps_of funding.now }
    requires backed { AreBacked funding.now steps.now sections.now }
    ensures { IfOk result (λ b. IsTrue b ↔ IsNamedAnswer funding.now report.now sections.now) }
{
    let is = names_answer(alloc, seed, funding, steps, report, sections)?;
    Ok(is)
}

/// Whether a report of a payment that was found names the answer of the steps up to and with the column that it names. The
/// error is out of memory.
fn column_answered(
    alloc: Global,
    seed: [u8; 32],
    funding: &PaymentMaker,
    steps: &[Step],
    f: &FundedReport,
    report: &Report,
    sections: &[Section],
) -> Result<bool, Memory>
    requires seed { funding.now.request.seed ≡ seed }
    requires steps { steps.now ≡ steps_of funding.now }
    requires fine { AreSteps steps.now }
    requires report { report.now ≡ reports.Funded f.now }
    requires found { f.now.mark ≢ mark.Given }
    requires right { (due : List PlainStep) × AreUpTo steps.now f.now.row f.now.stage due × AreFor due sections.now }
    requires proved { AreProved steps.now sections.now }
    requires whole { AreWhole steps.now }
    ensures { IfOk result (λ b. IsTrue b ↔ IsNamedAnswer funding.now report.now sections.now) }
{
    let Some(end) = column_end(steps, f.row, f.stage) else {
        return Ok(false);
    };
    let is = names_answer(alloc, seed, funding, &steps[..end], report, sections)?;
    Ok(is)
}

/// Whether a report has the answer that these sections give, where that is asked. They are those that are due beside it,
/// and accepted. The error is out of memory.
pub(crate) fn is_answered(
    alloc: Global,
    request: &Request,
    funding: &PaymentMaker,
    steps: &[Step],
    report: &Report,
    sections: &[Section],
) -> Result<bool, Memory>
    requires request { funding.now.request ≡ request.now }
    requires steps { steps.now ≡ steps_of funding.now }
    requires fine { AreSteps steps.now }
    requires right { AreRight steps.now report.now sections.now }
    requires proved { AreProved steps.now sections.now }
    ensures { IfOk result (λ b. IsTrue b ↔ IsAnswered funding.now report.now sections.now) }
{
    match report {
        Report::Unfinished { .. } => Ok(true),
        Report::NoSelection { .. } => {
            whole_answered(alloc, request.seed, funding, steps, report, sections)
        }
        Report::Funded(f) => {
            match f.mark {
                Mark::Partial => Ok(true),
                // where there are steps the presets alone aren't the answer
                Mark::Given => {
                    if steps.is_empty() {
                        whole_answered(alloc, request.seed, funding, steps, report, sections)
                    } else {
                        Ok(false)
                    }
                }
                Mark::Exhausted => {
                    column_answered(alloc, request.seed, funding, steps, f, report, sections)
                }
                Mark::Drawn => {
                    column_answered(alloc, request.seed, funding, steps, f, report, sections)
                }
            }
        }
    }
}
