//! The rules of a log beside a report, up to the answer that it gives.

ghost use Rattle.std.specs.Prelude.{◌≡◌, ◌↔◌, ◌≤◌, length, IfErr, IsTrue, OnOk};
ghost use Rattle.search_run.specs.Answer.{AreWhole};
ghost use Rattle.report_check.specs.DueSections.{AreRight};
ghost use Rattle.report_check.specs.Proved.{AreProved, HasTries, tries_place};
ghost use Rattle.report_check.specs.Refused.{BreaksBefore};
ghost use Rattle.report_check.specs.Verdict.{HasLog};
ghost use Rattle.report_check.specs.declared.fault.CheckFault.TheVariants.{Report as BadTries};

use crate::checked::check_all;
use crate::due_sections::are_due;
use crate::fault::CheckFault;
use crate::place::tries_place;
use crate::tries::are_tries;
use closing_log::{Mark, Section};
use fund_report::Report;
use search_run::Step;
use std::alloc::Global;

/// Whether a report has the tries of these sections, where that is asked.
fn has_tries(report: &Report, sections: &[Section]) -> bool
    ensures { IsTrue result ↔ HasTries report.now sections.now }
{
    match report {
        Report::Funded(f) => {
            match f.mark {
                Mark::Partial => true,
                Mark::Exhausted | Mark::Drawn | Mark::Given => are_tries(sections, f.tries),
            }
        }
        Report::NoSelection { tries } => are_tries(sections, *tries),
        Report::Unfinished { .. } => true,
    }
}

/// That a report has the tries of these sections, where that is asked. It takes no memory.
fn check_tries(report: &Report, sections: &[Section]) -> Result<(), CheckFault>
    requires { HasLog report.now }
    ensures right { OnOk result (HasTries report.now sections.now) }
    ensures wrong { IfErr result (λ e. (e ≡ BadTries (tries_place report.now)) × (HasTries report.now sections.now → ⊥)) }
{
    if !has_tries(report, sections) {
        return Err(CheckFault::Report(tries_place(report)));
    }
    Ok(())
}

/// That the sections are those that are due beside a report, that each is accepted, and that the report has their tries.
pub(crate) fn are_backing(
    alloc: Global,
    steps: &[Step],
    report: &Report,
    sections: &[Section],
) -> Result<(), CheckFault>
    requires few { length steps.now ≤ 1_000 }
    requires whole { AreWhole steps.now }
    requires log { HasLog report.now }
    ensures right { OnOk result (AreRight steps.now report.now sections.now) }
    ensures proved { OnOk result (AreProved steps.now sections.now) }
    ensures tries { OnOk result (HasTries report.now sections.now) }
    ensures fault { IfErr result (BreaksBefore steps.now report.now sections.now) }
{
    are_due(steps, report, sections)?;
    check_all(alloc, steps, sections)?;
    check_tries(report, sections)?;
    Ok(())
}
