//! The sections that are due beside a report.

ghost use Rattle.std.specs.Prelude.{◌≤◌, [], List, length, IfErr, OnOk};
ghost use Rattle.search_run.specs.Answer.{AreWhole};
ghost use Rattle.search_run.specs.Step.{PlainStep};
ghost use Rattle.report_check.specs.DueSections.{AreFor, AreRight, AreRightBy, AreUpTo, IsFirstWrong, IsWrongBy, PartsHere};
ghost use Rattle.report_check.specs.Refused.{IsSectionRefusal};

use crate::column_prefix::column_end;
use crate::fault::CheckFault;
use crate::sections::{are_all, are_some};
use closing_log::{Mark, Section, Stage};
use fund_report::Report;
use search_run::Step;

/// That the sections are those of the searches up to and with the column of a stage in a row, and that there is none where
/// no column has that stage. Otherwise the index of the first that is wrong.
#[tactic(auto, using(crate::proofs::RightLaws::none_right, crate::proofs::RightLaws::none_wrong, crate::proofs::RightLaws::some_right, crate::proofs::RightLaws::some_wrong))]
fn up_to_column(steps: &[Step], row: u8, stage: Stage, sections: &[Section]) -> Result<(), u32>
    requires few { length steps.now ≤ 1_000 }
    requires whole { AreWhole steps.now }
    ensures right { OnOk result ((due : List PlainStep) × AreUpTo steps.now row stage due × AreFor due sections.now) }
    ensures wrong { IfErr result (λ i. (due : List PlainStep) × AreUpTo steps.now row stage due × IsFirstWrong PartsHere due sections.now i) }
{
    match column_end(steps, row, stage) {
        None => are_all(&steps[..0], sections),
        Some(end) => are_all(&steps[..end], sections),
    }
}

/// That the sections are those that are due beside a payment by its mark, row and stage. Otherwise the index of the first
/// that is wrong.
#[tactic(auto, using(crate::proofs::RightLaws::given_right, crate::proofs::RightLaws::given_wrong))]
fn beside(
    steps: &[Step],
    mark: Mark,
    row: u8,
    stage: Stage,
    sections: &[Section],
) -> Result<(), u32>
    requires few { length steps.now ≤ 1_000 }
    requires whole { AreWhole steps.now }
    ensures right { OnOk result (AreRightBy mark steps.now row stage sections.now) }
    ensures wrong { IfErr result (λ i. IsWrongBy mark steps.now row stage sections.now i) }
{
    match mark {
        Mark::Exhausted => up_to_column(steps, row, stage, sections),
        Mark::Drawn => up_to_column(steps, row, stage, sections),
        Mark::Partial => are_some(steps, sections),
        Mark::Given => are_all(&steps[..0], sections),
    }
}

/// That the sections are those that are due beside a report.
pub(crate) fn are_due(
    steps: &[Step],
    report: &Report,
    sections: &[Section],
) -> Result<(), CheckFault>
    requires few { length steps.now ≤ 1_000 }
    requires whole { AreWhole steps.now }
    ensures right { OnOk result (AreRight steps.now report.now sections.now) }
    ensures wrong { IfErr result (IsSectionRefusal steps.now report.now sections.now) }
{
    let judged = match report {
        Report::Funded(f) => beside(steps, f.mark, f.row, f.stage, sections),
        Report::NoSelection { .. } => are_all(steps, sections),
        Report::Unfinished { .. } => return Ok(()),
    };
    match judged {
        Ok(()) => Ok(()),
        Err(index) => Err(CheckFault::Section(index)),
    }
}
