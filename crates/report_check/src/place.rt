//! Where the line of a report's tries begins.

ghost use Rattle.std.specs.Prelude.{◌≡◌, ◌≤◌, length};
ghost use Rattle.std.specs.Fmt.{decimal};
ghost use Rattle.closing_log.specs.LogText.{stage_word};
ghost use Rattle.closing_log.specs.MarkWord.{mark_word};
ghost use Rattle.report_check.specs.Proved.{tries_place};

use closing_log::{Mark, Stage};
use fund_report::Report;

/// How many digits a number has.
#[tactic(auto, using(crate::proofs::PlaceOfTries::one_digit, crate::proofs::PlaceOfTries::two_digits, crate::proofs::PlaceOfTries::three_digits))]
fn digits(number: u8) -> u64
    ensures value { result ≡ length (decimal number) }
    ensures most { result ≤ 3 }
{
    if number < 10 {
        1
    } else if number < 100 {
        2
    } else {
        3
    }
}

/// How long the word of a mark is.
fn mark_len(mark: Mark) -> u64
    ensures value { result ≡ length (mark_word mark) }
    ensures most { result ≤ 10 }
{
    match mark {
        Mark::Exhausted => 9,
        Mark::Partial => 7,
        Mark::Drawn => 5,
        Mark::Given => 5,
    }
}

/// How long the word of a stage is.
fn stage_len(stage: Stage) -> u64
    ensures value { result ≡ length (stage_word stage) }
    ensures most { result ≤ 10 }
{
    match stage {
        Stage::Presets => 7,
        Stage::Changeless => 10,
        Stage::LeanBig => 8,
        Stage::Draw => 4,
        Stage::LeanSmall => 10,
        Stage::Wide => 4,
    }
}

/// Where the line of a report's tries begins, in bytes from the report's first.
#[tactic(auto, using(crate::proofs::PlaceOfTries::funded_place))]
pub(crate) fn tries_place(report: &Report) -> u64
    ensures { result ≡ tries_place report.now }
{
    match report {
        Report::Funded(f) => 20 + mark_len(f.mark) + digits(f.row) + stage_len(f.stage),
        Report::NoSelection { .. } => 5,
        Report::Unfinished { .. } => 11,
    }
}
