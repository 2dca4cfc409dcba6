//! The sentences of faults of a rule that a report breaks.

ghost use Rattle.std.specs.Prelude.{◌≡◌};
ghost use Rattle.fault_lines.specs.Sentences.{check_sentence};

use crate::stop::{Stop, stop_sentence};
use report_check::CheckFault;

/// What to do about a report that is not accepted: the sentence of each fault.
#[tactic(auto, unfolding(crate::specs::Sentences::check_sentence))]
pub fn check_sentence(fault: &CheckFault) -> &'static str
    ensures { result.now ≡ check_sentence fault.now }
{
    match fault {
        CheckFault::Report(_) =>
            "The report leaves its form at this place, or its tries are not those of its log: give both as they were written.",
        CheckFault::Psbt(_) => "The PSBT of the report was cut or changed: copy it again.",
        CheckFault::Coin(_) =>
            "An input spends a coin that may not be spent by these files: they are of another moment, or the report is of another request.",
        CheckFault::Pays =>
            "Do not sign it: it pays otherwise than the request asks, or the report is of another request.",
        CheckFault::LogForm(_) =>
            "The log leaves its form at this place: give LOG as it was written.",
        CheckFault::Section(_) =>
            "The log is of another request, wallet or chain: give the files of the report.",
        CheckFault::Log(_, _) => "The log proves nothing of a search: fund the payment anew.",
        CheckFault::Answer => "Do not believe the mark of the report: fund the payment anew.",
        CheckFault::Memory => stop_sentence(Stop::Memory),
    }
}
