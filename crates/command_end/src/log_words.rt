//! The words of a closing log's faults.

ghost use Rattle.std.specs.Prelude.{◌≡◌};
ghost use Rattle.command_end.specs.Parts.{part_text};
ghost use Rattle.command_end.specs.Words.{log_fault_words};

use crate::parts::Part;
use log_checker::LogFault;

/// A fault of a closing log by its variant's name and its place, which counts the letters from 0.
#[tactic(auto, unfolding(crate::specs::Words::log_fault_words))]
pub fn log_fault_part<'a>(fault: LogFault) -> Part<'a>
    ensures { part_text result ≡ log_fault_words fault }
{
    match fault {
        LogFault::UnknownToken(place) => Part::Number("UnknownToken ", place),
        LogFault::ReasonFalse(place) => Part::Number("ReasonFalse ", place),
        LogFault::TooLong(place) => Part::Number("TooLong ", place),
        LogFault::Open => Part::Text("Open"),
        LogFault::AnswerNotMet => Part::Text("AnswerNotMet"),
        LogFault::BetterMet(place) => Part::Number("BetterMet ", place),
        LogFault::AnswerNotAdmissible => Part::Text("AnswerNotAdmissible"),
        LogFault::Memory => Part::Text("Memory"),
    }
}
