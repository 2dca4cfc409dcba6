//! What is said of a report.

ghost use Rattle.std.specs.Prelude.{◌≡◌, ◌++◌, codes, IfOk, string_bytes};
ghost use Rattle.command_end.specs.Parts.{part_text, parts_text};
ghost use Rattle.command_check.specs.Words.{accepted_text, check_fault_words, evidence_word};

use crate::stop::CheckedFile;
use closing_log::Worded;
use command_end::{Part, log_fault_part, psbt_fault_parts};
use fund_base::Memory;
use fund_report::Report;
use report_check::CheckFault;
use std::alloc::Global;

/// How a fault line names a file that is judged.
pub fn evidence_word(file: CheckedFile) -> &'static str
    ensures { result.now ≡ evidence_word file }
{
    match file {
        CheckedFile::Report => "report",
        CheckedFile::Log => "log",
    }
}

/// A part, and nothing behind it.
fn alone<'a>(part: Part<'a>) -> [Part<'a>; 3]
    ensures { parts_text result ≡ part_text part.entry }
{
    [part, Part::Nothing, Part::Nothing]
}

/// What the line of a broken rule says behind the word `fault`: `check`, the variant's name and its fields, which are a place in
/// bytes or an index, a coin, or a fault.
#[tactic(auto, unfolding(crate::specs::Words::check_fault_words))]
pub fn broken_parts(fault: &CheckFault) -> [Part; 3]
    ensures { parts_text result ≡ codes "check " ++ check_fault_words fault.now }
{
    match fault {
        CheckFault::Report(place) => alone(Part::Number("check Report ", *place)),
        CheckFault::Psbt(fault) => {
            let [first, second] = psbt_fault_parts(*fault);
            [Part::Text("check Psbt "), first, second]
        }
        CheckFault::Coin(coin) => alone(Part::Coin("check Coin ", coin)),
        CheckFault::Pays => alone(Part::Text("check Pays")),
        CheckFault::LogForm(place) => alone(Part::Number("check LogForm ", *place)),
        CheckFault::Section(index) => alone(Part::Number("check Section ", u64::from(*index))),
        CheckFault::Log(index, fault) => [
            Part::Number("check Log ", u64::from(*index)),
            Part::Text(" "),
            log_fault_part(*fault),
        ],
        CheckFault::Answer => alone(Part::Text("check Answer")),
        CheckFault::Memory => alone(Part::Text("check Memory")),
    }
}

/// What is printed of a report that is accepted: that it is, and its first line. It refuses only when out of memory.
#[tactic(auto, unfolding(crate::specs::Words::accepted_text))]
pub fn accepted_text(alloc: Global, report: &Report) -> Result<String, Memory>
    ensures { IfOk result (λ text. string_bytes text ≡ accepted_text report.now) }
{
    match report {
        Report::Funded(f) => Ok(format!(in alloc; "accepted\nfunded {}\n", f.mark.word())?),
        Report::NoSelection { .. } => Ok(format!(in alloc; "accepted\nnone\n")?),
        Report::Unfinished { .. } => Ok(format!(in alloc; "accepted\nunfinished\n")?),
    }
}
