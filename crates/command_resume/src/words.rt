//! What the line of a kept job that is refused says.

ghost use Rattle.std.specs.Prelude.{◌≡◌};
ghost use Rattle.command_end.specs.Parts.{part_text, parts_text};
ghost use Rattle.command_resume.specs.Words.{kept_status, kept_words};

use command_end::{Part, Status, log_fault_part};
use kept_job::KeptFault;

/// A part, and nothing behind it.
fn alone<'a>(part: Part<'a>) -> [Part<'a>; 3]
    ensures { parts_text result ≡ part_text part.entry }
{
    [part, Part::Nothing, Part::Nothing]
}

/// What a fault of a kept job says behind the word `fault`.
#[tactic(auto, unfolding(crate::specs::Words::kept_words))]
pub fn kept_parts(fault: &KeptFault) -> [Part; 3]
    ensures { parts_text result ≡ kept_words fault.now }
{
    match fault {
        KeptFault::NoJob => alone(Part::Text("saved NoJob")),
        KeptFault::Form(place) => alone(Part::Number("saved SavedForm ", *place)),
        KeptFault::JobElse(kept, now) => [
            Part::Digest("saved JobElse ", kept),
            Part::Digest(" ", now),
            Part::Nothing,
        ],
        KeptFault::Spent => alone(Part::Text("limit tries")),
        KeptFault::Part(n) => alone(Part::Number("saved SavedFalse Part ", u64::from(*n))),
        KeptFault::LongLog => alone(Part::Text("limit log")),
        KeptFault::Parts(kept, now) => [
            Part::Digest("saved SavedFalse Parts ", kept),
            Part::Digest(" ", now),
            Part::Nothing,
        ],
        KeptFault::Section(index) => alone(Part::Number("saved SavedFalse Section ", *index)),
        KeptFault::IllFormed => alone(Part::Text("saved SavedFalse IllFormed")),
        KeptFault::Log(index, fault) => [
            Part::Number("saved SavedFalse Log ", *index),
            Part::Text(" "),
            log_fault_part(*fault),
        ],
        KeptFault::Failed => alone(Part::Text("keep")),
        KeptFault::Memory => alone(Part::Text("memory")),
    }
}

/// The status of a kept job's fault.
pub fn kept_status(fault: &KeptFault) -> Status
    ensures { result ≡ kept_status fault.now }
{
    match fault {
        KeptFault::Spent | KeptFault::LongLog => Status::Limit,
        KeptFault::Failed => Status::KeepFault,
        KeptFault::Memory => Status::Memory,
        _ => Status::Saved,
    }
}
