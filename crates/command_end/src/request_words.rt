//! The words of a request file's faults.

ghost use Rattle.std.specs.Prelude.{◌≡◌};
ghost use Rattle.command_end.specs.Parts.{parts_text};
ghost use Rattle.command_end.specs.Words.{request_fault_words};

use crate::address_words::address_fault_word;
use crate::parts::{Part, alone, fixed};
use request_text::RequestFault;

/// A fault of a request file by its variant's name, and its fields: names as they are shown, an index, an address's fault by
/// its name.
#[tactic(auto, unfolding(crate::specs::Words::request_fault_words))]
pub fn request_fault_parts(fault: &RequestFault) -> [Part; 4]
    ensures { parts_text result ≡ request_fault_words fault.now }
{
    match fault {
        RequestFault::NotJson => alone(Part::Text("NotJson")),
        RequestFault::Kind(name) => alone(fixed("Kind ", name)),
        RequestFault::Member(name) => alone(Part::Name("Member ", name.as_str())),
        RequestFault::Missing(name) => alone(fixed("Missing ", name)),
        RequestFault::Address(index, fault) => [
            Part::Number("Address ", u64::from(*index)),
            Part::Text(" "),
            Part::Text(address_fault_word(*fault)),
            Part::Nothing,
        ],
        RequestFault::Script(index) => alone(Part::Number("Script ", u64::from(*index))),
        RequestFault::AmountRange(index) => alone(Part::Number("AmountRange ", u64::from(*index))),
        RequestFault::Dust(index) => alone(Part::Number("Dust ", u64::from(*index))),
        RequestFault::SumRange => alone(Part::Text("SumRange")),
        RequestFault::NoRecipients => alone(Part::Text("NoRecipients")),
        RequestFault::RateRange(name) => alone(fixed("RateRange ", name)),
        RequestFault::TriesRange => alone(Part::Text("TriesRange")),
        RequestFault::Repeat(index) => alone(Part::Number("Repeat ", u64::from(*index))),
        RequestFault::Memory => alone(Part::Text("Memory")),
    }
}
