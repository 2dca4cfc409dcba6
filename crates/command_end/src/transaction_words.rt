//! The words of a transaction's faults.

ghost use Rattle.std.specs.Prelude.{◌≡◌};
ghost use Rattle.command_end.specs.Parts.{part_text};
ghost use Rattle.command_end.specs.Words.{tx_fault_words};

use crate::parts::Part;
use tx_codec::TxFault;

/// A fault of a transaction by its variant's name, and its field: a place in bytes, or an output's index.
#[tactic(auto, unfolding(crate::specs::Words::tx_fault_words))]
pub fn tx_fault_part<'a>(fault: TxFault) -> Part<'a>
    ensures { part_text result ≡ tx_fault_words fault }
{
    match fault {
        TxFault::Truncated(place) => Part::Number("Truncated ", place),
        TxFault::LongCompact(place) => Part::Number("LongCompact ", place),
        TxFault::ValueRange(output) => Part::Number("ValueRange ", u64::from(output)),
        TxFault::NoInputs => Part::Text("NoInputs"),
        TxFault::NoOutputs => Part::Text("NoOutputs"),
        TxFault::BadFlag => Part::Text("BadFlag"),
        TxFault::EmptyWitness => Part::Text("EmptyWitness"),
        TxFault::Trailing(place) => Part::Number("Trailing ", place),
        TxFault::Memory => Part::Text("Memory"),
    }
}
