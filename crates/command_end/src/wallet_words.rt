//! The words of a wallet file's faults.

ghost use Rattle.std.specs.Prelude.{◌≡◌};
ghost use Rattle.command_end.specs.Parts.{parts_text};
ghost use Rattle.command_end.specs.Words.{wallet_fault_words};

use crate::parts::{Part, alone, fixed};
use crate::transaction_words::tx_fault_part;
use wallet_text::WalletFault;

/// A fault of a wallet file by its variant's name, and its fields: names as they are shown, an index, a transaction's fault by
/// its words.
#[tactic(auto, unfolding(crate::specs::Words::wallet_fault_words))]
pub fn wallet_fault_parts(fault: &WalletFault) -> [Part; 4]
    ensures { parts_text result ≡ wallet_fault_words fault.now }
{
    match fault {
        WalletFault::NotJson => alone(Part::Text("NotJson")),
        WalletFault::Kind(name) => alone(fixed("Kind ", name)),
        WalletFault::Member(name) => alone(Part::Name("Member ", name.as_str())),
        WalletFault::Missing(name) => alone(fixed("Missing ", name)),
        WalletFault::Script(index) => alone(Part::Number("Script ", u64::from(*index))),
        WalletFault::Weight(index) => alone(Part::Number("Weight ", u64::from(*index))),
        WalletFault::Tx(list, index, fault) => [
            fixed("Tx ", list),
            Part::Number(" ", u64::from(*index)),
            Part::Text(" "),
            tx_fault_part(*fault),
        ],
        WalletFault::Repeat(list, index) => [
            fixed("Repeat ", list),
            Part::Number(" ", u64::from(*index)),
            Part::Nothing,
            Part::Nothing,
        ],
        WalletFault::ParentLater(index) => alone(Part::Number("ParentLater ", u64::from(*index))),
        WalletFault::Memory => alone(Part::Text("Memory")),
    }
}
