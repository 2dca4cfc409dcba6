//! The words of a block file's faults.

ghost use Rattle.std.specs.Prelude.{◌≡◌};
ghost use Rattle.command_end.specs.Parts.{parts_text};
ghost use Rattle.command_end.specs.Words.{feed_fault_words};

use crate::parts::{Part, alone};
use crate::transaction_words::tx_fault_part;
use block_feed::FeedFault;

/// A fault of a block file by its variant's name, and its fields: a place in bytes or a height, a transaction's fault by its
/// words, hashes as they are shown.
#[tactic(auto, unfolding(crate::specs::Words::feed_fault_words))]
pub fn feed_fault_parts(fault: &FeedFault) -> [Part; 4]
    ensures { parts_text result ≡ feed_fault_words fault.now }
{
    match fault {
        FeedFault::Magic(place) => alone(Part::Number("Magic ", *place)),
        FeedFault::Length(place) => alone(Part::Number("Length ", *place)),
        FeedFault::Tx(height, fault) => [
            Part::Number("Tx ", u64::from(*height)),
            Part::Text(" "),
            tx_fault_part(*fault),
            Part::Nothing,
        ],
        FeedFault::Merkle(height) => alone(Part::Number("Merkle ", u64::from(*height))),
        FeedFault::Mutated(height) => alone(Part::Number("Mutated ", u64::from(*height))),
        FeedFault::NotLinked(kept, found) => [
            Part::Hash("NotLinked ", kept),
            Part::Hash(" ", found),
            Part::Nothing,
            Part::Nothing,
        ],
        FeedFault::Trailing(height) => alone(Part::Number("Trailing ", u64::from(*height))),
        FeedFault::Empty(height) => alone(Part::Number("Empty ", u64::from(*height))),
        FeedFault::Read => alone(Part::Text("Read")),
        FeedFault::Limit => alone(Part::Text("Limit")),
        FeedFault::Memory => alone(Part::Text("Memory")),
    }
}
