//! The sentences of faults of a transaction.

ghost use Rattle.std.specs.Prelude.{◌≡◌};
ghost use Rattle.fault_lines.specs.Sentences.{tx_sentence};

use crate::stop::{Stop, stop_sentence};
use tx_codec::TxFault;

/// What to do about a transaction that is no transaction: the sentence of each fault.
#[tactic(auto, unfolding(crate::specs::Sentences::tx_sentence))]
pub fn tx_sentence(fault: &TxFault) -> &'static str
    ensures { result.now ≡ tx_sentence fault.now }
{
    match fault {
        TxFault::Truncated(_) =>
            "A transaction was cut off in copying, or a txid stands in its place: copy its whole hex again, as gettransaction tells it.",
        TxFault::LongCompact(_) =>
            "A transaction has a number in a spelling that is too long: it was changed, so copy it again.",
        TxFault::ValueRange(_) =>
            "The outputs of a transaction are worth more than all bitcoin: it was changed or made up, so copy it again.",
        TxFault::NoInputs =>
            "A transaction has no input: it was changed or is not finished, so copy the one that is in the chain or was sent.",
        TxFault::NoOutputs =>
            "A transaction has no output: it was changed or is not finished, so copy the one that is in the chain or was sent.",
        TxFault::BadFlag =>
            "A transaction has a marker of witnesses without its flag: it was changed, so copy it again.",
        TxFault::EmptyWitness =>
            "A transaction announces witnesses and has none: it was changed or is not signed, so copy it again.",
        TxFault::Trailing(_) => "Bytes stand behind a transaction: leave off what is behind it.",
        TxFault::Memory => stop_sentence(Stop::Memory),
    }
}
