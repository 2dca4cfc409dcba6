//! What is wrong with the file of a signed transaction.

ghost use Rattle.std.specs.Prelude.{◌≡◌, option_copied};
ghost use Rattle.fault_lines.specs.Lines.{signed_line};
ghost use Rattle.fault_lines.specs.Sentences.{signed_sentence};

use crate::stop::{Stop, stop_sentence};
use crate::word::begins;
use tx_codec::TxFault;

/// What to do about a signed transaction that can't be read: the sentence of each fault.
#[tactic(auto, unfolding(crate::specs::Sentences::signed_sentence))]
pub fn signed_sentence(fault: &TxFault) -> &'static str
    ensures { result.now ≡ signed_sentence fault.now }
{
    match fault {
        TxFault::Truncated(_) =>
            "The signed transaction was cut off, or a txid or a PSBT stands in its place: give its whole hex, as finalizepsbt tells it.",
        TxFault::LongCompact(_) =>
            "The signed transaction has a number in a spelling that is too long: it was changed, so copy it again.",
        TxFault::ValueRange(_) =>
            "The outputs of the signed transaction are worth more than all bitcoin: it was changed, so copy it again.",
        TxFault::NoInputs =>
            "The signed transaction has no input: it was changed or is no transaction, so copy its whole hex again.",
        TxFault::NoOutputs =>
            "The signed transaction has no output: it was changed or is no transaction, so copy its whole hex again.",
        TxFault::BadFlag =>
            "The signed transaction has a marker of witnesses without its flag: it was changed, so copy it again.",
        TxFault::EmptyWitness =>
            "The transaction announces witnesses and has none: it was changed or is not signed, so give the hex that the signer made.",
        TxFault::Trailing(_) =>
            "Bytes stand behind the signed transaction: leave off what is behind it.",
        TxFault::Memory => stop_sentence(Stop::Memory),
    }
}

/// The sentence of what is wrong with the file of a signed transaction, by its words. None where it has none.
#[tactic(auto, unfolding(crate::specs::Lines::signed_line))]
pub fn signed_line(words: &[u8]) -> Option<&'static str>
    ensures { option_copied result ≡ signed_line words.now }
{
    if begins(words, b"Hex") {
        Some(stop_sentence(Stop::NotHex))
    } else if begins(words, b"Truncated ") {
        Some(signed_sentence(&TxFault::Truncated(0)))
    } else if begins(words, b"LongCompact ") {
        Some(signed_sentence(&TxFault::LongCompact(0)))
    } else if begins(words, b"ValueRange ") {
        Some(signed_sentence(&TxFault::ValueRange(0)))
    } else if begins(words, b"NoInputs") {
        Some(signed_sentence(&TxFault::NoInputs))
    } else if begins(words, b"NoOutputs") {
        Some(signed_sentence(&TxFault::NoOutputs))
    } else if begins(words, b"BadFlag") {
        Some(signed_sentence(&TxFault::BadFlag))
    } else if begins(words, b"EmptyWitness") {
        Some(signed_sentence(&TxFault::EmptyWitness))
    } else if begins(words, b"Trailing ") {
        Some(signed_sentence(&TxFault::Trailing(0)))
    } else if begins(words, b"Memory") {
        Some(signed_sentence(&TxFault::Memory))
    } else {
        None
    }
}
