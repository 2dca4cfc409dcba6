//! The words of faults within faults: of a transaction and of an address.

ghost use Rattle.std.specs.Prelude.{◌≡◌, option_copied};
ghost use Rattle.fault_lines.specs.Lines.{address_line, tx_line};

use crate::address_sentences::address_sentence;
use crate::transaction_sentences::tx_sentence;
use crate::word::begins;
use segwit_addr::AddrFault;
use tx_codec::TxFault;

/// The sentence of a transaction's fault, by its words. None where it has none.
#[tactic(auto, unfolding(crate::specs::Lines::tx_line))]
pub fn tx_line(words: &[u8]) -> Option<&'static str>
    ensures { option_copied result ≡ tx_line words.now }
{
    if begins(words, b"Truncated ") {
        Some(tx_sentence(&TxFault::Truncated(0)))
    } else if begins(words, b"LongCompact ") {
        Some(tx_sentence(&TxFault::LongCompact(0)))
    } else if begins(words, b"ValueRange ") {
        Some(tx_sentence(&TxFault::ValueRange(0)))
    } else if begins(words, b"NoInputs") {
        Some(tx_sentence(&TxFault::NoInputs))
    } else if begins(words, b"NoOutputs") {
        Some(tx_sentence(&TxFault::NoOutputs))
    } else if begins(words, b"BadFlag") {
        Some(tx_sentence(&TxFault::BadFlag))
    } else if begins(words, b"EmptyWitness") {
        Some(tx_sentence(&TxFault::EmptyWitness))
    } else if begins(words, b"Trailing ") {
        Some(tx_sentence(&TxFault::Trailing(0)))
    } else if begins(words, b"Memory") {
        Some(tx_sentence(&TxFault::Memory))
    } else {
        None
    }
}

/// The sentence of an address's fault, by its word. None where it has none.
#[tactic(auto, unfolding(crate::specs::Lines::address_line))]
pub fn address_line(words: &[u8]) -> Option<&'static str>
    ensures { option_copied result ≡ address_line words.now }
{
    if begins(words, b"Case") {
        Some(address_sentence(&AddrFault::Case))
    } else if begins(words, b"Separator") {
        Some(address_sentence(&AddrFault::Separator))
    } else if begins(words, b"Letter") {
        Some(address_sentence(&AddrFault::Letter))
    } else if begins(words, b"Checksum") {
        Some(address_sentence(&AddrFault::Checksum))
    } else if begins(words, b"Network") {
        Some(address_sentence(&AddrFault::Network))
    } else if begins(words, b"Version") {
        Some(address_sentence(&AddrFault::Version))
    } else if begins(words, b"Length") {
        Some(address_sentence(&AddrFault::Length))
    } else if begins(words, b"Padding") {
        Some(address_sentence(&AddrFault::Padding))
    } else if begins(words, b"Memory") {
        Some(address_sentence(&AddrFault::Memory))
    } else {
        None
    }
}
