//! The words of a wallet file's faults.

ghost use Rattle.std.specs.Prelude.{◌≡◌, option_copied};
ghost use Rattle.fault_lines.specs.Lines.{wallet_line};

use crate::transaction::tx_line;
use crate::wallet_sentences::{
    wallet_kind_sentence, wallet_member_sentence, wallet_missing_sentence, wallet_repeat_sentence,
    wallet_sentence,
};
use crate::word::{after_word, begins, behind, word};
use wallet_text::WalletFault;

/// The sentence of a wallet file's fault, by its words. None where it has none.
#[tactic(auto, unfolding(crate::specs::Lines::wallet_line))]
pub fn wallet_line(words: &[u8]) -> Option<&'static str>
    ensures { option_copied result ≡ wallet_line words.now }
{
    if begins(words, b"NotJson") {
        Some(wallet_sentence(&WalletFault::NotJson))
    } else if let Some(rest) = behind(words, b"Kind ") {
        Some(wallet_kind_sentence(word(rest)))
    } else if begins(words, b"Member ") {
        Some(wallet_member_sentence())
    } else if begins(words, b"Missing ") {
        Some(wallet_missing_sentence())
    } else if begins(words, b"Script ") {
        Some(wallet_sentence(&WalletFault::Script(0)))
    } else if begins(words, b"Weight ") {
        Some(wallet_sentence(&WalletFault::Weight(0)))
    } else if let Some(rest) = behind(words, b"Tx ") {
        tx_line(after_word(after_word(rest)))
    } else if begins(words, b"Repeat ") {
        Some(wallet_repeat_sentence())
    } else if begins(words, b"ParentLater ") {
        Some(wallet_sentence(&WalletFault::ParentLater(0)))
    } else if begins(words, b"Memory") {
        Some(wallet_sentence(&WalletFault::Memory))
    } else {
        None
    }
}
