//! The words of a request file's faults.

ghost use Rattle.std.specs.Prelude.{◌≡◌, option_copied};
ghost use Rattle.fault_lines.specs.Lines.{request_line, request_rest};

use crate::request_sentences::{
    rate_range_sentence, request_kind_sentence, request_member_sentence, request_missing_sentence,
    request_sentence,
};
use crate::transaction::address_line;
use crate::word::{after_word, begins, behind, word};
use request_text::RequestFault;

/// The sentence of one of the other faults of a request file. None where it has none.
#[tactic(auto, unfolding(crate::specs::Lines::request_rest))]
pub fn request_rest(words: &[u8]) -> Option<&'static str>
    ensures { option_copied result ≡ request_rest words.now }
{
    if begins(words, b"Dust ") {
        Some(request_sentence(&RequestFault::Dust(0)))
    } else if begins(words, b"SumRange") {
        Some(request_sentence(&RequestFault::SumRange))
    } else if begins(words, b"NoRecipients") {
        Some(request_sentence(&RequestFault::NoRecipients))
    } else if begins(words, b"RateRange ") {
        Some(rate_range_sentence())
    } else if begins(words, b"TriesRange") {
        Some(request_sentence(&RequestFault::TriesRange))
    } else if begins(words, b"Repeat ") {
        Some(request_sentence(&RequestFault::Repeat(0)))
    } else if begins(words, b"Memory") {
        Some(request_sentence(&RequestFault::Memory))
    } else {
        None
    }
}

/// The sentence of a request file's fault, by its words. None where it has none.
#[tactic(auto, unfolding(crate::specs::Lines::request_line))]
pub fn request_line(words: &[u8]) -> Option<&'static str>
    ensures { option_copied result ≡ request_line words.now }
{
    if begins(words, b"NotJson") {
        Some(request_sentence(&RequestFault::NotJson))
    } else if let Some(rest) = behind(words, b"Kind ") {
        Some(request_kind_sentence(word(rest)))
    } else if let Some(rest) = behind(words, b"Member ") {
        Some(request_member_sentence(word(rest)))
    } else if begins(words, b"Missing ") {
        Some(request_missing_sentence())
    } else if let Some(rest) = behind(words, b"Address ") {
        address_line(after_word(rest))
    } else if begins(words, b"Script ") {
        Some(request_sentence(&RequestFault::Script(0)))
    } else if begins(words, b"AmountRange ") {
        Some(request_sentence(&RequestFault::AmountRange(0)))
    } else {
        request_rest(words)
    }
}
