//! The words of a kept job's faults.

ghost use Rattle.std.specs.Prelude.{◌≡◌, option_copied};
ghost use Rattle.fault_lines.specs.Lines.{kept_line};

use crate::kept_sentences::kept_sentence;
use crate::word::begins;
use kept_job::KeptFault;
use log_checker::LogFault;

/// The sentence of a kept job's fault, by its words. None where it has none.
#[tactic(auto, unfolding(crate::specs::Lines::kept_line))]
pub fn kept_line(words: &[u8]) -> Option<&'static str>
    ensures { option_copied result ≡ kept_line words.now }
{
    if begins(words, b"NoJob") {
        Some(kept_sentence(&KeptFault::NoJob))
    } else if begins(words, b"SavedForm ") {
        Some(kept_sentence(&KeptFault::Form(0)))
    } else if begins(words, b"JobElse ") {
        Some(kept_sentence(&KeptFault::JobElse([0; 32], [0; 32])))
    } else if begins(words, b"SavedFalse Part ") {
        Some(kept_sentence(&KeptFault::Part(0)))
    } else if begins(words, b"SavedFalse Parts ") {
        Some(kept_sentence(&KeptFault::Parts([0; 32], [0; 32])))
    } else if begins(words, b"SavedFalse Section ") {
        Some(kept_sentence(&KeptFault::Section(0)))
    } else if begins(words, b"SavedFalse IllFormed") {
        Some(kept_sentence(&KeptFault::IllFormed))
    } else if begins(words, b"SavedFalse Log ") {
        Some(kept_sentence(&KeptFault::Log(0, LogFault::Open)))
    } else {
        None
    }
}
