//! The words of the rules that a report breaks.

ghost use Rattle.std.specs.Prelude.{◌≡◌, option_copied};
ghost use Rattle.fault_lines.specs.Lines.{check_line};

use crate::coin::no_coin;
use crate::report_sentences::check_sentence;
use crate::word::begins;
use log_checker::LogFault;
use psbt_codec::PsbtFault;
use report_check::CheckFault;

/// The sentence of a rule that a report breaks, by its words. None where it has none.
#[tactic(auto, unfolding(crate::specs::Lines::check_line))]
pub fn check_line(words: &[u8]) -> Option<&'static str>
    ensures { option_copied result ≡ check_line words.now }
{
    if begins(words, b"Report ") {
        Some(check_sentence(&CheckFault::Report(0)))
    } else if begins(words, b"Psbt ") {
        Some(check_sentence(&CheckFault::Psbt(PsbtFault::Magic)))
    } else if begins(words, b"Coin ") {
        Some(check_sentence(&CheckFault::Coin(no_coin())))
    } else if begins(words, b"Pays") {
        Some(check_sentence(&CheckFault::Pays))
    } else if begins(words, b"LogForm ") {
        Some(check_sentence(&CheckFault::LogForm(0)))
    } else if begins(words, b"Section ") {
        Some(check_sentence(&CheckFault::Section(0)))
    } else if begins(words, b"Log ") {
        Some(check_sentence(&CheckFault::Log(0, LogFault::Open)))
    } else if begins(words, b"Answer") {
        Some(check_sentence(&CheckFault::Answer))
    } else if begins(words, b"Memory") {
        Some(check_sentence(&CheckFault::Memory))
    } else {
        None
    }
}
