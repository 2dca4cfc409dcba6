//! The words of the rules that a signed transaction breaks.

ghost use Rattle.std.specs.Prelude.{◌≡◌, option_copied};
ghost use Rattle.fault_lines.specs.Lines.{differing_line, settle_line};

use crate::settle_sentences::{differing_sentence, settle_sentence};
use crate::word::{begins, behind};
use psbt_codec::PsbtFault;
use settle_check::{Differing, SettleFault};

/// The sentence of in what a signed transaction is another payment, by its words. None where it has none.
#[tactic(auto, unfolding(crate::specs::Lines::differing_line))]
pub fn differing_line(words: &[u8]) -> Option<&'static str>
    ensures { option_copied result ≡ differing_line words.now }
{
    if begins(words, b"Version") {
        Some(differing_sentence(&Differing::Version))
    } else if begins(words, b"Locktime") {
        Some(differing_sentence(&Differing::Locktime))
    } else if begins(words, b"Count") {
        Some(differing_sentence(&Differing::Count))
    } else if begins(words, b"Input ") {
        Some(differing_sentence(&Differing::Input(0)))
    } else if begins(words, b"Output ") {
        Some(differing_sentence(&Differing::Output(0)))
    } else {
        None
    }
}

/// The sentence of a rule that a signed transaction breaks, by its words. None where it has none.
#[tactic(auto, unfolding(crate::specs::Lines::settle_line))]
pub fn settle_line(words: &[u8]) -> Option<&'static str>
    ensures { option_copied result ≡ settle_line words.now }
{
    if begins(words, b"Report ") {
        Some(settle_sentence(&SettleFault::Report(0)))
    } else if begins(words, b"NotFunded") {
        Some(settle_sentence(&SettleFault::NotFunded))
    } else if begins(words, b"Psbt ") {
        Some(settle_sentence(&SettleFault::Psbt(PsbtFault::Magic)))
    } else if begins(words, b"NoValue ") {
        Some(settle_sentence(&SettleFault::NoValue(0)))
    } else if begins(words, b"Foreign ") {
        Some(settle_sentence(&SettleFault::Foreign(0)))
    } else if let Some(rest) = behind(words, b"Differs ") {
        differing_line(rest)
    } else if begins(words, b"Unsigned ") {
        Some(settle_sentence(&SettleFault::Unsigned(0)))
    } else if begins(words, b"Heavier ") {
        Some(settle_sentence(&SettleFault::Heavier(0, 0, 0)))
    } else if begins(words, b"TooHeavy ") {
        Some(settle_sentence(&SettleFault::TooHeavy(0)))
    } else if begins(words, b"BelowRate ") {
        Some(settle_sentence(&SettleFault::BelowRate(0, 0)))
    } else {
        None
    }
}
