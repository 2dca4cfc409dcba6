//! The words of the faults of a PSBT that is made whole.

ghost use Rattle.std.specs.Prelude.{◌≡◌, option_copied};
ghost use Rattle.fault_lines.specs.Lines.{psbt_line, psbt_rest};

use crate::psbt_sentences::{
    key_global_sentence, key_input_sentence, key_output_sentence, missing_sentence,
    other_output_sentence, other_pairs_sentence, psbt_sentence,
};
use crate::word::begins;
use psbt_codec::PsbtFault;
use tx_codec::TxFault;

/// The sentence of one of the other faults of a PSBT. None where it has none.
#[tactic(auto, unfolding(crate::specs::Lines::psbt_rest))]
pub fn psbt_rest(words: &[u8]) -> Option<&'static str>
    ensures { option_copied result ≡ psbt_rest words.now }
{
    if begins(words, b"Version ") {
        Some(psbt_sentence(&PsbtFault::Version(0)))
    } else if begins(words, b"Mixed ") {
        Some(psbt_sentence(&PsbtFault::Mixed(0)))
    } else if begins(words, b"Lacking ") {
        Some(psbt_sentence(&PsbtFault::Lacking(0)))
    } else if begins(words, b"RequiredLock ") {
        Some(psbt_sentence(&PsbtFault::RequiredLock(0)))
    } else if begins(words, b"WrongParent ") {
        Some(psbt_sentence(&PsbtFault::WrongParent(0)))
    } else if begins(words, b"Trailing ") {
        Some(psbt_sentence(&PsbtFault::Trailing(0)))
    } else if begins(words, b"NotBase64") {
        Some(psbt_sentence(&PsbtFault::NotBase64))
    } else if begins(words, b"OtherPairs") {
        Some(other_pairs_sentence())
    } else if begins(words, b"Missing ") {
        Some(missing_sentence())
    } else if begins(words, b"OtherOutput ") {
        Some(other_output_sentence())
    } else if begins(words, b"KeyGlobal ") {
        Some(key_global_sentence())
    } else if begins(words, b"KeyInput ") {
        Some(key_input_sentence())
    } else if begins(words, b"KeyOutput ") {
        Some(key_output_sentence())
    } else if begins(words, b"Memory") {
        Some(psbt_sentence(&PsbtFault::Memory))
    } else {
        None
    }
}

/// The sentence of a PSBT's fault, by its words. None where it has none.
#[tactic(auto, unfolding(crate::specs::Lines::psbt_line))]
pub fn psbt_line(words: &[u8]) -> Option<&'static str>
    ensures { option_copied result ≡ psbt_line words.now }
{
    if begins(words, b"Magic") {
        Some(psbt_sentence(&PsbtFault::Magic))
    } else if begins(words, b"Truncated ") {
        Some(psbt_sentence(&PsbtFault::Truncated(0)))
    } else if begins(words, b"LongCompact ") {
        Some(psbt_sentence(&PsbtFault::LongCompact(0)))
    } else if begins(words, b"RepeatKey ") {
        Some(psbt_sentence(&PsbtFault::RepeatKey(0)))
    } else if begins(words, b"NoUnsigned") {
        Some(psbt_sentence(&PsbtFault::NoUnsigned))
    } else if begins(words, b"Unsigned ") {
        Some(psbt_sentence(&PsbtFault::Unsigned(TxFault::NoInputs)))
    } else if begins(words, b"NotBare") {
        Some(psbt_sentence(&PsbtFault::NotBare))
    } else if begins(words, b"Field ") {
        Some(psbt_sentence(&PsbtFault::Field(0)))
    } else {
        psbt_rest(words)
    }
}
