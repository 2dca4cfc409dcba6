//! The words of a keys file's faults.

ghost use Rattle.std.specs.Prelude.{◌≡◌, option_copied};
ghost use Rattle.fault_lines.specs.Lines.{keys_line, keys_rest};

use crate::keys_sentences::{
    keys_form_sentence, keys_kind_sentence, keys_member_sentence, keys_missing_sentence,
    keys_sentence,
};
use crate::word::begins;
use json_fields::FieldFault;
use keys_text::KeysFault;

/// The sentence of a fault behind the form, by its words. None where it has none.
#[tactic(auto, unfolding(crate::specs::Lines::keys_rest))]
fn keys_rest(words: &[u8]) -> Option<&'static str>
    ensures { option_copied result ≡ keys_rest words.now }
{
    if begins(words, b"Script ") {
        Some(keys_sentence(&KeysFault::Script(0)))
    } else if begins(words, b"Redeem ") {
        Some(keys_sentence(&KeysFault::Redeem(0)))
    } else if begins(words, b"Witness ") {
        Some(keys_sentence(&KeysFault::Witness(0)))
    } else if begins(words, b"Internal ") {
        Some(keys_sentence(&KeysFault::Internal(0)))
    } else if begins(words, b"Key ") {
        Some(keys_sentence(&KeysFault::Key(0, 0)))
    } else if begins(words, b"RepeatKey ") {
        Some(keys_sentence(&KeysFault::RepeatKey(0, 0)))
    } else if begins(words, b"Xpub ") {
        Some(keys_sentence(&KeysFault::Xpub(0)))
    } else if begins(words, b"RepeatXpub ") {
        Some(keys_sentence(&KeysFault::RepeatXpub(0)))
    } else {
        None
    }
}

/// The sentence of a keys file's fault, by its words. None where it has none.
#[tactic(auto, unfolding(crate::specs::Lines::keys_line))]
pub fn keys_line(words: &[u8]) -> Option<&'static str>
    ensures { option_copied result ≡ keys_line words.now }
{
    if begins(words, b"NotJson") {
        Some(keys_form_sentence(&FieldFault::NotJson))
    } else if begins(words, b"Kind ") {
        Some(keys_kind_sentence())
    } else if begins(words, b"Member ") {
        Some(keys_member_sentence())
    } else if begins(words, b"Missing ") {
        Some(keys_missing_sentence())
    } else if begins(words, b"Memory") {
        Some(keys_form_sentence(&FieldFault::Memory))
    } else {
        keys_rest(words)
    }
}
