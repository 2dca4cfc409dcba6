//! The sentences of faults of a keys file.

ghost use Rattle.std.specs.Prelude.{◌≡◌};
ghost use Rattle.fault_lines.specs.Sentences.{keys_form_sentence, keys_kind_sentence, keys_member_sentence, keys_missing_sentence, keys_sentence};

use crate::stop::{Stop, stop_sentence};
use json_fields::FieldFault;
use keys_text::KeysFault;

/// The sentence of a value that isn't what has to stand there.
#[tactic(auto, unfolding(crate::specs::Sentences::keys_kind_sentence))]
pub fn keys_kind_sentence() -> &'static str
    ensures { result.now ≡ keys_kind_sentence }
{
    "The member of this name in the keys file is not what has to stand there: see the table of the keys file; an xpub stands in hex."
}

/// The sentence of a member whose name is not known.
#[tactic(auto, unfolding(crate::specs::Sentences::keys_member_sentence))]
pub fn keys_member_sentence() -> &'static str
    ensures { result.now ≡ keys_member_sentence }
{
    "The keys file has a member of a name that is not known: take it out, or spell it as the table of the keys file does."
}

/// The sentence of a member that has to be there and is not.
#[tactic(auto, unfolding(crate::specs::Sentences::keys_missing_sentence))]
pub fn keys_missing_sentence() -> &'static str
    ensures { result.now ≡ keys_missing_sentence }
{
    "The keys file lacks the member of this name: give it."
}

/// What to do about a keys file whose form isn't kept: the sentence of each fault.
#[tactic(auto, unfolding(crate::specs::Sentences::keys_form_sentence))]
pub fn keys_form_sentence(fault: &FieldFault) -> &'static str
    ensures { result.now ≡ keys_form_sentence fault.now }
{
    match fault {
        FieldFault::NotJson =>
            "The keys file is no JSON text: python3 -m json.tool FILE names the line; save it as UTF-8 without a byte order mark.",
        FieldFault::Kind(_) => keys_kind_sentence(),
        FieldFault::Member(_) => keys_member_sentence(),
        FieldFault::Missing(_) => keys_missing_sentence(),
        FieldFault::Memory => stop_sentence(Stop::Memory),
    }
}

/// What to do about a keys file that is refused: the sentence of each fault.
#[tactic(auto, unfolding(crate::specs::Sentences::keys_sentence))]
pub fn keys_sentence(fault: &KeysFault) -> &'static str
    ensures { result.now ≡ keys_sentence fault.now }
{
    match fault {
        KeysFault::Field(fault) => keys_form_sentence(fault),
        KeysFault::Script(_) =>
            "The script at this index of scripts stands there twice, is empty, or is longer than 10,000 bytes: take it out.",
        KeysFault::Redeem(_) =>
            "The entry at this index has a redeem script, and its script pays to no script hash: take the redeem script out, or copy the script again.",
        KeysFault::Witness(_) =>
            "The witness script at this index is not the one whose hash stands in the redeem script, or else in the script: copy all of them again.",
        KeysFault::Internal(_) =>
            "The entry at this index has an internal key and pays to no taproot output, or the other way round: give the key for taproot alone.",
        KeysFault::Key(_, _) =>
            "The key at the second index is no compressed public key, or for taproot not the internal key: copy it again.",
        KeysFault::RepeatKey(_, _) =>
            "The key at the second index stands before it in its entry: take it out.",
        KeysFault::Xpub(_) =>
            "The key at this index of xpubs is no extended public key, or its path has not as many steps as its depth says: copy both again.",
        KeysFault::RepeatXpub(_) =>
            "The key at this index of xpubs stands before it in the list: take it out.",
    }
}
