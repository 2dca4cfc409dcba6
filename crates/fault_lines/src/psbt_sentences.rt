//! The sentences of faults of a PSBT that is to be made whole.

ghost use Rattle.std.specs.Prelude.{◌≡◌};
ghost use Rattle.fault_lines.specs.Sentences.{key_global_sentence, key_input_sentence, key_output_sentence, missing_sentence, other_output_sentence, other_pairs_sentence, psbt_sentence};

use crate::stop::{Stop, stop_sentence};
use psbt_codec::PsbtFault;

/// What to do about a PSBT that can't be read: the sentence of each fault.
#[tactic(auto, unfolding(crate::specs::Sentences::psbt_sentence))]
pub fn psbt_sentence(fault: &PsbtFault) -> &'static str
    ensures { result.now ≡ psbt_sentence fault.now }
{
    match fault {
        PsbtFault::Magic =>
            "The file is no PSBT: its text begins with cHNidP, so give the PSBT that was printed.",
        PsbtFault::Truncated(_) => "The PSBT was cut off: copy it again.",
        PsbtFault::LongCompact(_) =>
            "The PSBT has a number in a spelling that is too long: it was changed, so copy it again.",
        PsbtFault::RepeatKey(_) => "The PSBT has a key twice: it was changed, so copy it again.",
        PsbtFault::NoUnsigned =>
            "The PSBT has no unsigned transaction, as one of version 0 has: it was changed, so copy it again.",
        PsbtFault::Unsigned(_) =>
            "The transaction of the PSBT can not be read: the PSBT was changed, so copy it again.",
        PsbtFault::NotBare =>
            "The transaction of the PSBT is signed already: give the PSBT that was printed.",
        PsbtFault::Field(_) =>
            "A field of the PSBT is not as its type asks: the PSBT was changed, so copy it again.",
        PsbtFault::Version(_) =>
            "The PSBT is of a version that is not read: ask for one of version 0 or 2.",
        PsbtFault::Mixed(_) =>
            "The PSBT is of version 2 and has the unsigned transaction of version 0 too: give the PSBT that was printed.",
        PsbtFault::Lacking(_) =>
            "The PSBT is of version 2 and lacks a field of this type: it was cut or changed, so copy it again.",
        PsbtFault::RequiredLock(_) =>
            "An input of the PSBT asks for a lock time of its own: give the PSBT that was printed, which asks for none.",
        PsbtFault::WrongParent(_) =>
            "The whole transaction beside an input is not the one that the input spends: give the PSBT that was printed.",
        PsbtFault::Trailing(_) => "Bytes stand behind the PSBT: leave off what is behind it.",
        PsbtFault::NotBase64 => "The PSBT is not spelled in base64: copy it again, on one line.",
        PsbtFault::Memory => stop_sentence(Stop::Memory),
    }
}

/// What to do about a PSBT of which the transaction of an input isn't there.
#[tactic(auto, unfolding(crate::specs::Sentences::missing_sentence))]
pub fn missing_sentence() -> &'static str
    ensures { result.now ≡ missing_sentence }
{
    "Neither the files nor the PSBT have the transaction that an input spends: give the files from which it was funded."
}

/// What to do about a PSBT of which an input shows another output than the one that it spends.
#[tactic(auto, unfolding(crate::specs::Sentences::other_output_sentence))]
pub fn other_output_sentence() -> &'static str
    ensures { result.now ≡ other_output_sentence }
{
    "Do not sign it: an input shows another output than the one that it spends has."
}

/// What to do about a PSBT that has pairs which would get lost.
#[tactic(auto, unfolding(crate::specs::Sentences::other_pairs_sentence))]
pub fn other_pairs_sentence() -> &'static str
    ensures { result.now ≡ other_pairs_sentence }
{
    "The PSBT has more than was printed, as signatures: give the PSBT that was printed."
}

/// What to do about a PSBT that tells an extended public key otherwise than the keys file.
#[tactic(auto, unfolding(crate::specs::Sentences::key_global_sentence))]
pub fn key_global_sentence() -> &'static str
    ensures { result.now ≡ key_global_sentence }
{
    "The PSBT has the extended public key of this number in the keys file with another origin: find out which is right before you sign."
}

/// What to do about a PSBT that tells a key or a script of an input otherwise than the keys file.
#[tactic(auto, unfolding(crate::specs::Sentences::key_input_sentence))]
pub fn key_input_sentence() -> &'static str
    ensures { result.now ≡ key_input_sentence }
{
    "The PSBT tells a key or a script of the input at this index in another way than the keys file: find out which is right before you sign."
}

/// What to do about a PSBT that tells a key or a script of an output otherwise than the keys file.
#[tactic(auto, unfolding(crate::specs::Sentences::key_output_sentence))]
pub fn key_output_sentence() -> &'static str
    ensures { result.now ≡ key_output_sentence }
{
    "The PSBT tells a key or a script of the output at this index in another way than the keys file: find out which is right before you sign."
}
