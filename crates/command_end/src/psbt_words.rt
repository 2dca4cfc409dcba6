//! The words of a PSBT's faults.

ghost use Rattle.std.specs.Prelude.{◌≡◌};
ghost use Rattle.command_end.specs.Parts.{parts_text};
ghost use Rattle.command_end.specs.Words.{psbt_fault_words};

use crate::parts::Part;
use crate::transaction_words::tx_fault_part;
use psbt_codec::PsbtFault;

/// A fault of a PSBT by its variant's name, and its field: a place in bytes, a version, the type of a field, an input's
/// index, or the fault of the unsigned transaction.
#[tactic(auto, unfolding(crate::specs::Words::psbt_fault_words))]
pub fn psbt_fault_parts<'a>(fault: PsbtFault) -> [Part<'a>; 2]
    ensures { parts_text result ≡ psbt_fault_words fault }
{
    match fault {
        PsbtFault::Magic => [Part::Text("Magic"), Part::Nothing],
        PsbtFault::Truncated(place) => [Part::Number("Truncated ", place), Part::Nothing],
        PsbtFault::LongCompact(place) => [Part::Number("LongCompact ", place), Part::Nothing],
        PsbtFault::RepeatKey(place) => [Part::Number("RepeatKey ", place), Part::Nothing],
        PsbtFault::NoUnsigned => [Part::Text("NoUnsigned"), Part::Nothing],
        PsbtFault::Unsigned(fault) => [Part::Text("Unsigned "), tx_fault_part(fault)],
        PsbtFault::NotBare => [Part::Text("NotBare"), Part::Nothing],
        PsbtFault::Field(place) => [Part::Number("Field ", place), Part::Nothing],
        PsbtFault::Version(n) => [Part::Number("Version ", u64::from(n)), Part::Nothing],
        PsbtFault::Mixed(place) => [Part::Number("Mixed ", place), Part::Nothing],
        PsbtFault::Lacking(kind) => [Part::Number("Lacking ", u64::from(kind)), Part::Nothing],
        PsbtFault::RequiredLock(n) => [Part::Number("RequiredLock ", u64::from(n)), Part::Nothing],
        PsbtFault::WrongParent(n) => [Part::Number("WrongParent ", u64::from(n)), Part::Nothing],
        PsbtFault::Trailing(place) => [Part::Number("Trailing ", place), Part::Nothing],
        PsbtFault::NotBase64 => [Part::Text("NotBase64"), Part::Nothing],
        PsbtFault::Memory => [Part::Text("Memory"), Part::Nothing],
    }
}
