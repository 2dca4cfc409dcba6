//! What is said of a keys file that isn't taken, and of keys that aren't added.

ghost use Rattle.std.specs.Prelude.{◌≡◌, ◌++◌, ◌∷◌, codes};
ghost use Rattle.std.specs.Fmt.{decimal};
ghost use Rattle.command_end.specs.Name.{shown_name};
ghost use Rattle.command_end.specs.Parts.{part_text, parts_text};
ghost use Rattle.keys_files.specs.Words.{field_fault_words, key_fault_words, keys_fault_words};

use command_end::{Part, psbt_fault_parts};
use json_fields::{FieldFault, Name};
use keys_text::KeysFault;
use psbt_keys::KeyFault;

/// An index behind a word.
fn at<'a>(word: &'static str, index: u32) -> [Part<'a>; 2]
    ensures { parts_text result ≡ word.now ++ decimal index }
{
    [Part::Number(word, u64::from(index)), Part::Nothing]
}

/// Two numbers behind a word.
fn at_both<'a>(word: &'static str, first: u32, second: u32) -> [Part<'a>; 2]
    ensures { parts_text result ≡ word.now ++ (decimal first ++ (32 ∷ decimal second)) }
{
    [
        Part::Number(word, u64::from(first)),
        Part::Number(" ", u64::from(second)),
    ]
}

/// A part, and nothing behind it.
fn alone<'a>(part: Part<'a>) -> [Part<'a>; 2]
    ensures { parts_text result ≡ part_text part.entry }
{
    [part, Part::Nothing]
}

/// The name that a format fixes, behind a word.
fn fixed<'a>(word: &'static str, name: &'a Name) -> Part<'a>
    ensures { part_text result ≡ word.now ++ shown_name name.now }
{
    Part::Name(word, name.as_str())
}

/// A fault of the form of a JSON file by its variant's name, and the name in it as it is shown.
#[tactic(auto, unfolding(crate::specs::Words::field_fault_words))]
fn field_fault_parts(fault: &FieldFault) -> [Part; 2]
    ensures { parts_text result ≡ field_fault_words fault.now }
{
    match fault {
        FieldFault::NotJson => alone(Part::Text("NotJson")),
        FieldFault::Kind(name) => alone(fixed("Kind ", name)),
        FieldFault::Member(name) => alone(Part::Name("Member ", name.as_str())),
        FieldFault::Missing(name) => alone(fixed("Missing ", name)),
        FieldFault::Memory => alone(Part::Text("Memory")),
    }
}

/// A fault of a keys file by its variant's name, and its fields: a name as it is shown, or one index or two.
#[tactic(auto, unfolding(crate::specs::Words::keys_fault_words))]
fn keys_fault_parts(fault: &KeysFault) -> [Part; 2]
    ensures { parts_text result ≡ keys_fault_words fault.now }
{
    match fault {
        KeysFault::Field(fault) => field_fault_parts(fault),
        KeysFault::Script(index) => at("Script ", *index),
        KeysFault::Redeem(index) => at("Redeem ", *index),
        KeysFault::Witness(index) => at("Witness ", *index),
        KeysFault::Internal(index) => at("Internal ", *index),
        KeysFault::Key(index, key) => at_both("Key ", *index, *key),
        KeysFault::RepeatKey(index, key) => at_both("RepeatKey ", *index, *key),
        KeysFault::Xpub(index) => at("Xpub ", *index),
        KeysFault::RepeatXpub(index) => at("RepeatXpub ", *index),
    }
}

/// What keeps keys from a PSBT by its variant's name, with the place of the pair in the way; or the PSBT's fault.
#[tactic(auto, unfolding(crate::specs::Words::key_fault_words))]
fn key_fault_parts<'a>(fault: KeyFault) -> [Part<'a>; 2]
    ensures { parts_text result ≡ key_fault_words fault }
{
    match fault {
        KeyFault::Psbt(fault) => psbt_fault_parts(fault),
        KeyFault::Global(number) => at("KeyGlobal ", number),
        KeyFault::Input(index, kind) => at_both("KeyInput ", index, u32::from(kind)),
        KeyFault::Output(index, kind) => at_both("KeyOutput ", index, u32::from(kind)),
    }
}

/// Parts behind words that name a file.
fn behind<'a>(word: &'static str, parts: [Part<'a>; 2]) -> [Part<'a>; 3]
    ensures { parts_text result ≡ word.now ++ parts_text parts.entry }
{
    let [first, second] = parts;
    [Part::Text(word), first, second]
}

/// What the refusal of a keys file says behind the word `fault`.
pub fn keys_refusal_parts(fault: &KeysFault) -> [Part; 3]
    ensures { parts_text result ≡ codes "input keys " ++ keys_fault_words fault.now }
{
    behind("input keys ", keys_fault_parts(fault))
}

/// What the refusal of a PSBT to which keys aren't added says behind the word `fault`.
pub fn key_refusal_parts<'a>(fault: KeyFault) -> [Part<'a>; 3]
    ensures { parts_text result ≡ codes "input psbt " ++ key_fault_words fault }
{
    behind("input psbt ", key_fault_parts(fault))
}
