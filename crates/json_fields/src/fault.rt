//! Why a value of a JSON file is refused.

ghost use Rattle.std.specs.Prelude.{◌≡◌, ◌≢◌, List, ℕ, IfOk, string_bytes};
ghost use Rattle.json_fields.specs.declared.fault.FieldFault.TheVariants.{Kind, Member, Missing, Memory as NoMemory};

use fund_base::Memory;
use std::alloc::{AllocError, AllocFailed, Global};
use std::marker::Model;

/// A name that a format fixes: that of a member, of a list, or the one under which a whole file is reported. It takes no
/// memory. It isn't `Copy`: contracts see its letters and not where they lie, from which no second one could be made.
#[derive(Drop)]
pub struct Name(&'static str);

impl Model for Name {
    ghost use Rattle.std.specs.Prelude.{List, ℕ};

    ghost Value = { List ℕ };

    ghost view = { λ n. n.0.now };
}

impl Name {
    /// The name of this text.
    pub fn new(text: &'static str) -> Name
        ensures { result ≡ text.now }
    {
        Name(text)
    }

    /// The text of the name.
    pub fn as_str(&self) -> &'static str
        ensures { result.now ≡ self.now }
    {
        self.0
    }
}

/// The name of a member as a file spells it, which may be any text.
#[derive(Drop)]
pub struct MemberName {
    text: String,
}

impl Model for MemberName {
    ghost use Rattle.std.specs.Prelude.{List, ℕ, string_bytes};

    ghost Value = { List ℕ };

    ghost view = { λ n. string_bytes n.text };
}

impl MemberName {
    /// The name of this text. The error is out of memory.
    pub fn new(alloc: Global, text: &str) -> Result<MemberName, Memory>
        ensures { IfOk result (λ n. n ≡ text.now) }
    {
        let text = String::from_str(alloc, text)?;
        Ok(MemberName { text })
    }

    /// The text of the name.
    pub fn as_str(&self) -> &str
        ensures { result.now ≡ self.now }
    {
        self.text.as_str()
    }

    /// The text of the name, which takes no memory.
    pub fn into_string(self) -> String
        ensures { string_bytes result ≡ self }
    {
        self.text
    }
}

/// What is wrong with a JSON file, in the order in which it is tested.
#[derive(Drop)]
pub enum FieldFault {
    /// `serde_json` doesn't take the bytes.
    NotJson,
    /// The value of this name isn't of its kind, or a number is out of its range.
    Kind(Name),
    /// An object has this member, which isn't known: of several, the least by bytes.
    Member(MemberName),
    /// An object lacks this member: of several, the first in the order of its table.
    Missing(Name),
    /// There was not enough memory.
    Memory,
}

impl From<Memory> for FieldFault {
    ghost from_gives = { λ _ e. e ≡ NoMemory };

    fn from(_e: Memory) -> FieldFault {
        FieldFault::Memory
    }
}

impl From<AllocError> for FieldFault {
    ghost from_gives = { λ _ e. e ≡ NoMemory };

    fn from(_e: AllocError) -> FieldFault {
        FieldFault::Memory
    }
}

impl<T: Drop> From<AllocFailed<T>> for FieldFault {
    ghost from_gives = { λ _ e. e ≡ NoMemory };

    fn from(_e: AllocFailed<T>) -> FieldFault {
        FieldFault::Memory
    }
}

impl FieldFault {
    /// That the value of this name isn't of its kind.
    pub fn kind(name: &'static str) -> FieldFault
        ensures { result ≡ Kind name.now }
    {
        FieldFault::Kind(Name::new(name))
    }

    /// That a member of this name isn't known. The name is stored: where it can't be, the fault is out of memory.
    pub fn member(alloc: Global, name: &str) -> FieldFault
        ensures { result ≢ NoMemory → result ≡ Member name.now }
    {
        match MemberName::new(alloc, name) {
            Ok(name) => FieldFault::Member(name),
            Err(_) => FieldFault::Memory,
        }
    }

    /// That the member of this name is missing.
    pub fn missing(name: &'static str) -> FieldFault
        ensures { result ≡ Missing name.now }
    {
        FieldFault::Missing(Name::new(name))
    }
}
