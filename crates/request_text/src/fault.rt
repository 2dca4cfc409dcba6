//! Why a request file is refused.

ghost use Rattle.std.specs.Prelude.{◌≡◌};
ghost use Rattle.json_fields.specs.declared.fault.FieldFault.TheVariants.{Memory as NoMemory};
ghost use Rattle.request_text.specs.Reported.{plain_fault};
ghost use Rattle.request_text.specs.declared.fault.Refusal.TheVariants.{Field as FieldRefusal};

use fund_base::Memory;
use json_fields::{FieldFault, Name};
use segwit_addr::AddrFault;
use std::alloc::{AllocError, AllocFailed};

/// Why a request file is refused: the first of its faults, as docs/FORMATS.md orders them. An index counts the entries
/// of a list from 0; one above 4,294,967,295 counts as that number.
#[derive(Drop)]
pub enum RequestFault {
    /// `serde_json` doesn't take the bytes.
    NotJson,
    /// The value of this name isn't of its kind, or a number is out of its range. The whole file is named `root`. A
    /// recipient that isn't an object, or that has both or neither of `address` and `script`, is named `recipients`.
    Kind(Name),
    /// An object has this member, which isn't known: of several, the least by bytes. Beside `bump` the member `coins`
    /// counts as one that isn't known.
    Member(String),
    /// An object lacks this member: of several, the first in the order of its table. A `seed` is lacking only where the
    /// method is left out, or is `auto` or `draw`.
    Missing(Name),
    /// The address of the recipient at this index is none, for this cause, which never is out of memory.
    Address(u32, AddrFault),
    /// The script of the recipient at this index is empty or longer than 10,000 bytes.
    Script(u32),
    /// The amount of the recipient at this index is above 21,000,000 bitcoin.
    AmountRange(u32),
    /// The amount of the recipient at this index is below its script's dust threshold.
    Dust(u32),
    /// The amounts are together above 21,000,000 bitcoin.
    SumRange,
    /// There is no recipient.
    NoRecipients,
    /// The rate of this name is above 100,000,000.
    RateRange(Name),
    /// The number of tries isn't in 1 to 10,000,000.
    TriesRange,
    /// The coin at this index of `coins` stands before it too.
    Repeat(u32),
    /// There was not enough memory.
    Memory,
}

/// The same faults, of which those that any JSON file may have are reported as by the crate that reads them.
#[derive(Drop)]
pub enum Refusal {
    Field(FieldFault),
    Address(u32, AddrFault),
    Script(u32),
    AmountRange(u32),
    Dust(u32),
    SumRange,
    NoRecipients,
    RateRange(Name),
    TriesRange,
    Repeat(u32),
}

impl From<FieldFault> for Refusal {
    ghost from_gives = { λ fault e. e ≡ FieldRefusal fault };

    fn from(fault: FieldFault) -> Refusal {
        Refusal::Field(fault)
    }
}

impl From<Memory> for Refusal {
    ghost from_gives = { λ _ e. e ≡ FieldRefusal NoMemory };

    fn from(_e: Memory) -> Refusal {
        Refusal::Field(FieldFault::Memory)
    }
}

impl From<AllocError> for Refusal {
    ghost from_gives = { λ _ e. e ≡ FieldRefusal NoMemory };

    fn from(_e: AllocError) -> Refusal {
        Refusal::Field(FieldFault::Memory)
    }
}

impl<T: Drop> From<AllocFailed<T>> for Refusal {
    ghost from_gives = { λ _ e. e ≡ FieldRefusal NoMemory };

    fn from(_e: AllocFailed<T>) -> Refusal {
        Refusal::Field(FieldFault::Memory)
    }
}

/// The fault of a JSON file. A name that the file spells is given out as a `String`.
fn field_told(fault: FieldFault) -> RequestFault
    ensures { plain_fault result ≡ FieldRefusal fault }
{
    match fault {
        FieldFault::NotJson => RequestFault::NotJson,
        FieldFault::Kind(name) => RequestFault::Kind(name),
        FieldFault::Member(name) => RequestFault::Member(name.into_string()),
        FieldFault::Missing(name) => RequestFault::Missing(name),
        FieldFault::Memory => RequestFault::Memory,
    }
}

/// The fault. It takes no memory.
pub(crate) fn told(refusal: Refusal) -> RequestFault
    ensures { plain_fault result ≡ refusal }
{
    match refusal {
        Refusal::Field(fault) => field_told(fault),
        Refusal::Address(index, fault) => RequestFault::Address(index, fault),
        Refusal::Script(index) => RequestFault::Script(index),
        Refusal::AmountRange(index) => RequestFault::AmountRange(index),
        Refusal::Dust(index) => RequestFault::Dust(index),
        Refusal::SumRange => RequestFault::SumRange,
        Refusal::NoRecipients => RequestFault::NoRecipients,
        Refusal::RateRange(name) => RequestFault::RateRange(name),
        Refusal::TriesRange => RequestFault::TriesRange,
        Refusal::Repeat(index) => RequestFault::Repeat(index),
    }
}
