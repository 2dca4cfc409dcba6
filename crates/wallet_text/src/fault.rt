//! Why a wallet file is refused.

ghost use Rattle.std.specs.Prelude.{◌≡◌};
ghost use Rattle.json_fields.specs.declared.fault.FieldFault.TheVariants.{Memory as NoMemory};
ghost use Rattle.wallet_text.specs.Reported.{refusal_of};
ghost use Rattle.wallet_text.specs.declared.fault.Refusal.TheVariants.{Field, Tx};

use fund_base::Memory;
use json_fields::{FieldFault, Name};
use std::alloc::{AllocError, AllocFailed};
use tx_codec::TxFault;

/// What is wrong with a wallet file: the first in the order in which it is tested. An index above 4,294,967,295 counts
/// as that number.
#[derive(Drop)]
pub enum WalletFault {
    /// `serde_json` doesn't take the bytes.
    NotJson,
    /// The value of this name isn't of its kind, or a number is out of its range. The whole has the name `root`.
    Kind(Name),
    /// An object has this member, which isn't known: of several, the least by bytes.
    Member(String),
    /// An object lacks this member: of several, the first in the order of its table.
    Missing(Name),
    /// The script at this index of `scripts` stands before it too, is empty, or is longer than 10,000 bytes. The index
    /// of `change`, which needs the same length, is the number of scripts.
    Script(u32),
    /// The weight there isn't in 165 to 400,000.
    Weight(u32),
    /// The entry at this index of the list, which is `earlier` or `pending`, isn't a transaction.
    Tx(Name, u32, TxFault),
    /// The txid of the entry at this index stood before in the same list.
    Repeat(Name, u32),
    /// The pending transaction at this index spends an output of itself, or of one after it.
    ParentLater(u32),
    /// There was not enough memory.
    Memory,
}

/// The same, as the reader holds it: a fault of the form, or a rule that is broken.
#[derive(Drop)]
pub enum Refusal {
    Field(FieldFault),
    Script(u32),
    Weight(u32),
    Tx(Name, u32, TxFault),
    Repeat(Name, u32),
    ParentLater(u32),
}

impl From<FieldFault> for Refusal {
    ghost from_gives = { λ f e. e ≡ Field f };

    fn from(fault: FieldFault) -> Refusal {
        Refusal::Field(fault)
    }
}

impl From<Memory> for Refusal {
    ghost from_gives = { λ _ e. e ≡ Field NoMemory };

    fn from(_e: Memory) -> Refusal {
        Refusal::Field(FieldFault::Memory)
    }
}

impl From<AllocError> for Refusal {
    ghost from_gives = { λ _ e. e ≡ Field NoMemory };

    fn from(_e: AllocError) -> Refusal {
        Refusal::Field(FieldFault::Memory)
    }
}

impl<T: Drop> From<AllocFailed<T>> for Refusal {
    ghost from_gives = { λ _ e. e ≡ Field NoMemory };

    fn from(_e: AllocFailed<T>) -> Refusal {
        Refusal::Field(FieldFault::Memory)
    }
}

impl Refusal {
    /// That the entry at this index of the list isn't a transaction.
    pub fn tx(list: &'static str, index: u32, fault: TxFault) -> Refusal
        ensures { result ≡ Tx list.now index fault }
    {
        Refusal::Tx(Name::new(list), index, fault)
    }

    /// The fault that tells it.
    pub fn told(self) -> WalletFault
        ensures { refusal_of result ≡ self }
    {
        match self {
            Refusal::Field(fault) => told_field(fault),
            Refusal::Script(index) => WalletFault::Script(index),
            Refusal::Weight(index) => WalletFault::Weight(index),
            Refusal::Tx(list, index, fault) => WalletFault::Tx(list, index, fault),
            Refusal::Repeat(list, index) => WalletFault::Repeat(list, index),
            Refusal::ParentLater(index) => WalletFault::ParentLater(index),
        }
    }
}

fn told_field(fault: FieldFault) -> WalletFault
    ensures { refusal_of result ≡ Field fault }
{
    match fault {
        FieldFault::NotJson => WalletFault::NotJson,
        FieldFault::Kind(name) => WalletFault::Kind(name),
        FieldFault::Member(name) => WalletFault::Member(name.into_string()),
        FieldFault::Missing(name) => WalletFault::Missing(name),
        FieldFault::Memory => WalletFault::Memory,
    }
}
