//! Why words ask for no payment.

ghost use Rattle.std.specs.Prelude.{◌≡◌};
ghost use Rattle.pay_words.specs.declared.fault.WordFault.TheVariants.{Memory as OutOfMemory};

use crate::address::Network;
use crate::flag::Flag;
use base58_addr::Base58Fault;
use fund_base::Memory;
use request_making::SpellingFault;
use std::alloc::{AllocError, AllocFailed};

/// Why the words of `pay` ask for no payment. A place counts the words behind `pay` from 0. The first three are told in
/// the order of the words. Then come the others: of the name of each file, wallet, blocks, PSBT, log, report and request; of names
/// that are alike; of the recipients in order, an address after its amount and a script before it; of the fee rate, the later rate, the
/// rate of change, the change that is aimed at, the method, the tries, the seed, the payment that is replaced, the lock time, and
/// the greatest fee; and last of flags that don't go together.
#[derive(Clone, Copy)]
pub enum WordFault {
    /// The word at this place is no flag.
    Unknown(usize),
    /// The flag at this place stands before it too, and may not be given twice.
    Twice(usize),
    /// This flag takes a value, and the words end behind it, or the word of a flag stands there.
    NoValue(Flag),
    /// This flag has to be given.
    Missing(Flag),
    /// The name of the file behind this flag is empty.
    EmptyName(Flag),
    /// The name at this place is that of another file too: the wallet, the block file, the PSBT, the log or the report, which
    /// stands before it in this order.
    SameName(usize),
    /// There is no `=` in the word at this place, so there is no amount.
    NoAmount(usize),
    /// What stands behind the first `=` of the word at this place, or the whole word where it is a fee, is no amount.
    Amount(usize, SpellingFault),
    /// What stands before the first `=` of the word at this place is no script in hex.
    Script(usize),
    /// The word at this place is no rate.
    Rate(usize, SpellingFault),
    /// The fee rate at this place is below 1 satoshi per virtual byte.
    LowRate(usize),
    /// The letter at the second place of the address in the word at the first isn't one of base58.
    Base58Letter(usize, usize),
    /// The text before the first `=` of the word at this place is no address in base58, for this cause.
    Base58(usize, Base58Fault),
    /// The text before the first `=` of the word at this place is an address of this other network.
    Foreign(usize, Network),
    /// The word at this place is no method.
    Method(usize),
    /// The word at this place is no number of 64 bits in decimal digits.
    Number(usize),
    /// The word at this place isn't 64 hex digits.
    Seed(usize),
    /// The word at this place is no txid, which is 64 hex digits.
    Txid(usize),
    /// The word at this place is no number of 32 bits in decimal digits.
    LockTime(usize),
    /// The flag `--bump` stands beside what is at this place: a listed coin, `--consolidate` or `--fee-from-amount`.
    BesideBump(usize),
    /// The flag `--fee-from-amount` at this place stands beside `--consolidate`.
    BothWays(usize),
    /// The flag `--consolidate` at this place stands without the method `changeless`.
    NotChangeless(usize),
    /// The flag `--fee-from-amount` at this place stands beside a method other than `weight`.
    NotWeight(usize),
    /// The coin at this place is listed beside `--consolidate` or `--fee-from-amount`.
    ListedCoin(usize),
    /// There was not enough memory.
    Memory,
}

impl From<Memory> for WordFault {
    ghost from_gives = { λ _ e. e ≡ OutOfMemory };

    fn from(_e: Memory) -> WordFault {
        WordFault::Memory
    }
}

impl From<AllocError> for WordFault {
    ghost from_gives = { λ _ e. e ≡ OutOfMemory };

    fn from(_e: AllocError) -> WordFault {
        WordFault::Memory
    }
}

impl<T: Drop> From<AllocFailed<T>> for WordFault {
    ghost from_gives = { λ _ e. e ≡ OutOfMemory };

    fn from(_e: AllocFailed<T>) -> WordFault {
        WordFault::Memory
    }
}
