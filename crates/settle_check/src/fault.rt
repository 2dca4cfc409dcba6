//! Why a signed transaction doesn't settle a payment.

use psbt_codec::PsbtFault;

/// In what a signed transaction first is another than the payment that was to be signed, in this order. An index
/// above 4,294,967,295 is given as that.
#[derive(Clone, Copy, PartialEq, Eq)]
pub enum Differing {
    /// In the version.
    Version,
    /// In the lock time.
    Locktime,
    /// In the number of inputs or in that of outputs.
    Count,
    /// In the input of this index, which spends another outpoint or has another sequence.
    Input(u32),
    /// In the output of this index, which pays another amount or to another script.
    Output(u32),
}

/// Why a signed transaction doesn't settle a payment, the first rule that is broken. An index above 4,294,967,295 is given
/// as that. The first five are of the files that a payment is read from, and [`crate::settle`] never gives them.
#[derive(Clone, Copy, PartialEq, Eq)]
pub enum SettleFault {
    /// The report isn't one, from this place on.
    Report(u64),
    /// The report is of no payment.
    NotFunded,
    /// The PSBT of the report can't be read.
    Psbt(PsbtFault),
    /// Neither the previous transaction nor the output stands beside the input of this index, so its value isn't known
    /// (BIP 174, types 00 and 01).
    NoValue(u32),
    /// The input of this index spends from a script that the wallet doesn't list.
    Foreign(u32),
    /// The transaction is another payment than the one that was to be signed.
    Differs(Differing),
    /// The input of this index has neither a script nor a witness.
    Unsigned(u32),
    /// The input of this index was declared to weigh the first number of weight units, and weighs the second.
    Heavier(u32, u64, u64),
    /// The transaction has this weight, in weight units, and more than 400,000.
    TooHeavy(u64),
    /// The fee is the first number, in satoshi, and may be below 0. The second is needed at the asked rate.
    BelowRate(i64, u64),
}
