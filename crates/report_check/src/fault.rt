//! Why a report isn't accepted.

ghost use Rattle.std.specs.Prelude.{◌≡◌};
ghost use Rattle.report_check.specs.declared.fault.CheckFault.TheVariants.{Memory as OutOfMemory};

use fund_base::{Memory, OutPoint};
use log_checker::LogFault;
use psbt_codec::PsbtFault;

/// The first rule that a report breaks, in the order in which they stand here; but that the tries are tested after
/// `Log` and before `Answer`.
#[derive(Clone, Copy, PartialEq, Eq)]
pub enum CheckFault {
    /// The report isn't in its grammar, from this place on; or its tries aren't those of the log, and this is where
    /// their line begins.
    Report(u64),
    /// The text of its PSBT has this fault. It never holds [`PsbtFault::Memory`].
    Psbt(PsbtFault),
    /// An input spends the coin at this outpoint, which is neither a preset nor a candidate that meets the named row of the
    /// request's ladder. Presets are the coins that the request lists, or those of the payment that it replaces. It is the
    /// first such input.
    Coin(OutPoint),
    /// The PSBT doesn't pay what is asked, or not as the report says.
    Pays,
    /// The log isn't in its grammar, or doesn't come to its end: the place is that of the first byte at which no log
    /// that does goes on as the bytes do, or their length where they end too early.
    LogForm(u64),
    /// The section at this index isn't the one that is due there; or it is due, and missing.
    Section(u32),
    /// The letters of the section at this index aren't accepted with its answer, for this fault. It never holds
    /// [`LogFault::Memory`].
    Log(u32, LogFault),
    /// Mark, row, stage and coins of the report aren't those that the log gives.
    Answer,
    /// There was not enough memory.
    Memory,
}

impl From<Memory> for CheckFault {
    ghost from_gives = { λ _ e. e ≡ OutOfMemory };

    fn from(_e: Memory) -> CheckFault {
        CheckFault::Memory
    }
}
