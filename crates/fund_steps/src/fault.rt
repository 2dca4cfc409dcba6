//! Why no plan is made.

ghost use Rattle.std.specs.Prelude.{◌≡◌};

use fund_base::{Memory, OutPoint};

/// Why no plan is made for a request.
#[derive(Clone, Copy, PartialEq, Eq)]
pub enum PlanFault {
    /// The candidates and the coins of a replaced payment are together worth this much, in satoshi, which is more than
    /// 21,000,000 bitcoin.
    Total(u128),
    /// The request lists this outpoint, and no candidate is there that is safe, or may be unsafe by the request. It is
    /// the first such.
    NotEligible(OutPoint),
    /// The row of this number keeps this many groups, which are more than 10,000, of the coins that the request doesn't
    /// list. It is the first such row of the ladder.
    TooMany(u8, u64),
    /// There was not enough memory. These coins are worth at most 21,000,000 bitcoin then.
    Memory,
}

impl From<Memory> for PlanFault {
    ghost use Rattle.fund_steps.specs.declared.fault.PlanFault.TheVariants as faults;

    ghost from_gives = { λ _ e. e ≡ faults.Memory };

    fn from(_e: Memory) -> PlanFault {
        PlanFault::Memory
    }
}
