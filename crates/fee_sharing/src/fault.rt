//! Why there are no shares, and why a row has no payment.

ghost use Rattle.std.specs.Prelude.{◌≡◌};

use fund_base::Memory;

/// Why amounts can't bear their shares.
#[derive(Clone, Copy, PartialEq, Eq)]
pub enum ShareFault {
    /// The amount of this index, from 0, is below its share and its dust threshold together. It is the first such. An index
    /// above 4,294,967,295 is given as that.
    ShareDust(u32),
    /// There was not enough memory. Each amount can bear its share then.
    Memory,
}

impl From<Memory> for ShareFault {
    ghost use Rattle.fee_sharing.specs.declared.fault.ShareFault.TheVariants as faults;

    ghost from_gives = { λ _ e. e ≡ faults.Memory };

    fn from(_e: Memory) -> ShareFault {
        ShareFault::Memory
    }
}

/// Why a row has no payment whose recipients bear the fee.
#[derive(Clone, Copy, PartialEq, Eq)]
pub enum ShareRowFault {
    /// The row keeps this many groups, which are more than 10,000.
    TooMany(u64),
    /// There was not enough memory.
    Memory,
}

impl From<Memory> for ShareRowFault {
    ghost use Rattle.fee_sharing.specs.declared.fault.ShareRowFault.TheVariants as faults;

    ghost from_gives = { λ _ e. e ≡ faults.Memory };

    fn from(_e: Memory) -> ShareRowFault {
        ShareRowFault::Memory
    }
}

/// Why not all coins can be paid together.
#[derive(Clone, Copy, PartialEq, Eq)]
pub enum SweepFault {
    /// The last row of the ladder keeps this many coins, which are more than 10,000.
    TooMany(u64),
    /// The payment of all of them weighs this much, in weight units, which is more than 400,000.
    TooHeavy(u64),
    /// There was not enough memory.
    Memory,
}

impl From<Memory> for SweepFault {
    ghost use Rattle.fee_sharing.specs.declared.fault.SweepFault.TheVariants as faults;

    ghost from_gives = { λ _ e. e ≡ faults.Memory };

    fn from(_e: Memory) -> SweepFault {
        SweepFault::Memory
    }
}
