//! The waste of a payment.

ghost use Rattle.std.specs.Prelude.{◌≡◌, ◌+ℤ◌, ◌≤ℤ◌, pos, neg_ℤ};
ghost use Rattle.pick_problem.specs.Waste.{IsEnding, ending_of};

/// How a payment ends.
#[derive(Clone, Copy, PartialEq, Eq)]
pub enum Ending {
    /// Without change: what it brings above what it needs, in satoshi, goes to the fee.
    Excess(u128),
    /// With change: what the change output and its spending later cost, in satoshi.
    Change(u64),
}

/// The waste of a payment in satoshi: the cost of its coins, and the excess or the cost of its change (Bitcoin Core,
/// `RecalculateWaste`). The cost lies between -10^24 and 10^24, and an excess is at most 10^24.
pub fn waste(cost: i128, ending: Ending) -> i128
    requires low { neg_ℤ (pos 1_000_000_000_000_000_000_000_000) ≤ℤ cost }
    requires high { cost ≤ℤ pos 1_000_000_000_000_000_000_000_000 }
    requires ending { IsEnding ending }
    ensures { result ≡ cost +ℤ pos (ending_of ending) }
{
    match ending {
        Ending::Excess(excess) => cost + excess as i128,
        Ending::Change(change) => cost + i128::from(change),
    }
}
