//! The greatest fee that is taken.

ghost use Rattle.std.specs.Prelude.{◌≡◌, ◌≤◌, ◌/◌, ℕ, None, Some, min};
ghost use Rattle.command_sweeping.specs.Fees.{greatest_fee};

/// The greatest fee that is taken of a payment of all coins, in satoshi: the one that is given, or else the less of 1,000,000 and a
/// tenth of what the recipient gets, rounded down.
pub fn greatest_fee(given: Option<u64>, amount: u64) -> u64
    ensures value { result ≡ greatest_fee given amount }
    ensures given { (most : ℕ) → given ≡ Some most → result ≡ most }
    ensures usual { given ≡ None → result ≡ min 1_000_000 (amount / 10) }
{
    match given {
        Some(most) => most,
        None => (amount / 10).min(1_000_000),
    }
}
