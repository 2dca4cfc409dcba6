//! Amounts of money.

ghost use Rattle.std.specs.Prelude.{◌≡◌, ◌≤◌, ◌↔◌, ℕ, IsSome, IfSome};

use std::marker::Model;

/// The greatest amount, in satoshi: 21,000,000 bitcoin. Bitcoin Core calls it `MAX_MONEY`.
pub const MAX_MONEY: u64 = 2_100_000_000_000_000;

/// An amount in satoshi, at most [`MAX_MONEY`].
#[derive(Clone, Copy, PartialEq, Eq, PartialOrd, Ord, Hash)]
pub struct Sat {
    amount: u64,
}

impl Model for Sat {
    ghost use Rattle.std.specs.Prelude.{◌≤◌, ℕ};
    ghost use Rattle.fund_base.specs.declared.money.TheConstants.{MAX_MONEY};

    ghost Value = { ℕ };

    ghost view = { λ s. s.amount };

    ghost invariant = { λ s. s.amount ≤ MAX_MONEY };

    ghost inverse = { λ n. record { amount = n } };
}

impl Sat {
    /// The amount of `n` satoshi. None exactly where `n` is above [`MAX_MONEY`].
    pub fn new(n: u64) -> Option<Sat>
        ensures some { IsSome result ↔ (n ≤ MAX_MONEY) }
        ensures value { IfSome result (λ s. s ≡ n) }
    {
        if n <= MAX_MONEY {
            Some(Sat { amount: n })
        } else {
            None
        }
    }

    /// The number of satoshi.
    pub fn get(self) -> u64
        ensures value { result ≡ self }
        ensures most { self ≤ MAX_MONEY }
    {
        self.amount
    }
}
