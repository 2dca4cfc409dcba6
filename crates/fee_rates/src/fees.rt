//! Fees and virtual sizes.

ghost use Rattle.std.specs.Prelude.{◌≡◌, ◌+◌, ◌*◌, ◌≤◌, ◌≤ℤ◌, pos, neg_ℤ};
ghost use Rattle.fund_base.specs.Least.{IsLeast};
ghost use Rattle.fee_rates.specs.Fee.{fee_of, vsize_of, input_fee_of, effective_of};

use fund_base::MAX_MONEY;

/// The greatest fee rate, in satoshi per 1,000 virtual bytes.
pub const MAX_RATE: u64 = 100_000_000;

/// The fee of `vsize` virtual bytes at `rate` satoshi per 1,000 virtual bytes, in satoshi: the least whole
/// number of satoshi that isn't below the rate (Bitcoin Core, `CFeeRate`).
#[tactic(auto, unfolding(crate::specs::Fee::fee_of))]
pub fn fee(rate: u64, vsize: u64) -> u64
    requires rate { rate ≤ MAX_RATE }
    requires size { vsize ≤ 20_000_000_000 }
    ensures value { result ≡ fee_of rate vsize }
    ensures least { IsLeast (λ f. rate * vsize ≤ 1000 * f) result }
    ensures most { result ≤ 100_000 * vsize }
{
    (rate * vsize).div_ceil(1000)
}

/// The virtual size of `weight` weight units, in virtual bytes: a quarter, rounded up (BIP 141, 'Transaction
/// size calculations').
#[tactic(auto, unfolding(crate::specs::Fee::vsize_of))]
pub fn vsize(weight: u64) -> u64
    ensures value { result ≡ vsize_of weight }
    ensures least { IsLeast (λ v. weight ≤ 4 * v) result }
    ensures most { 4 * result ≤ weight + 3 }
{
    weight.div_ceil(4)
}

/// The fee that an input of `weight` weight units pays by itself at `rate` satoshi per 1,000 virtual bytes, in
/// satoshi.
pub fn input_fee(rate: u64, weight: u64) -> u64
    requires rate { rate ≤ MAX_RATE }
    requires weight { weight ≤ 40_000_000_000 }
    ensures value { result ≡ input_fee_of rate weight }
    ensures most { result ≤ 1_000_000_000_000_000 }
    ensures coin { weight ≤ 400_000 → result ≤ 10_000_000_000 }
{
    fee(rate, vsize(weight))
}

/// What a coin of `value` satoshi is worth when an input of `weight` weight units spends it at `rate` satoshi per
/// 1,000 virtual bytes: its value less the input's fee, in satoshi, and negative where the fee is more.
pub fn effective(value: u64, rate: u64, weight: u64) -> i64
    requires value { value ≤ MAX_MONEY }
    requires rate { rate ≤ MAX_RATE }
    requires weight { weight ≤ 40_000_000_000 }
    ensures value { result ≡ effective_of value rate weight }
    ensures low { neg_ℤ (pos 1_000_000_000_000_000) ≤ℤ result }
    ensures high { result ≤ℤ pos value }
{
    value as i64 - input_fee(rate, weight) as i64
}
