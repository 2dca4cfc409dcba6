//! The greatest fee that is taken.

ghost use Rattle.std.specs.Prelude.{◌≡◌, ◌≤◌, ◌-◌, ◌^◌, ◌/◌, ◌↔◌, ℕ, IsTrue, Some, None, min};
ghost use Rattle.command_pay.specs.Fees.{fee_ceiling, paid};

use request_making::Payment;

/// The amounts of payments together, or the greatest number of 64 bits where they are more.
fn paid_or_most(payments: &[Payment]) -> u64
    ensures { result ≡ min (paid payments.now) (2 ^ 64 - 1) }
{
    let mut total: u64 = 0;
    for payment in payments {
        total = total.saturating_add(payment.amount);
    }
    total
}

/// The greatest fee that is taken, in satoshi: the one that is given, or else the less of 1,000,000 and a tenth of what is
/// paid, rounded down.
pub fn fee_ceiling(given: Option<u64>, payments: &[Payment]) -> u64
    ensures value { result ≡ fee_ceiling given payments.now }
    ensures given { (most : ℕ) → given ≡ Some most → result ≡ most }
    ensures usual { given ≡ None → result ≡ min 1_000_000 (paid payments.now / 10) }
{
    match given {
        Some(most) => most,
        None => (paid_or_most(payments) / 10).min(1_000_000),
    }
}

/// Whether the fee is taken: it is no greater than the greatest that is.
pub fn is_fee_taken(fee: u64, given: Option<u64>, payments: &[Payment]) -> bool
    ensures { IsTrue result ↔ (fee ≤ fee_ceiling given payments.now) }
{
    fee <= fee_ceiling(given, payments)
}
