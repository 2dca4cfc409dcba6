//! What a fee comes to a virtual byte.

ghost use Rattle.std.specs.Prelude.{◌≡◌};
ghost use Rattle.command_pay.specs.Rates.{rate_of};

/// What a fee comes to for 1,000 virtual bytes, in satoshi, rounded down. None exactly where there is no virtual byte, or
/// the fee's thousandfold has more than 64 bits, which is no fee that there can be.
pub fn rate_of(fee: u64, vsize: u64) -> Option<u64>
    ensures { result ≡ rate_of fee vsize }
{
    if vsize == 0 {
        return None;
    }
    match fee.checked_mul(1_000) {
        Some(thousandfold) => Some(thousandfold / vsize),
        None => None,
    }
}
