//! Whether a request's rate is high enough to replace a payment.

ghost use Rattle.std.specs.Prelude.{◌≡◌, ◌*◌, Err, Ok, if◌then◌else◌, nat_lt};
ghost use Rattle.fee_bump.specs.Faults.{is_not_higher};
ghost use Rattle.fee_bump.specs.declared.fault.BumpFault.TheVariants.{RateBelowIncrement, RateNotHigher};

use crate::burden::INCREMENTAL;
use crate::fault::BumpFault;
use request_text::Request;

/// A product.
fn times(a: u64, b: u64) -> u128
    ensures { result ≡ a * b }
{
    u128::from(a) * u128::from(b)
}

/// Whether a rate isn't above that of this fee for this virtual size.
fn is_not_higher(rate: u64, fee: u64, size: u64) -> bool
    ensures { result ≡ is_not_higher rate fee size }
{
    times(rate, size) <= times(1000, fee)
}

/// That the rate of the request is at least the incremental one. It never runs out of memory.
pub fn check_increment(request: &Request) -> Result<(), BumpFault>
    ensures { result ≡ (if nat_lt request.now.rate 1000 then Err RateBelowIncrement else Ok tt) }
{
    if request.rate < INCREMENTAL {
        return Err(BumpFault::RateBelowIncrement);
    }
    Ok(())
}

/// That the rate of the request is above that of this fee for this virtual size. It never runs out of memory.
pub fn check_higher(request: &Request, fee: u64, vsize: u64) -> Result<(), BumpFault>
    ensures { result ≡ (if is_not_higher request.now.rate fee vsize then Err (RateNotHigher fee vsize) else Ok tt) }
{
    if is_not_higher(request.rate, fee, vsize) {
        return Err(BumpFault::RateNotHigher(fee, vsize));
    }
    Ok(())
}
