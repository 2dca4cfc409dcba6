//! Outpoints compared.

ghost use Rattle.std.specs.Prelude.{◌≡◌};
ghost use Rattle.fund_base.specs.Outpoints.{same_outpoint, outpoint_cmp};

use crate::outpoint::OutPoint;
use std::cmp::Ordering;

/// Whether two outpoints are the same, and which of them comes first: what `==` and `cmp` of outpoints answer.
pub fn compare_outpoints(a: &OutPoint, b: &OutPoint) -> (bool, Ordering)
    ensures same { result.0 ≡ same_outpoint a.now b.now }
    ensures order { result.1 ≡ outpoint_cmp a.now b.now }
{
    (a == b, a.cmp(b))
}
