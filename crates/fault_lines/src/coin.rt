//! A coin that stands for any.

ghost use Rattle.std.specs.Prelude.{◌≡◌};
ghost use Rattle.fault_lines.specs.Word.{no_coin};

use fund_base::{OutPoint, Txid};

/// A coin that stands for any: what is said of a fault doesn't depend on the coin that it names.
pub fn no_coin() -> OutPoint
    ensures { result ≡ no_coin }
{
    OutPoint {
        txid: Txid([0; 32]),
        index: 0,
    }
}
