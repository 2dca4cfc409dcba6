//! What outputs are worth.

ghost use Rattle.std.specs.Prelude.{◌≡◌, ◌*◌, ◌≤◌, ◌-ℤ◌, length, pos};
ghost use Rattle.settle_check.specs.Settled.{worth_of};

use tx_codec::TxOut;

/// What outputs are worth together, in satoshi, at most 21,000,000 bitcoin.
pub(crate) fn paid_by(outputs: &[TxOut]) -> u64
    requires { worth_of outputs.now ≤ 2_100_000_000_000_000 }
    ensures { result ≡ worth_of outputs.now }
{
    let mut sum = 0;
    for output in outputs {
        sum += output.value.get();
    }
    sum
}

/// What at most 4,000 outputs are worth together, in satoshi, be each worth up to 21,000,000 bitcoin.
pub(crate) fn worth_of(outputs: &[TxOut]) -> u64
    requires { length outputs.now ≤ 4_000 }
    ensures value { result ≡ worth_of outputs.now }
    ensures most { result ≤ 8_400_000_000_000_000_000 }
{
    let mut sum = 0;
    for output in outputs {
        sum += output.value.get();
    }
    sum
}

/// The one amount less the other, in satoshi.
pub(crate) fn less(worth: u64, paid: u64) -> i64
    requires worth { worth ≤ 9_000_000_000_000_000_000 }
    requires paid { paid ≤ 9_000_000_000_000_000_000 }
    ensures { result ≡ pos worth -ℤ pos paid }
{
    worth as i64 - paid as i64
}
