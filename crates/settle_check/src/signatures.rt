//! Whether inputs are signed at all.

ghost use Rattle.std.specs.Prelude.{◌↔◌, IsTrue, MatchOption};
ghost use Rattle.settle_check.specs.Broken.{IsFirstUnsigned};
ghost use Rattle.settle_check.specs.Settled.{AreSigned, IsUnsigned};

use crate::difference::shown;
use tx_codec::TxIn;

/// Whether an input has neither a script nor a witness.
fn is_unsigned(input: &TxIn) -> bool
    ensures { IsTrue result ↔ IsUnsigned input.now }
{
    input.script.bytes().is_empty() && input.witness.as_slice().is_empty()
}

/// The first index at which an input isn't signed.
pub(crate) fn unsigned(inputs: &[TxIn]) -> Option<u32>
    ensures { MatchOption result (AreSigned inputs.now) (IsFirstUnsigned inputs.now) }
{
    for i in 0..inputs.len() {
        if is_unsigned(&inputs[i]) {
            return Some(shown(i));
        }
    }
    None
}
