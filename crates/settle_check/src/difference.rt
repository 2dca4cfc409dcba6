//! In what two transactions are different payments.

ghost use Rattle.std.specs.Prelude.{◌≡◌, ◌==◌, ◌&&◌, ◌↔◌, IsTrue, MatchOption, length, map};
ghost use Rattle.fund_base.specs.Outpoints.{same_outpoint};
ghost use Rattle.psbt_codec.specs.Fault.{shown};
ghost use Rattle.settle_check.specs.Broken.{IsDifference, IsFirstOther};
ghost use Rattle.settle_check.specs.Settled.{IsSamePayment, bare_input};

use crate::fault::Differing;
use tx_codec::{Tx, TxIn, TxOut};

/// An index as a fault shows it.
pub(crate) fn shown(index: usize) -> u32
    ensures { result ≡ shown index }
{
    index.min(u32::MAX as usize) as u32
}

/// Whether two inputs spend the same outpoint with the same sequence.
fn spend_alike(a: &TxIn, b: &TxIn) -> bool
    ensures { result ≡ (same_outpoint a.now.prev b.now.prev && (a.now.sequence == b.now.sequence)) }
{
    a.prev == b.prev && a.sequence == b.sequence
}

/// Whether two outputs pay the same amount to the same script.
#[tactic(auto, using(crate::proofs::AlikeLaws::same_output))]
fn pay_alike(a: &TxOut, b: &TxOut) -> bool
    ensures { IsTrue result ↔ (a.now ≡ b.now) }
{
    a.value.get() == b.value.get() && a.script.bytes() == b.script.bytes()
}

/// The first index at which the inputs spend something else.
fn other_input(made: &[TxIn], given: &[TxIn]) -> Option<u32>
    requires { length made.now ≡ length given.now }
    ensures { MatchOption result (map bare_input made.now ≡ map bare_input given.now) (IsFirstOther (map bare_input made.now) (map bare_input given.now)) }
{
    for i in 0..made.len() {
        if !spend_alike(&made[i], &given[i]) {
            return Some(shown(i));
        }
    }
    None
}

/// The first index at which the outputs pay otherwise.
fn other_output(made: &[TxOut], given: &[TxOut]) -> Option<u32>
    requires { length made.now ≡ length given.now }
    ensures { MatchOption result (made.now ≡ given.now) (IsFirstOther made.now given.now) }
{
    for i in 0..made.len() {
        if !pay_alike(&made[i], &given[i]) {
            return Some(shown(i));
        }
    }
    None
}

/// The first in which a signed transaction is another payment.
pub(crate) fn difference(tx: &Tx, signed: &Tx) -> Option<Differing>
    ensures { MatchOption result (IsSamePayment tx.now signed.now) (IsDifference tx.now signed.now) }
{
    if signed.version != tx.version {
        return Some(Differing::Version);
    }
    if signed.locktime != tx.locktime {
        return Some(Differing::Locktime);
    }
    if signed.inputs.len() != tx.inputs.len() || signed.outputs.len() != tx.outputs.len() {
        return Some(Differing::Count);
    }
    if let Some(index) = other_input(&signed.inputs, &tx.inputs) {
        return Some(Differing::Input(index));
    }
    match other_output(&signed.outputs, &tx.outputs) {
        Some(index) => Some(Differing::Output(index)),
        None => None,
    }
}
