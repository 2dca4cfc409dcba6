//! What signed inputs weigh.

ghost use Rattle.std.specs.Prelude.{◌≡◌, ◌+◌, ◌-◌, ◌^◌, ◌≤◌, ◌++◌, All, MatchOption, OnOk, length, min, sum, sum_by, if◌then◌else◌};
ghost use Rattle.std.specs.List.{flat_map};
ghost use Rattle.fund_base.specs.CompactSize.{counted, prefixed};
ghost use Rattle.fund_base.specs.Writer.{Feeds};
ghost use Rattle.tx_codec.specs.Stack.{lists};
ghost use Rattle.tx_codec.specs.TransactionText.{stack_text};
ghost use Rattle.settle_check.specs.Broken.{IsFirstHeavier};
ghost use Rattle.settle_check.specs.Settled.{AreWithin, true_weight_of};

use crate::difference::shown;
use fund_base::{Length, Writer, write_compact, write_prefixed};
use tx_codec::{Tx, TxIn};

/// The number of byte strings, and each after its length.
fn write_items<W: Writer>(out: &mut W, items: &[Vec<u8>]) -> Result<(), W::Error>
    ensures { OnOk result (Feeds W.holds out.old out.new (counted prefixed (lists items.now))) }
{
    write_compact(out, items.len() as u64)?;
    for item in items {
        write_prefixed(out, item.as_slice())?;
    }
    Ok(())
}

/// The bytes that the witness of an input takes, with their number.
fn witness_size(input: &TxIn) -> u64
    ensures { result ≡ min (length (stack_text input.now)) (2 ^ 64 - 1) }
{
    let mut size = Length::new();
    match write_items(&mut size, input.witness.as_slice()) {
        Ok(()) => size.get(),
        Err(never) => match never {},
    }
}

/// The bytes that the script of an input takes, with their number.
fn script_size(input: &TxIn) -> u64
    ensures { result ≡ min (length (prefixed input.now.script)) (2 ^ 64 - 1) }
{
    let mut size = Length::new();
    match write_prefixed(&mut size, input.script.bytes()) {
        Ok(()) => size.get(),
        Err(never) => match never {},
    }
}

/// What an input weighs, in weight units, in the segregated form or in the legacy one. A greater number than
/// 18,446,744,073,709,551,615 counts as that number (BIP 141, 'Transaction size calculations').
pub fn true_weight(segwit: bool, input: &TxIn) -> u64
    ensures { result ≡ true_weight_of segwit input.now }
{
    let bare = script_size(input).saturating_add(40).saturating_mul(4);
    if segwit {
        bare.saturating_add(witness_size(input))
    } else {
        bare
    }
}

/// The first index at which an input weighs more than was declared, what was declared and what it weighs.
pub(crate) fn heavier(declared: &[u64], signed: &Tx) -> Option<(u32, u64, u64)>
    requires { length declared.now ≡ length signed.now.inputs }
    ensures { MatchOption result (AreWithin declared.now signed.now) (λ x. IsFirstHeavier declared.now signed.now x.0 x.1 x.2) }
{
    for i in 0..declared.len() {
        let weight = true_weight(signed.segwit, &signed.inputs[i]);
        if declared[i] < weight {
            return Some((shown(i), declared[i], weight));
        }
    }
    None
}

/// The declared weights less those that the inputs have, in weight units. There are at most 4,000, each of at most 400,000.
pub(crate) fn spare(declared: &[u64], signed: &Tx) -> u64
    requires count { length declared.now ≡ length signed.now.inputs }
    requires few { length declared.now ≤ 4_000 }
    requires most { All (λ w. w ≤ 400_000) declared.now }
    requires within { AreWithin declared.now signed.now }
    ensures { result + sum_by (true_weight_of signed.now.segwit) signed.now.inputs ≡ sum declared.now }
{
    let mut spare = 0;
    for i in 0..declared.len() {
        spare += declared[i] - true_weight(signed.segwit, &signed.inputs[i]);
    }
    spare
}
