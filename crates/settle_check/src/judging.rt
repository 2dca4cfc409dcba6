//! Whether a signed transaction settles a payment.

ghost use Rattle.std.specs.Prelude.{◌≡◌, ◌↔◌, ◌+◌, ◌≤◌, All, Err, IfOk, IsOk, MatchResult, length, sum, sum_by};
ghost use Rattle.fee_rates.specs.Fee.{vsize_of};
ghost use Rattle.tx_codec.specs.TransactionText.{IsTransaction};
ghost use Rattle.tx_codec.specs.Txid.{txid_of};
ghost use Rattle.tx_codec.specs.Weight.{weight_of};
ghost use Rattle.settle_check.specs.Broken.{IsSettleFault};
ghost use Rattle.settle_check.specs.Settled.{Settles, true_weight_of, worth_of};
ghost use Rattle.settle_check.specs.declared.fault.SettleFault.{SettleFault};

use crate::difference::difference;
use crate::fault::SettleFault;
use crate::signatures::unsigned;
use crate::weights::{heavier, spare};
use crate::worth::{less, paid_by, worth_of};
use fee_rates::{MAX_RATE, fee, vsize};
use fund_base::{MAX_WEIGHT, Txid};
use tx_codec::{Tx, TxOut, txid, weight};

/// A signed transaction that settles a payment.
#[derive(Clone, Copy, PartialEq, Eq)]
pub struct Settled {
    /// Its txid.
    pub txid: Txid,
    /// Its weight, in weight units.
    pub weight: u64,
    /// Its virtual size, in virtual bytes.
    pub vsize: u64,
    /// What it spends less what it pays out, in satoshi.
    pub fee: u64,
    /// What its inputs were declared to weigh less what they weigh, in weight units.
    pub spare: u64,
}

/// Whether `signed` is the payment `tx`, each input signed and no heavier than was declared, and pays at least the fee of its
/// own virtual size at `rate`, in satoshi per 1,000 virtual bytes. `spent` are the outputs that the inputs spend, and
/// `declared` the weights that they were declared to have, in weight units, both in the order of the inputs of `tx`. No
/// signature is checked, and no memory is taken.
///
/// The error is the first of these that is so, in this order. [`SettleFault::Differs`]: it is another payment.
/// [`SettleFault::Unsigned`]: an input has neither a script nor a witness. [`SettleFault::Heavier`]: an input weighs more
/// than was declared. [`SettleFault::TooHeavy`]: all weighs more than 400,000. [`SettleFault::BelowRate`]: the fee is less
/// than its rate asks. It is none of the other faults.
pub fn settle(
    tx: &Tx,
    spent: &[TxOut],
    declared: &[u64],
    signed: &Tx,
    rate: u64,
) -> Result<Settled, SettleFault>
    requires text { IsTransaction signed.now }
    requires spent { length spent.now ≡ length tx.now.inputs }
    requires declared { length declared.now ≡ length tx.now.inputs }
    requires weights { All (λ w. w ≤ 400_000) declared.now }
    requires rate { rate ≤ MAX_RATE }

    // It is settled exactly where the definition holds, and otherwise the first part that is broken is the fault.
    ensures settles { IsOk result ↔ Settles tx.now spent.now declared.now signed.now rate }
    ensures refused { (fault : SettleFault) → (result ≡ Err fault) ↔ IsSettleFault tx.now spent.now declared.now signed.now rate fault }

    // What is told of it.
    ensures txid { IfOk result (λ s. s.txid ≡ txid_of signed.now) }
    ensures weight { IfOk result (λ s. s.weight ≡ weight_of signed.now) }
    ensures vsize { IfOk result (λ s. s.vsize ≡ vsize_of (weight_of signed.now)) }
    ensures fee { IfOk result (λ s. s.fee + worth_of signed.now.outputs ≡ worth_of spent.now) }
    ensures spare { IfOk result (λ s. s.spare + sum_by (true_weight_of signed.now.segwit) signed.now.inputs ≡ sum declared.now) }
{
    if let Some(part) = difference(tx, signed) {
        return Err(SettleFault::Differs(part));
    }
    if let Some(index) = unsigned(&signed.inputs) {
        return Err(SettleFault::Unsigned(index));
    }
    if let Some((index, most, weight)) = heavier(declared, signed) {
        return Err(SettleFault::Heavier(index, most, weight));
    }
    let weight = weight(signed);
    if weight > MAX_WEIGHT {
        return Err(SettleFault::TooHeavy(weight));
    }
    let vsize = vsize(weight);
    let needed = fee(rate, vsize);
    let worth = worth_of(spent);
    let paid = paid_by(&signed.outputs);
    if worth < paid + needed {
        return Err(SettleFault::BelowRate(less(worth, paid), needed));
    }
    Ok(Settled {
        txid: txid(signed),
        weight,
        vsize,
        fee: worth - paid,
        spare: spare(declared, signed),
    })
}
