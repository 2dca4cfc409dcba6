//! What the inputs of a signed transaction weigh, beside what they were declared to weigh.

ghost use Rattle.std.specs.Prelude.{◌≡◌, IfOk, length, map};
ghost use Rattle.std.specs.List.{zip};
ghost use Rattle.settle_table.specs.Weighed.{weighed_of};

use fund_base::{Memory, OutPoint};
use settle_check::true_weight;
use std::alloc::Global;
use tx_codec::TxIn;

/// An input of a signed transaction.
#[derive(Clone, Copy)]
pub struct WeighedInput {
    /// The output that it spends.
    pub coin: OutPoint,
    /// What it weighs, in weight units.
    pub weight: u64,
    /// What it was declared to weigh, in weight units.
    pub declared: u64,
}

/// An input with what it weighs in a transaction of the segregated form or of the legacy one, and with what was declared.
fn weighed(segwit: bool, input: &TxIn, declared: u64) -> WeighedInput
    ensures { result ≡ weighed_of segwit (input.now, declared) }
{
    WeighedInput {
        coin: input.prev,
        weight: true_weight(segwit, input),
        declared,
    }
}

/// The inputs so, in order. It refuses only when out of memory.
pub(crate) fn weighed_inputs(
    alloc: Global,
    segwit: bool,
    inputs: &[TxIn],
    declared: &[u64],
) -> Result<Vec<WeighedInput>, Memory>
    requires { length declared.now ≡ length inputs.now }
    ensures { IfOk result (λ v. v.items ≡ map (weighed_of segwit) (zip inputs.now declared.now)) }
{
    let mut found = Vec::new(alloc);
    for i in 0..inputs.len() {
        found.push(weighed(segwit, &inputs[i], declared[i]))?;
    }
    Ok(found)
}
