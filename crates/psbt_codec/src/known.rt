//! What an input's map tells of the output that the input spends.

ghost use Rattle.std.specs.Prelude.{◌≡◌, ◌⊎◌, IfOk, OnErr, IsSome};
ghost use Rattle.psbt_codec.specs.declared.fault.PsbtFault.TheVariants.{WrongParent};
ghost use Rattle.psbt_codec.specs.Fault.{shown};
ghost use Rattle.psbt_codec.specs.Reading.{unless, value_of, spent_in, fits_input};

use crate::fault::PsbtFault;
use crate::pairs::{Pair, value_of};
use crate::psbt::Spent;
use crate::values::{is_parent, paid_in, tx_in};
use fund_base::Memory;
use std::alloc::Global;
use tx_codec::{Tx, TxIn};

/// What an input's pairs say of the output that it spends.
pub fn spent_in(alloc: Global, pairs: &[Pair]) -> Result<Spent, Memory>
    ensures gives { IfOk result (λ s. s ≡ spent_in pairs.now) }
    ensures short { OnErr result (IsSome (value_of 0 pairs.now) ⊎ IsSome (value_of 1 pairs.now)) }
{
    let whole = match value_of(pairs, 0) {
        Some(bytes) => tx_in(alloc, bytes)?,
        None => None,
    };
    let paid = match value_of(pairs, 1) {
        Some(bytes) => paid_in(alloc, bytes)?,
        None => None,
    };
    Ok(Spent { whole, paid })
}

fn fits_input(input: &TxIn, whole: &Option<Tx>) -> bool
    ensures { result ≡ fits_input input.now whole.now }
{
    match whole {
        Some(whole) => is_parent(input, whole),
        None => true,
    }
}

/// An index as a fault shows it: one that doesn't fit counts as the greatest that does.
pub fn shown(index: u64) -> u32
    ensures { result ≡ shown index }
{
    index.min(u32::MAX as u64) as u32
}

/// That the whole previous transaction is of the input of this index. It never runs out of memory.
pub fn check_parent(index: u64, input: &TxIn, whole: &Option<Tx>) -> Result<(), PsbtFault>
    ensures { result ≡ unless (fits_input input.now whole.now) (WrongParent (shown index)) }
{
    if fits_input(input, whole) {
        return Ok(());
    }
    Err(PsbtFault::WrongParent(shown(index)))
}
