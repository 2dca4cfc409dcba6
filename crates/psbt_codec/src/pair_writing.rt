//! Pairs of a PSBT's maps written.

ghost use Rattle.std.specs.Prelude.{◌≡◌, ◌<◌, ◌++◌, [], OnOk};
ghost use Rattle.std.specs.List.{flat_map};
ghost use Rattle.psbt_codec.specs.Psbt.{pair_text, map_text, typed, whole_pairs, paid_pairs, input_map};

use crate::psbt::Spent;
use fund_base::{Memory, write_prefixed};
use std::alloc::Global;
use tx_codec::{Tx, TxOut, write_tx, write_tx_out};

/// The type of an input's pair that holds the whole previous transaction (`PSBT_IN_NON_WITNESS_UTXO`).
const WHOLE: u8 = 0;

/// The type of an input's pair that holds the spent output (`PSBT_IN_WITNESS_UTXO`).
const PAID: u8 = 1;

/// A pair: the key and the value, each after its length.
#[tactic(auto, unfolding(crate::specs::Psbt::pair_text))]
fn write_pair(out: &mut Vec<u8>, key: &[u8], value: &[u8]) -> Result<(), Memory>
    ensures { OnOk result (out.new.items ≡ out.old.items ++ pair_text (record { key = key.now; value = value.now })) }
{
    write_prefixed(out, key)?;
    write_prefixed(out, value)?;
    Ok(())
}

/// A pair whose key is a type of one byte.
#[tactic(auto, using(fund_base::proofs::LawsOfNumbers::compact1))]
pub fn write_typed(out: &mut Vec<u8>, kind: u8, value: &[u8]) -> Result<(), Memory>
    requires { kind < 253 }
    ensures { OnOk result (out.new.items ≡ out.old.items ++ pair_text (typed kind value.now)) }
{
    write_pair(out, &[kind], value)
}

/// The byte that a map ends with.
#[tactic(auto, unfolding(crate::specs::Psbt::map_text))]
pub fn write_end(out: &mut Vec<u8>) -> Result<(), Memory>
    ensures { OnOk result (out.new.items ≡ out.old.items ++ map_text []) }
{
    out.push(0)?;
    Ok(())
}

/// The pairs of what is known of the output that an input spends.
pub fn write_known(alloc: Global, out: &mut Vec<u8>, spent: &Spent) -> Result<(), Memory>
    ensures { OnOk result (out.new.items ≡ out.old.items ++ flat_map pair_text (input_map spent.now)) }
{
    write_whole(alloc, out, &spent.whole)?;
    write_paid(alloc, out, &spent.paid)
}

fn write_whole(alloc: Global, out: &mut Vec<u8>, whole: &Option<Tx>) -> Result<(), Memory>
    ensures { OnOk result (out.new.items ≡ out.old.items ++ flat_map pair_text (whole_pairs whole.now)) }
{
    match whole {
        Some(tx) => write_typed(out, WHOLE, &write_tx(alloc, tx)?),
        None => Ok(()),
    }
}

fn write_paid(alloc: Global, out: &mut Vec<u8>, paid: &Option<TxOut>) -> Result<(), Memory>
    ensures { OnOk result (out.new.items ≡ out.old.items ++ flat_map pair_text (paid_pairs paid.now)) }
{
    match paid {
        Some(output) => write_typed(out, PAID, &write_tx_out(alloc, output)?),
        None => Ok(()),
    }
}
