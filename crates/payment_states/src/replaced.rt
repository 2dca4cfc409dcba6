//! Which pending transactions later ones replace.

ghost use Rattle.std.specs.Prelude.{◌≡◌, ◌&&◌, Some, IfOk, OnOk, map, vec_len, length, is_some, if◌then◌else◌};
ghost use Rattle.std.specs.Map.{lookup};
ghost use Rattle.fund_base.specs.Outpoints.{same_outpoint};
ghost use Rattle.fund_base.specs.declared.outpoint.OutPoint.{OutPoint};
ghost use Rattle.tx_codec.specs.declared.tx.TxIn.{TxIn};
ghost use Rattle.coin_book.specs.Spends.{has_input};
ghost use Rattle.payment_states.specs.Graph.{below};
ghost use Rattle.payment_states.specs.Least.{least_by, value_at};
ghost use Rattle.payment_states.specs.ByPlace.{place_if, replacer_by};

use crate::abandoned::place_if;
use crate::ancestry::lesser;
use fund_base::{Memory, OutPoint};
use indexmap::IndexMap;
use std::alloc::Global;
use tx_codec::{Tx, TxIn};

/// The least place that is kept for an outpoint of these inputs.
fn nearest_of(nearest: &IndexMap<OutPoint, u64>, inputs: &[TxIn]) -> Option<u64>
    ensures { result ≡ least_by (λ (i : TxIn). lookup (same_outpoint i.prev) nearest.now.entries) inputs.now }
{
    let mut least = None;
    for input in inputs {
        least = lesser(least, nearest.get(&input.prev).copied());
    }
    least
}

/// Keeps a place for each outpoint of these inputs.
fn keep_place(
    nearest: &mut IndexMap<OutPoint, u64>,
    inputs: &[TxIn],
    place: u64,
) -> Result<(), Memory>
    ensures { (o : OutPoint) → OnOk result (lookup (same_outpoint o) nearest.new.entries ≡ (if has_input o inputs.now then Some place else lookup (same_outpoint o) nearest.old.entries)) }
{
    for input in inputs {
        nearest.insert(input.prev, place)?;
    }
    Ok(())
}

/// Does so where the transaction is alive.
fn keep_alive(
    nearest: &mut IndexMap<OutPoint, u64>,
    alive: bool,
    inputs: &[TxIn],
    place: u64,
) -> Result<(), Memory>
    ensures { (o : OutPoint) → OnOk result (lookup (same_outpoint o) nearest.new.entries ≡ (if alive && has_input o inputs.now then Some place else lookup (same_outpoint o) nearest.old.entries)) }
{
    if alive {
        keep_place(nearest, inputs, place)
    } else {
        Ok(())
    }
}

/// For each pending transaction the place of the first later one that is alive and spends an outpoint of it.
pub fn replacers(alloc: Global, pending: &[Tx], alive: &[bool]) -> Result<Vec<Option<u64>>, Memory>
    requires { length alive.now ≡ length pending.now }
    ensures replacers { IfOk result (λ v. v.items ≡ map (replacer_by pending.now alive.now) (below (length pending.now))) }
    ensures len { IfOk result (λ v. vec_len v ≡ length pending.now) }
{
    let mut found = vec![in alloc; None; pending.len()]?;
    let mut nearest = IndexMap::new(alloc);
    let mut place = pending.len();
    while place > 0 {
        place -= 1;
        let tx = &pending[place];
        found[place] = nearest_of(&nearest, &tx.inputs);
        keep_alive(&mut nearest, alive[place], &tx.inputs, place as u64)?;
    }
    Ok(found)
}

/// Each place that has a replacer.
pub fn places_with(alloc: Global, found: &[Option<u64>]) -> Result<Vec<Option<u64>>, Memory>
    ensures places { IfOk result (λ v. v.items ≡ map (λ j. place_if (is_some (value_at found.now j)) j) (below (length found.now))) }
    ensures len { IfOk result (λ v. vec_len v ≡ length found.now) }
{
    let mut places = Vec::new(alloc);
    for place in 0..found.len() {
        places.push(place_if(found[place].is_some(), place as u64))?;
    }
    Ok(places)
}
