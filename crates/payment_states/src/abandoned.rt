//! Which pending transactions are confirmed, abandoned or still alive.

ghost use Rattle.std.specs.Prelude.{◌≡◌, ◌≢◌, ◌&&◌, [], List, ℕ, All, not, false, None, IfOk, map, vec_len, length, is_none, is_some, bytes_eq, slice_index_or};
ghost use Rattle.std.specs.List.{AllPairs, list_any};
ghost use Rattle.indexmap.specs.IndexSet.{contains};
ghost use Rattle.coin_book.specs.Asked.{IsAskedTxid};
ghost use Rattle.coin_book.specs.Spends.{height_of};
ghost use Rattle.payment_states.specs.Graph.{IsInOrder, below, kin};
ghost use Rattle.payment_states.specs.ByPlace.{place_if};
ghost use Rattle.payment_states.specs.PendingView.{is_listed};

use crate::ancestry::{Parents, least_of_kin};
use coin_book::Known;
use fund_base::{Memory, Txid};
use indexmap::IndexSet;
use std::alloc::Global;

/// The height of each txid in the chain, where it has one.
pub fn heights_of(
    alloc: Global,
    book: &Known<'_>,
    txids: &[Txid],
) -> Result<Vec<Option<u32>>, Memory>
    requires { All (IsAskedTxid book.now) txids.now }
    ensures heights { IfOk result (λ v. v.items ≡ map (height_of book.now.confirmed) txids.now) }
    ensures len { IfOk result (λ v. vec_len v ≡ length txids.now) }
{
    let mut heights = Vec::new(alloc);
    for txid in txids {
        heights.push(book.height(txid))?;
    }
    Ok(heights)
}

/// A set of these txids, in the same order where they are distinct. The error is out of memory.
pub fn listed(alloc: Global, txids: &[Txid]) -> Result<IndexSet<Txid>, Memory>
    ensures has { (t : List ℕ) → IfOk result (λ s. contains bytes_eq s t ≡ is_listed txids.now t) }
    ensures keys { AllPairs (λ (s t : List ℕ). s ≢ t) txids.now → IfOk result (λ s. s.keys ≡ txids.now) }
{
    let mut set = IndexSet::new(alloc);
    for txid in txids {
        set.insert(*txid)?;
    }
    Ok(set)
}

/// The place, where the test passes.
pub fn place_if(test: bool, place: u64) -> Option<u64>
    ensures { result ≡ place_if test place }
{
    if test { Some(place) } else { None }
}

/// A number for each txid that is listed.
fn flags_of(alloc: Global, abandoned: &[Txid], txids: &[Txid]) -> Result<Vec<Option<u64>>, Memory>
    ensures flags { IfOk result (λ v. v.items ≡ map (λ t. place_if (is_listed abandoned.now t) 0) txids.now) }
    ensures len { IfOk result (λ v. vec_len v ≡ length txids.now) }
{
    let set = listed(alloc, abandoned)?;
    let mut flags = Vec::new(alloc);
    for txid in txids {
        flags.push(place_if(set.contains(txid), 0))?;
    }
    Ok(flags)
}

/// Where there is a number.
pub fn which(alloc: Global, numbers: &[Option<u64>]) -> Result<Vec<bool>, Memory>
    ensures which { IfOk result (λ v. v.items ≡ map is_some numbers.now) }
    ensures len { IfOk result (λ v. vec_len v ≡ length numbers.now) }
{
    let mut there = Vec::new(alloc);
    for number in numbers {
        there.push(number.is_some())?;
    }
    Ok(there)
}

/// Where there is no number.
pub fn which_not(alloc: Global, numbers: &[Option<u64>]) -> Result<Vec<bool>, Memory>
    ensures which { IfOk result (λ v. v.items ≡ map is_none numbers.now) }
    ensures len { IfOk result (λ v. vec_len v ≡ length numbers.now) }
{
    let mut there = Vec::new(alloc);
    for number in numbers {
        there.push(number.is_none())?;
    }
    Ok(there)
}

/// At each place, whether the txid there or that of an ancestor is abandoned.
pub fn abandoned_of(
    alloc: Global,
    parents: &[Parents],
    txids: &[Txid],
    abandoned: &[Txid],
) -> Result<Vec<bool>, Memory>
    requires order { IsInOrder parents.now }
    requires same { length txids.now ≡ length parents.now }
    ensures abandoned { IfOk result (λ v. v.items ≡ map (λ i. list_any (λ j. is_listed abandoned.now (slice_index_or txids.now j [])) (kin parents.now i)) (below (length parents.now))) }
    ensures len { IfOk result (λ v. vec_len v ≡ length parents.now) }
{
    let own = flags_of(alloc, abandoned, txids)?;
    let least = least_of_kin(alloc, parents, &own)?;
    let flags = which(alloc, &least)?;
    Ok(flags)
}

/// Whether it is neither confirmed nor conflicted nor abandoned.
fn is_alive(height: Option<u32>, conflict: Option<Txid>, abandoned: bool) -> bool
    ensures { result ≡ (is_none height && (is_none conflict && not abandoned)) }
{
    height.is_none() && conflict.is_none() && !abandoned
}

/// Which are neither confirmed nor conflicted nor abandoned.
pub fn alive_of(
    alloc: Global,
    heights: &[Option<u32>],
    conflicts: &[Option<Txid>],
    abandoned: &[bool],
) -> Result<Vec<bool>, Memory>
    requires conflicts { length conflicts.now ≡ length heights.now }
    requires abandoned { length abandoned.now ≡ length heights.now }
    ensures alive { IfOk result (λ v. v.items ≡ map (λ i. is_none (slice_index_or heights.now i None) && (is_none (slice_index_or conflicts.now i None) && not (slice_index_or abandoned.now i false))) (below (length heights.now))) }
    ensures len { IfOk result (λ v. vec_len v ≡ length heights.now) }
{
    let mut alive = Vec::new(alloc);
    for place in 0..heights.len() {
        alive.push(is_alive(heights[place], conflicts[place], abandoned[place]))?;
    }
    Ok(alive)
}
