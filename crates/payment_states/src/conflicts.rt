//! What the chain spends of the outpoints that pending transactions spend.

ghost use Rattle.std.specs.Prelude.{◌≡◌, ◌<◌, [], ℕ, IfOk, OnOk, Some, true, map, vec_len, length, slice_get, slice_index_or, option_and_then, nat_eq};
ghost use Rattle.std.specs.Map.{lookup};
ghost use Rattle.tx_codec.specs.Transaction.{Transaction};
ghost use Rattle.coin_book.specs.Asked.{AreWaiting, IsAsked};
ghost use Rattle.coin_book.specs.Spends.{has_input, spends_of};
ghost use Rattle.fund_base.specs.declared.outpoint.OutPoint.{OutPoint};
ghost use Rattle.payment_states.specs.Graph.{IsInOrder, below};
ghost use Rattle.payment_states.specs.Payments.{conflict, txid_in};
ghost use Rattle.payment_states.specs.ByPlace.{FindsTxid, first_conflict, first_place, view_by};
ghost use Rattle.payment_states.specs.PendingView.{graph};

use crate::ancestry::{Parents, least_of_kin, lesser};
use coin_book::{Known, Spend};
use fund_base::{Memory, OutPoint, Txid};
use indexmap::IndexMap;
use std::alloc::Global;
use tx_codec::{Tx, TxIn};

/// The first confirmed transaction that spends an outpoint.
fn first_spend(book: &Known<'_>, point: &OutPoint) -> Option<Spend>
    requires { IsAsked book.now point.now }
    ensures { result ≡ slice_get (spends_of book.now.confirmed point.now) 0 }
{
    book.spends(point).first().copied()
}

/// Notes the txid of the first confirmed transaction that spends an outpoint under its place, which it gives.
fn note_first(
    book: &Known<'_>,
    names: &mut IndexMap<u64, Txid>,
    point: &OutPoint,
) -> Result<Option<u64>, Memory>
    requires { IsAsked book.now point.now }
    ensures place { IfOk result (λ p. p ≡ first_place book.now.confirmed point.now) }
    ensures told { (k : ℕ) → first_place book.now.confirmed point.now ≡ Some k → OnOk result (FindsTxid book.now.confirmed names.new.entries k) }
    ensures kept { (k : ℕ) → FindsTxid book.now.confirmed names.old.entries k → OnOk result (FindsTxid book.now.confirmed names.new.entries k) }
{
    match first_spend(book, point) {
        Some(spend) => {
            names.insert(spend.place, spend.txid)?;
            Ok(Some(spend.place))
        }
        None => Ok(None),
    }
}

/// The least place of a confirmed transaction that spends an outpoint of these inputs. Its txid is noted.
fn note_conflict(
    book: &Known<'_>,
    names: &mut IndexMap<u64, Txid>,
    inputs: &[TxIn],
) -> Result<Option<u64>, Memory>
    requires { (o : OutPoint) → has_input o inputs.now ≡ true → IsAsked book.now o }
    ensures place { IfOk result (λ p. p ≡ first_conflict book.now.confirmed inputs.now) }
    ensures told { (k : ℕ) → first_conflict book.now.confirmed inputs.now ≡ Some k → OnOk result (FindsTxid book.now.confirmed names.new.entries k) }
    ensures kept { (k : ℕ) → FindsTxid book.now.confirmed names.old.entries k → OnOk result (FindsTxid book.now.confirmed names.new.entries k) }
{
    let mut least = None;
    for input in inputs {
        let place = note_first(book, names, &input.prev)?;
        least = lesser(least, place);
    }
    Ok(least)
}

/// The least such place for each pending transaction, by its own inputs alone. Their txids are noted.
fn own_conflicts(
    alloc: Global,
    book: &Known<'_>,
    names: &mut IndexMap<u64, Txid>,
    pending: &[Tx],
) -> Result<Vec<Option<u64>>, Memory>
    requires { AreWaiting book.now pending.now }
    ensures places { IfOk result (λ v. v.items ≡ map (λ (t : Transaction). first_conflict book.now.confirmed t.inputs) pending.now) }
    ensures len { IfOk result (λ v. vec_len v ≡ length pending.now) }
    ensures told { (j k : ℕ) (d : Transaction) → j < length pending.now → first_conflict book.now.confirmed (slice_index_or pending.now j d).inputs ≡ Some k → OnOk result (FindsTxid book.now.confirmed names.new.entries k) }
{
    let mut places = Vec::new(alloc);
    for tx in pending {
        let place = note_conflict(book, names, &tx.inputs)?;
        places.push(place)?;
    }
    Ok(places)
}

/// The txid that is noted under each place.
fn names_at(
    alloc: Global,
    names: &IndexMap<u64, Txid>,
    places: &[Option<u64>],
) -> Result<Vec<Option<Txid>>, Memory>
    ensures names { IfOk result (λ v. v.items ≡ map (option_and_then (λ k. lookup (nat_eq k) names.now.entries)) places.now) }
    ensures len { IfOk result (λ v. vec_len v ≡ length places.now) }
{
    let mut txids = Vec::new(alloc);
    for place in places {
        let txid = match place {
            Some(k) => names.get(k).copied(),
            None => None,
        };
        txids.push(txid)?;
    }
    Ok(txids)
}

/// The txids for [`conflicts_of`]. Those of the first spends are noted on the way.
fn noted_conflicts(
    alloc: Global,
    book: &Known<'_>,
    names: &mut IndexMap<u64, Txid>,
    parents: &[Parents],
    pending: &[Tx],
) -> Result<Vec<Option<Txid>>, Memory>
    requires graph { parents.now ≡ graph (view_by book.now.confirmed pending.now []) }
    requires order { IsInOrder parents.now }
    requires waiting { AreWaiting book.now pending.now }
    ensures conflicts { IfOk result (λ v. v.items ≡ map (λ i. option_and_then (txid_in book.now.confirmed) (conflict (view_by book.now.confirmed pending.now []) i)) (below (length pending.now))) }
    ensures len { IfOk result (λ v. vec_len v ≡ length pending.now) }
{
    let own = own_conflicts(alloc, book, names, pending)?;
    let places = least_of_kin(alloc, parents, &own)?;
    let txids = names_at(alloc, names, &places)?;
    Ok(txids)
}

/// For each pending transaction the txid of the first confirmed one that spends an outpoint of it or of an ancestor.
pub fn conflicts_of(
    alloc: Global,
    book: &Known<'_>,
    parents: &[Parents],
    pending: &[Tx],
) -> Result<Vec<Option<Txid>>, Memory>
    requires graph { parents.now ≡ graph (view_by book.now.confirmed pending.now []) }
    requires order { IsInOrder parents.now }
    requires waiting { AreWaiting book.now pending.now }
    ensures conflicts { IfOk result (λ v. v.items ≡ map (λ i. option_and_then (txid_in book.now.confirmed) (conflict (view_by book.now.confirmed pending.now []) i)) (below (length pending.now))) }
    ensures len { IfOk result (λ v. vec_len v ≡ length pending.now) }
{
    let mut names = IndexMap::new(alloc);
    noted_conflicts(alloc, book, &mut names, parents, pending)
}
