//! The Pending ones among the ancestors and the descendants of a pending transaction.

ghost use Rattle.std.specs.Prelude.{◌≡◌, ◌<◌, ◌==◌, ◌||◌, ℕ, IfOk, false, filter, length, map, slice_index_or, vec_len};
ghost use Rattle.std.specs.List.{list_any};
ghost use Rattle.payment_states.specs.BookOf.{IsBookOf};
ghost use Rattle.payment_states.specs.Graph.{IsInOrder, below, within};
ghost use Rattle.payment_states.specs.Payments.{payments_of};
ghost use Rattle.payment_facts.specs.Pendings.{pending_above, pending_below};
ghost use Rattle.payment_states.specs.PendingView.{view_of};

use coin_book::Known;
use fund_base::Memory;
use payment_states::{Parents, States, flag_at, graph_of, kept, mark_kin, pending_of};
use std::alloc::Global;
use wallet_text::Wallet;

/// Whether one of the places is marked.
fn any_marked(places: &[usize], marks: &[bool]) -> bool
    ensures { result ≡ list_any (λ p. slice_index_or marks.now p false) places.now }
{
    for place in places {
        if flag_at(marks, Some(*place)) {
            return true;
        }
    }
    false
}

/// Whether a place is the given one, or one of its parents is marked.
fn is_reaching(place: usize, given: usize, parents: &[usize], marks: &[bool]) -> bool
    ensures { result ≡ ((place == given) || list_any (λ p. slice_index_or marks.now p false) parents.now) }
{
    place == given || any_marked(parents, marks)
}

/// At each place, whether it is the given one, or that is reached from it by going from child to parent.
fn reaching(alloc: Global, parents: &[Parents], given: usize) -> Result<Vec<bool>, Memory>
    requires { IsInOrder parents.now }
    ensures marks { IfOk result (λ v. v.items ≡ map (λ j. within parents.now (length parents.now) j given) (below (length parents.now))) }
    ensures len { IfOk result (λ v. vec_len v ≡ length parents.now) }
{
    let mut marks = Vec::new(alloc);
    for place in 0..parents.len() {
        let here = &parents[place];
        let mark = is_reaching(place, given, here.as_slice(), &marks);
        marks.push(mark)?;
    }
    Ok(marks)
}

/// At each place, whether it is the given one or an ancestor of it.
fn marked(alloc: Global, parents: &[Parents], given: usize) -> Result<Vec<bool>, Memory>
    requires order { IsInOrder parents.now }
    requires given { given < length parents.now }
    ensures { (j : ℕ) → IfOk result (λ v. slice_index_or v.items j false ≡ within parents.now (length parents.now) given j) }
{
    let mut marks = vec![in alloc; false; parents.len()]?;
    mark_kin(parents, given, &mut marks);
    Ok(marks)
}

/// The places below a number.
fn places_below(alloc: Global, count: usize) -> Result<Vec<usize>, Memory>
    ensures { IfOk result (λ v. v.items ≡ below count) }
{
    let mut places = Vec::new(alloc);
    for place in 0..count {
        places.push(place)?;
    }
    Ok(places)
}

/// The places below a number at which both flags are set, rising.
fn both_at(alloc: Global, count: usize, a: &[bool], b: &[bool]) -> Result<Vec<usize>, Memory>
    ensures { IfOk result (λ v. v.items ≡ filter (λ j. slice_index_or b.now j false) (filter (λ j. slice_index_or a.now j false) (below count))) }
{
    let all = places_below(alloc, count)?;
    let first = kept(alloc, &all, a)?;
    let both = kept(alloc, &first, b)?;
    Ok(both)
}

/// The places in the pending list of the transaction at a place and of its ancestors, of those that are Pending; rising.
/// The error is out of memory.
pub fn pending_ancestors(
    alloc: Global,
    book: &Known<'_>,
    wallet: &Wallet,
    states: &States,
    place: usize,
) -> Result<Vec<usize>, Memory>
    requires book { IsBookOf wallet.now book.now }
    requires states { states.now ≡ payments_of wallet.now book.now }
    requires place { place < length wallet.now.pending }
    ensures { IfOk result (λ v. v.items ≡ pending_above (view_of wallet.now book.now) place) }
{
    let parents = graph_of(alloc, book, states.txids(), &wallet.pending)?;
    let pending = pending_of(alloc, states.payments())?;
    let marks = marked(alloc, &parents, place)?;
    let places = both_at(alloc, parents.len(), &marks, &pending)?;
    Ok(places)
}

/// The places in the pending list of the transaction at a place and of its descendants, of those that are Pending; rising.
/// The error is out of memory.
pub fn pending_descendants(
    alloc: Global,
    book: &Known<'_>,
    wallet: &Wallet,
    states: &States,
    place: usize,
) -> Result<Vec<usize>, Memory>
    requires book { IsBookOf wallet.now book.now }
    requires states { states.now ≡ payments_of wallet.now book.now }
    requires place { place < length wallet.now.pending }
    ensures { IfOk result (λ v. v.items ≡ pending_below (view_of wallet.now book.now) place) }
{
    let parents = graph_of(alloc, book, states.txids(), &wallet.pending)?;
    let pending = pending_of(alloc, states.payments())?;
    let marks = reaching(alloc, &parents, place)?;
    let places = both_at(alloc, parents.len(), &marks, &pending)?;
    Ok(places)
}
