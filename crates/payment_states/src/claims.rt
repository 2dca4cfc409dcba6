//! Outpoints that are spoken for, and which pending transactions count.

ghost use Rattle.std.specs.Prelude.{◌≡◌, ◌&&◌, ◌||◌, [], ℕ, List, false, not, IfOk, OnOk, length, map, vec_len, bytes_eq, filter, slice_index_or};
ghost use Rattle.std.specs.List.{list_any};
ghost use Rattle.indexmap.specs.IndexSet.{contains};
ghost use Rattle.fund_base.specs.Outpoints.{same_outpoint};
ghost use Rattle.fund_base.specs.declared.outpoint.OutPoint.{OutPoint};
ghost use Rattle.coin_book.specs.Coins.{coins_of};
ghost use Rattle.coin_book.specs.Spends.{has_input};
ghost use Rattle.payment_states.specs.Candidates.{is_mine, is_pending_state, is_replaced_by};
ghost use Rattle.payment_states.specs.Graph.{below};
ghost use Rattle.payment_states.specs.ByPlace.{place_if};
ghost use Rattle.payment_states.specs.PendingView.{no_tx};
ghost use Rattle.payment_states.specs.declared.state.Payment.{Payment};

use crate::abandoned::place_if;
use crate::ancestry::Parents;
use crate::own_coins::{flag_at, is_mine};
use crate::state::{Payment, State};
use coin_book::Known;
use fund_base::{Memory, OutPoint, Txid};
use indexmap::IndexSet;
use std::alloc::Global;
use tx_codec::{Tx, TxIn};

fn is_pending_state(state: State) -> bool
    ensures { result ≡ is_pending_state state }
{
    match state {
        State::Pending => true,
        _ => false,
    }
}

/// Which payments are Pending, place by place. The error is out of memory.
pub fn pending_of(alloc: Global, payments: &[Payment]) -> Result<Vec<bool>, Memory>
    ensures pending { IfOk result (λ v. v.items ≡ map (λ (p : Payment). is_pending_state p.state) payments.now) }
    ensures len { IfOk result (λ v. vec_len v ≡ length payments.now) }
{
    let mut pending = Vec::new(alloc);
    for payment in payments {
        pending.push(is_pending_state(payment.state))?;
    }
    Ok(pending)
}

/// A set of these outpoints.
fn points_of(alloc: Global, points: &[OutPoint]) -> Result<IndexSet<OutPoint>, Memory>
    ensures { (o : OutPoint) → IfOk result (λ s. contains same_outpoint s o ≡ list_any (λ x. same_outpoint x o) points.now) }
{
    let mut set = IndexSet::new(alloc);
    for point in points {
        set.insert(*point)?;
    }
    Ok(set)
}

/// Whether the outpoint is among these. Where there are none it isn't looked for.
pub fn is_among(set: &IndexSet<OutPoint>, point: &OutPoint) -> bool
    ensures { result ≡ contains same_outpoint set.now point.now }
{
    if set.is_empty() {
        return false;
    }
    set.contains(point)
}

/// Adds the outpoints that these inputs spend.
fn add_points(set: &mut IndexSet<OutPoint>, inputs: &[TxIn]) -> Result<(), Memory>
    ensures { (o : OutPoint) → OnOk result (contains same_outpoint set.new o ≡ (contains same_outpoint set.old o || has_input o inputs.now)) }
{
    for input in inputs {
        set.insert(input.prev)?;
    }
    Ok(())
}

/// Does so where the transaction is Pending.
fn add_pending(set: &mut IndexSet<OutPoint>, pending: bool, inputs: &[TxIn]) -> Result<(), Memory>
    ensures { (o : OutPoint) → OnOk result (contains same_outpoint set.new o ≡ (contains same_outpoint set.old o || (pending && has_input o inputs.now))) }
{
    if pending {
        add_points(set, inputs)
    } else {
        Ok(())
    }
}

/// The outpoints that Pending transactions spend.
fn claimed_of(alloc: Global, txs: &[Tx], pending: &[bool]) -> Result<IndexSet<OutPoint>, Memory>
    requires { length pending.now ≡ length txs.now }
    ensures { (o : OutPoint) → IfOk result (λ s. contains same_outpoint s o ≡ list_any (λ i. slice_index_or pending.now i false && has_input o (slice_index_or txs.now i no_tx).inputs) (below (length txs.now))) }
{
    let mut set = IndexSet::new(alloc);
    for place in 0..txs.len() {
        let tx = &txs[place];
        add_pending(&mut set, pending[place], &tx.inputs)?;
    }
    Ok(set)
}

/// The outpoints that are spoken for.
pub struct SpokenFor {
    /// Those that Pending transactions spend.
    pub claimed: IndexSet<OutPoint>,
    /// Those that the wallet has locked.
    pub locked: IndexSet<OutPoint>,
}

/// One call, wherever it is dropped.
impl Drop for SpokenFor {
    fn drop(self) {
        let SpokenFor {
            claimed: _,
            locked: _,
        } = self;
    }
}

/// The outpoints that Pending transactions spend, and these that are locked. The error is out of memory.
pub fn spoken_for(
    alloc: Global,
    txs: &[Tx],
    pending: &[bool],
    points: &[OutPoint],
) -> Result<SpokenFor, Memory>
    requires { length pending.now ≡ length txs.now }
    ensures claimed { (o : OutPoint) → IfOk result (λ s. contains same_outpoint s.claimed o ≡ list_any (λ i. slice_index_or pending.now i false && has_input o (slice_index_or txs.now i no_tx).inputs) (below (length txs.now))) }
    ensures locked { (o : OutPoint) → IfOk result (λ s. contains same_outpoint s.locked o ≡ list_any (λ x. same_outpoint x o) points.now) }
{
    let claimed = claimed_of(alloc, txs, pending)?;
    let locked = points_of(alloc, points)?;
    Ok(SpokenFor { claimed, locked })
}

/// Adds the txid that replaces a payment, where one does.
fn add_replacer(set: &mut IndexSet<Txid>, state: State) -> Result<(), Memory>
    ensures { (t : List ℕ) → OnOk result (contains bytes_eq set.new t ≡ (contains bytes_eq set.old t || is_replaced_by t state)) }
{
    match state {
        State::Replaced(by) => {
            set.insert(by)?;
            Ok(())
        }
        _ => Ok(()),
    }
}

/// The txids that replace payments.
pub fn replacers_of(alloc: Global, payments: &[Payment]) -> Result<IndexSet<Txid>, Memory>
    ensures { (t : List ℕ) → IfOk result (λ s. contains bytes_eq s t ≡ list_any (λ (p : Payment). is_replaced_by t p.state) payments.now) }
{
    let mut set = IndexSet::new(alloc);
    for payment in payments {
        add_replacer(&mut set, payment.state)?;
    }
    Ok(set)
}

/// A number at each place whose transaction isn't mine, or replaces another.
pub fn doubts_of(
    alloc: Global,
    book: &Known<'_>,
    txs: &[Tx],
    payments: &[Payment],
    replacers: &IndexSet<Txid>,
) -> Result<Vec<Option<u64>>, Memory>
    requires { length payments.now ≡ length txs.now }
    ensures doubts { IfOk result (λ v. v.items ≡ map (λ i. place_if (not (is_mine (coins_of book.now) (slice_index_or txs.now i no_tx) && not (contains bytes_eq replacers.now (slice_index_or (map (λ (p : Payment). p.txid) payments.now) i [])))) 0) (below (length txs.now))) }
    ensures len { IfOk result (λ v. vec_len v ≡ length txs.now) }
{
    let mut doubts = Vec::new(alloc);
    for place in 0..txs.len() {
        let tx = &txs[place];
        let mine = is_mine(book, &tx.inputs);
        let payment = &payments[place];
        let replaces = is_replacer(replacers, payment);
        doubts.push(place_if(is_doubtful(mine, replaces), 0))?;
    }
    Ok(doubts)
}

fn is_replacer(replacers: &IndexSet<Txid>, payment: &Payment) -> bool
    ensures { result ≡ contains bytes_eq replacers.now payment.now.txid }
{
    replacers.contains(&payment.txid)
}

fn is_doubtful(mine: bool, replaces: bool) -> bool
    ensures { result ≡ not (mine && not replaces) }
{
    !(mine && !replaces)
}

/// Those of the places that are flagged, in order. The error is out of memory.
pub fn kept(alloc: Global, places: &[usize], flags: &[bool]) -> Result<Vec<usize>, Memory>
    ensures { IfOk result (λ v. v.items ≡ filter (λ j. slice_index_or flags.now j false) places.now) }
{
    let mut left = Vec::new(alloc);
    for place in places {
        if flag_at(flags, Some(*place)) {
            left.push(*place)?;
        }
    }
    Ok(left)
}

/// The graph without the parents that aren't flagged.
pub fn kept_graph(
    alloc: Global,
    parents: &[Parents],
    flags: &[bool],
) -> Result<Vec<Parents>, Memory>
    ensures kept { IfOk result (λ v. v.items ≡ map (filter (λ j. slice_index_or flags.now j false)) parents.now) }
    ensures len { IfOk result (λ v. vec_len v ≡ length parents.now) }
{
    let mut graph = Vec::new(alloc);
    for place in 0..parents.len() {
        let here = &parents[place];
        let left = kept(alloc, here.as_slice(), flags)?;
        graph.push(Parents::new(left))?;
    }
    Ok(graph)
}
