//! The states of all transactions of the pending list.

ghost use Rattle.std.specs.Prelude.{◌≡◌, IfOk, length, map, option_and_then, option_map, slice_get};
ghost use Rattle.tx_codec.specs.Txid.{txid_of};
ghost use Rattle.coin_book.specs.Asked.{AreWaiting};
ghost use Rattle.wallet_text.specs.WalletRules.{AreDistinct, ParentsComeFirst};
ghost use Rattle.payment_states.specs.BookOf.{IsBookOf};
ghost use Rattle.payment_states.specs.Payments.{first_of, payments_in, payments_of, state_of};
ghost use Rattle.payment_states.specs.Graph.{IsInOrder, below};
ghost use Rattle.payment_states.specs.Least.{value_at};
ghost use Rattle.payment_states.specs.ByPlace.{payment_by, place_among, view_by};
ghost use Rattle.payment_states.specs.PendingView.{graph};
ghost use Rattle.payment_states.specs.declared.state.Payment.{Payment};

use crate::abandoned::{abandoned_of, alive_of, heights_of, listed};
use crate::ancestry::{Parents, least_of_kin};
use crate::conflicts::conflicts_of;
use crate::graph::{graph_of, txids_of};
use crate::replaced::{places_with, replacers};
use crate::state::{Payment, State};
use coin_book::{Book, Known};
use fund_base::{Memory, Txid};
use indexmap::IndexSet;
use std::alloc::Global;
use std::marker::Model;
use tx_codec::Tx;
use wallet_text::Wallet;

/// The transactions of a wallet's pending list, in order, each with its state.
pub struct States {
    payments: Vec<Payment>,
    // their txids, in the same order
    txids: IndexSet<Txid>,
}

/// One call, wherever it is dropped.
impl Drop for States {
    fn drop(self) {
        let States {
            payments: _,
            txids: _,
        } = self;
    }
}

impl Model for States {
    ghost use Rattle.std.specs.Prelude.{◌≡◌, List, map};
    ghost use Rattle.payment_states.specs.declared.state.Payment.{Payment};

    ghost Value = { List Payment };

    ghost view = { λ s. s.payments.items };

    ghost invariant = { λ s. s.txids.keys ≡ map (λ (p : Payment). p.txid) s.payments.items };
}

impl States {
    /// The transactions of the pending list, in order, each with its state.
    pub fn payments(&self) -> &[Payment]
        ensures { result.now ≡ self.now }
    {
        self.payments.as_slice()
    }

    /// The state of the transaction of this txid. None exactly where none of the pending list has it.
    pub fn state(&self, txid: &Txid) -> Option<State>
        ensures { result ≡ state_of self.now txid.now }
    {
        match self.txids.get_index_of(txid) {
            Some(place) => state_in(&self.payments, place),
            None => None,
        }
    }

    /// The place of the transaction of this txid in the pending list. None exactly where none has it.
    pub fn place(&self, txid: &Txid) -> Option<usize>
        ensures { result ≡ place_among self.now txid.now }
    {
        if self.payments.is_empty() {
            return None;
        }
        self.txids.get_index_of(txid)
    }

    /// The txids of the pending list, in order.
    pub fn txids(&self) -> &IndexSet<Txid>
        ensures { result.now.keys ≡ map (λ (p : Payment). p.txid) self.now }
    {
        &self.txids
    }
}

/// The state at a place.
fn state_in(payments: &[Payment], place: usize) -> Option<State>
    ensures { result ≡ option_map (λ (p : Payment). p.state) (slice_get payments.now place) }
{
    payments.get(place).map(|payment| payment.state)
}

/// The value at a place, where there is one.
fn value_of(values: &[Option<u64>], place: Option<u64>) -> Option<u64>
    ensures { result ≡ option_and_then (value_at values.now) place }
{
    match place {
        Some(place) => {
            if (place as usize) < values.len() {
                values[place as usize]
            } else {
                None
            }
        }
        None => None,
    }
}

/// The txid at a place, where there is one.
fn name_at(txids: &[Txid], place: Option<u64>) -> Option<Txid>
    ensures { result ≡ option_and_then (slice_get txids.now) place }
{
    match place {
        Some(place) => txids.get(place as usize).copied(),
        None => None,
    }
}

/// The first state that applies.
fn first_of(
    height: Option<u32>,
    conflict: Option<Txid>,
    abandoned: bool,
    replaced: Option<Txid>,
) -> State
    ensures { result ≡ first_of height conflict abandoned replaced }
{
    match (height, conflict, abandoned, replaced) {
        (Some(height), _, _, _) => State::Confirmed(height),
        (None, Some(by), _, _) => State::Conflicted(by),
        (None, None, true, _) => State::Abandoned,
        (None, None, false, Some(by)) => State::Replaced(by),
        (None, None, false, None) => State::Pending,
    }
}

/// The payments, from what was found at each place.
fn payments(
    alloc: Global,
    txids: &[Txid],
    heights: &[Option<u32>],
    conflicts: &[Option<Txid>],
    abandoned: &[bool],
    found: &[Option<u64>],
    firsts: &[Option<u64>],
) -> Result<Vec<Payment>, Memory>
    requires heights { length heights.now ≡ length txids.now }
    requires conflicts { length conflicts.now ≡ length txids.now }
    requires abandoned { length abandoned.now ≡ length txids.now }
    requires firsts { length firsts.now ≡ length txids.now }
    ensures { IfOk result (λ v. v.items ≡ map (payment_by txids.now heights.now conflicts.now abandoned.now found.now firsts.now) (below (length txids.now))) }
{
    let mut payments = Vec::new(alloc);
    for place in 0..txids.len() {
        let by = name_at(txids, value_of(found, firsts[place]));
        let state = first_of(heights[place], conflicts[place], abandoned[place], by);
        payments.push(Payment {
            txid: txids[place],
            state,
        })?;
    }
    Ok(payments)
}

/// These transactions, each with its state, by their parents.
fn payments_by(
    alloc: Global,
    book: &Known<'_>,
    parents: &[Parents],
    pending: &[Tx],
    abandoned: &[Txid],
    txids: &[Txid],
) -> Result<Vec<Payment>, Memory>
    requires order { IsInOrder parents.now }
    requires graph { parents.now ≡ graph (view_by book.now.confirmed pending.now abandoned.now) }
    requires txids { txids.now ≡ map txid_of pending.now }
    requires waiting { AreWaiting book.now pending.now }
    ensures { IfOk result (λ v. v.items ≡ payments_in (view_by book.now.confirmed pending.now abandoned.now)) }
{
    let heights = heights_of(alloc, book, txids)?;
    let conflicted = conflicts_of(alloc, book, parents, pending)?;
    let abandoned_at = abandoned_of(alloc, parents, txids, abandoned)?;
    let found = {
        let alive = alive_of(alloc, &heights, &conflicted, &abandoned_at)?;
        replacers(alloc, pending, &alive)?
    };
    let firsts = {
        let own = places_with(alloc, &found)?;
        least_of_kin(alloc, parents, &own)?
    };
    payments(
        alloc,
        txids,
        &heights,
        &conflicted,
        &abandoned_at,
        &found,
        &firsts,
    )
}

/// These transactions, each with its state.
fn payments_of(
    alloc: Global,
    book: &Known<'_>,
    pending: &[Tx],
    abandoned: &[Txid],
    set: &IndexSet<Txid>,
    txids: &[Txid],
) -> Result<Vec<Payment>, Memory>
    requires parents { ParentsComeFirst pending.now }
    requires set { set.now.keys ≡ map txid_of pending.now }
    requires txids { txids.now ≡ map txid_of pending.now }
    requires waiting { AreWaiting book.now pending.now }
    ensures { IfOk result (λ v. v.items ≡ payments_in (view_by book.now.confirmed pending.now abandoned.now)) }
{
    let parents = graph_of(alloc, book, set, pending)?;
    let list = payments_by(alloc, book, &parents, pending, abandoned, txids)?;
    Ok(list)
}

/// The state of each of these transactions, which are among those that wait, as if they were the pending list. The error is
/// out of memory.
pub fn states_of(
    alloc: Global,
    book: &Known<'_>,
    pending: &[Tx],
    abandoned: &[Txid],
) -> Result<States, Memory>
    requires distinct { AreDistinct pending.now }
    requires parents { ParentsComeFirst pending.now }
    requires waiting { AreWaiting book.now pending.now }
    ensures { IfOk result (λ s. s ≡ payments_in (view_by book.now.confirmed pending.now abandoned.now)) }
{
    let names = txids_of(alloc, pending)?;
    let txids = listed(alloc, &names)?;
    let payments = payments_of(alloc, book, pending, abandoned, &txids, &names)?;
    Ok(States { payments, txids })
}

/// The state of each transaction of the wallet's pending list, in order, by a book that is lent.
pub fn known_states(alloc: Global, book: &Known<'_>, wallet: &Wallet) -> Result<States, Memory>
    requires { IsBookOf wallet.now book.now }
    ensures { IfOk result (λ s. s ≡ payments_of wallet.now book.now) }
{
    let states = states_of(alloc, book, &wallet.pending, &wallet.abandoned)?;
    Ok(states)
}

/// The state of each transaction of the wallet's pending list, in order.
pub fn all_states(alloc: Global, book: &Book, wallet: &Wallet) -> Result<States, Memory>
    requires { IsBookOf wallet.now book.now }
    ensures { IfOk result (λ s. s ≡ payments_of wallet.now book.now) }
{
    let known = book.known();
    known_states(alloc, &known, wallet)
}
