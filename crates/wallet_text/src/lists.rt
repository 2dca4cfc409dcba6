//! The rules that are tested over whole lists: no txid twice, and parents first.

ghost use Rattle.std.specs.Prelude.{◌≡◌, ◌≤◌, [], if◌then◌else◌, IfErr, IfOk, Ok, OnOk, length};
ghost use Rattle.indexmap.specs.IndexSet.{IsEmpty, spare};
ghost use Rattle.json_fields.specs.Fields.{refuse};
ghost use Rattle.wallet_text.specs.Repeats.{IsRepeat};
ghost use Rattle.wallet_text.specs.Reported.{Gives};
ghost use Rattle.wallet_text.specs.WalletRules.{AreDistinctEarlier};
ghost use Rattle.wallet_text.specs.WalletText.{told_index, txids_of, earlier_txids, repeat_from, spends_one_of, later_from, lists_at};
ghost use Rattle.wallet_text.specs.declared.fault.Refusal.TheVariants.{ParentLater, Repeat};

use crate::entries::told_index;
use crate::fault::{Refusal, WalletFault};
use crate::wallet::Earlier;
use fund_base::{Memory, Txid};
use indexmap::IndexSet;
use json_fields::Name;
use std::alloc::Global;
use tx_codec::{Tx, txid};

fn earlier_txids(alloc: Global, earlier: &[Earlier]) -> Result<Vec<Txid>, Memory>
    ensures { IfOk result (λ v. v.items ≡ earlier_txids earlier.now) }
{
    let mut txids = Vec::with_capacity(alloc, earlier.len())?;
    for entry in earlier {
        txids.push(entry.txid())?;
    }
    Ok(txids)
}

fn pending_txids(alloc: Global, pending: &[Tx]) -> Result<Vec<Txid>, Memory>
    ensures { IfOk result (λ v. v.items ≡ txids_of pending.now) }
{
    let mut txids = Vec::with_capacity(alloc, pending.len())?;
    for tx in pending {
        txids.push(txid(tx))?;
    }
    Ok(txids)
}

/// The first place whose txid stood before it. The set has room for all of them, so it never runs out of memory.
fn first_repeat(seen: &mut IndexSet<Txid>, txids: &[Txid]) -> Result<Option<usize>, Memory>
    requires empty { IsEmpty seen.old }
    requires room { length txids.now ≤ spare seen.old }
    ensures { result ≡ Ok (repeat_from [] txids.now) }
{
    for index in 0..txids.len() {
        if !seen.insert(txids[index])? {
            return Ok(Some(index));
        }
    }
    Ok(None)
}

/// That no txid stands twice in the list of this name. The set has room for all of them, so it never runs out of memory.
fn check_distinct(
    list: &'static str,
    seen: &mut IndexSet<Txid>,
    txids: &[Txid],
) -> Result<(), Refusal>
    requires empty { IsEmpty seen.old }
    requires room { length txids.now ≤ spare seen.old }
    ensures { result ≡ refuse (λ i. Repeat list.now (told_index i)) (repeat_from [] txids.now) }
{
    match first_repeat(seen, txids)? {
        Some(index) => Err(Refusal::Repeat(Name::new(list), told_index(index))),
        None => Ok(()),
    }
}

/// That no txid stands twice in the list of this name. Memory is taken before the list is looked at.
fn judge_txids(alloc: Global, list: &'static str, txids: &[Txid]) -> Result<(), Refusal>
    ensures { Gives (λ _. tt) result (refuse (λ i. Repeat list.now (told_index i)) (repeat_from [] txids.now)) }
{
    let mut seen = IndexSet::with_capacity(alloc, txids.len())?;
    check_distinct(list, &mut seen, txids)
}

/// Whether some input spends an output of a transaction of these txids.
fn spends_one_of(txids: &IndexSet<Txid>, tx: &Tx) -> bool
    ensures { result ≡ spends_one_of txids.now.keys tx.now }
{
    tx.inputs
        .iter()
        .any(|input| txids.contains(&input.prev.txid))
}

// This place, where the transaction spends an output of one of these, and else the one that was found after it.
fn first_place(
    index: usize,
    tx: &Tx,
    txids: &IndexSet<Txid>,
    behind: Option<usize>,
) -> Option<usize>
    ensures { result ≡ (if spends_one_of txids.now.keys tx.now then Some index else behind) }
{
    if spends_one_of(txids, tx) {
        Some(index)
    } else {
        behind
    }
}

/// The first transaction that spends an output of itself or of one after it. The set has room for the txids, so it never
/// runs out of memory.
fn first_later(
    later: &mut IndexSet<Txid>,
    pending: &[Tx],
    txids: &[Txid],
) -> Result<Option<usize>, Memory>
    requires txids { txids.now ≡ txids_of pending.now }
    requires empty { IsEmpty later.old }
    requires room { length pending.now ≤ spare later.old }
    ensures { result ≡ Ok (later_from 0 pending.now) }
{
    let mut first = None;
    let mut index = pending.len();
    while index > 0 {
        index -= 1;
        later.insert(txids[index])?;
        first = first_place(index, &pending[index], later, first);
    }
    Ok(first)
}

/// That no transaction spends an output of itself or of one after it. The set has room for the txids, so it never runs out
/// of memory.
fn check_parents(later: &mut IndexSet<Txid>, pending: &[Tx], txids: &[Txid]) -> Result<(), Refusal>
    requires txids { txids.now ≡ txids_of pending.now }
    requires empty { IsEmpty later.old }
    requires room { length pending.now ≤ spare later.old }
    ensures { result ≡ refuse (λ i. ParentLater (told_index i)) (later_from 0 pending.now) }
{
    match first_later(later, pending, txids)? {
        Some(index) => Err(Refusal::ParentLater(told_index(index))),
        None => Ok(()),
    }
}

/// That the lists keep their rules. Of the faults it is the first of these: a txid twice in `earlier`, one twice in
/// `pending`, a pending transaction before its parent.
#[tactic(auto, unfolding(crate::specs::WalletText::lists_at))]
pub fn judge_lists(alloc: Global, earlier: &[Earlier], pending: &[Tx]) -> Result<(), Refusal>
    ensures { Gives (λ _. tt) result (lists_at earlier.now pending.now) }
{
    judge_txids(alloc, "earlier", &earlier_txids(alloc, earlier)?)?;
    let txids = pending_txids(alloc, pending)?;
    judge_txids(alloc, "pending", &txids)?;
    let mut later = IndexSet::with_capacity(alloc, pending.len())?;
    check_parents(&mut later, pending, &txids)
}

/// That no two of these earlier transactions have one txid, which is a rule of every [`crate::Wallet`]. Otherwise the
/// fault is [`WalletFault::Repeat`], with the name `earlier` and the index of the first whose txid stood before it; or
/// it is to be out of memory.
pub fn judge_earlier(alloc: Global, earlier: &[Earlier]) -> Result<(), WalletFault>
    ensures distinct { OnOk result (AreDistinctEarlier earlier.now) }
    ensures fault { IfErr result (IsRepeat earlier.now) }
{
    match judge_lists(alloc, earlier, &[]) {
        Ok(()) => Ok(()),
        Err(refusal) => Err(refusal.told()),
    }
}
