//! A pending transaction of a command, read and added.

ghost use Rattle.std.specs.Prelude.{◌≡◌, ◌≢◌, ◌%◌, IfOk, Ok, OnErr, OnOk, false, length};
ghost use Rattle.fund_files.specs.Chain.{IsChain};
ghost use Rattle.tx_codec.specs.TransactionText.{IsTransaction};
ghost use Rattle.tx_codec.specs.Txid.{txid_of};
ghost use Rattle.desk_machine.specs.Machine.{add_pending, is_later, is_repeat, pending_by_tx, whole_tx};
ghost use Rattle.desk_machine.specs.Replies.{BadHex, BadTx, Refused, plain_reply};
ghost use Rattle.desk_chain.specs.PendingTxids.{AreTxidsOf};

use crate::chain::{add_pending, is_later};
use crate::pending_txids::PendingTxids;
use crate::records::refuse_book;
use desk_machine::{Refusal, Reply};
use fund_base::Memory;
use fund_files::WholeChain;
use hex::FromHexError;
use std::alloc::Global;
use tx_codec::{Tx, TxFault, read_whole_tx, txid};

/// Adds a transaction behind those that wait, which have these txids, unless it or the book refuses. The error is out of
/// memory.
fn add_tx(held: &mut WholeChain, txids: &mut PendingTxids, tx: Tx) -> Result<Reply, Memory>
    requires held { IsChain held.old }
    requires txids { AreTxidsOf held.old.wallet.pending txids.old }
    requires text { IsTransaction tx }
    ensures fresh { OnErr result (is_repeat held.old.wallet.pending (txid_of tx) ≡ false) }
    ensures first { OnErr result (is_later held.old.wallet.pending tx ≡ false) }
    ensures reply { IfOk result (λ r. plain_reply r ≡ (pending_by_tx held.old (Ok tx)).reply) }
    ensures next { OnOk result (held.new ≡ (pending_by_tx held.old (Ok tx)).held) }
    ensures held { IsChain held.new }
    ensures change { held.new.wallet.change ≡ held.old.wallet.change }
    ensures memory { OnErr result (held.new ≡ held.old) }
    ensures txids { AreTxidsOf held.new.wallet.pending txids.new }
{
    let id = txid(&tx);
    if txids.has(&id) {
        return Ok(Reply::Refused(Refusal::Repeat));
    }
    if is_later(txids, &tx, &id) {
        return Ok(Reply::Refused(Refusal::ParentLater));
    }
    match add_pending(held, txids, tx, id) {
        Ok(()) => Ok(Reply::Seen(id)),
        Err(fault) => refuse_book(fault),
    }
}

/// The reply to bytes that are no transaction. The error is out of memory.
fn refuse_tx(fault: TxFault) -> Result<Reply, Memory>
    ensures reply { IfOk result (λ r. (fault ≢ TxFault.Memory) × (plain_reply r ≡ Refused (BadTx fault))) }
    ensures memory { OnErr result (fault ≡ TxFault.Memory) }
{
    match fault {
        TxFault::Memory => Err(Memory),
        fault => Ok(Reply::Refused(Refusal::Tx(fault))),
    }
}

/// The reply to what isn't an even number of hex digits. The error is out of memory.
fn refuse_hex(error: FromHexError) -> Result<Reply, Memory>
    ensures reply { IfOk result (λ r. (error ≢ FromHexError.OutOfMemory) × (plain_reply r ≡ Refused BadHex)) }
    ensures memory { OnErr result (error ≡ FromHexError.OutOfMemory) }
{
    match error {
        FromHexError::OutOfMemory => Err(Memory),
        _ => Ok(Reply::Refused(Refusal::Kind)),
    }
}

/// Adds the transaction of these bytes, all of them.
fn add_bytes(
    alloc: Global,
    held: &mut WholeChain,
    txids: &mut PendingTxids,
    bytes: &[u8],
) -> Result<Reply, Memory>
    requires held { IsChain held.old }
    requires txids { AreTxidsOf held.old.wallet.pending txids.old }
    ensures reply { IfOk result (λ r. plain_reply r ≡ (pending_by_tx held.old (whole_tx bytes.now)).reply) }
    ensures next { OnOk result (held.new ≡ (pending_by_tx held.old (whole_tx bytes.now)).held) }
    ensures held { IsChain held.new }
    ensures change { held.new.wallet.change ≡ held.old.wallet.change }
    ensures memory { OnErr result (held.new ≡ held.old) }
    ensures txids { AreTxidsOf held.new.wallet.pending txids.new }
{
    match read_whole_tx(alloc, bytes) {
        Ok(tx) => add_tx(held, txids, tx),
        Err(fault) => refuse_tx(fault),
    }
}

/// Adds the transaction of these hex digits behind those that wait, which have these txids. The first of these refuses it:
/// the digits aren't an even number of hex digits; the bytes aren't a transaction; one of its txid waits; it or one that
/// waits spends an output of it; the book. The error is out of memory: the chain is then as before.
#[tactic(auto, unfolding(desk_machine::specs::Machine::add_pending))]
pub fn add_hex(
    alloc: Global,
    held: &mut WholeChain,
    txids: &mut PendingTxids,
    digits: &[u8],
) -> Result<Reply, Memory>
    requires held { IsChain held.old }
    requires txids { AreTxidsOf held.old.wallet.pending txids.old }
    ensures reply { IfOk result (λ r. plain_reply r ≡ (add_pending held.old digits.now).reply) }
    ensures next { OnOk result (held.new ≡ (add_pending held.old digits.now).held) }
    ensures held { IsChain held.new }
    ensures change { held.new.wallet.change ≡ held.old.wallet.change }
    ensures memory { OnErr result (held.new ≡ held.old) }
    ensures even { OnErr result ((length digits.now % 2 ≡ 1) → ⊥) }
    ensures txids { AreTxidsOf held.new.wallet.pending txids.new }
{
    match hex::decode(alloc, digits) {
        Ok(bytes) => add_bytes(alloc, held, txids, &bytes),
        Err(error) => refuse_hex(error),
    }
}
