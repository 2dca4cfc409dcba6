//! What the values of a PSBT's pairs hold.

ghost use Rattle.std.specs.Prelude.{◌≡◌, ◌≢◌, Ok, Err, IfOk, OnErr, IsSome, MatchResult, if◌then◌else◌};
ghost use Rattle.std.specs.Result.{result_ok};
ghost use Rattle.fund_base.specs.Parsing.{YieldsAll};
ghost use Rattle.tx_codec.specs.declared.fault.TxFault.TheVariants.{Memory as TxOutOfMemory};
ghost use Rattle.psbt_codec.specs.declared.fault.PsbtFault.TheVariants.{NotBare, Memory as OutOfMemory};
ghost use Rattle.psbt_codec.specs.Reading.{tx_in, paid_in, number32_in, number64_in, count_in, txid_in, are_bare, is_parent, unsigned_in};
ghost use Rattle.psbt_codec.specs.Fault.{unsigned_fault};

use crate::fault::PsbtFault;
use fund_base::{Cursor, Memory, Sat, Script, Txid};
use std::alloc::Global;
use tx_codec::{Tx, TxFault, TxIn, TxOut, read_whole_legacy_tx, read_whole_tx, txid};

/// What was read, or none where it couldn't be read. Only out of memory is told as that.
fn unless_short(read: Result<Tx, TxFault>) -> Result<Option<Tx>, Memory>
    ensures { MatchResult result (λ o. (o ≡ result_ok read) × (read ≢ Err TxOutOfMemory)) (λ _. read ≡ Err TxOutOfMemory) }
{
    match read {
        Ok(tx) => Ok(Some(tx)),
        Err(TxFault::Memory) => Err(Memory),
        Err(_) => Ok(None),
    }
}

/// The transaction that the bytes are, all of them, if they are one.
pub fn tx_in(alloc: Global, bytes: &[u8]) -> Result<Option<Tx>, Memory>
    ensures { IfOk result (λ o. o ≡ tx_in bytes.now) }
{
    unless_short(read_whole_tx(alloc, bytes))
}

/// The output that the bytes are, all of them, if they are one of at most 21,000,000 bitcoin.
#[tactic(auto, unfolding(crate::specs::Reading::paid_in, tx_codec::specs::Reading::output_at, fund_base::specs::Parsing::string_at))]
pub fn paid_in(alloc: Global, bytes: &[u8]) -> Result<Option<TxOut>, Memory>
    ensures gives { IfOk result (λ o. o ≡ paid_in bytes.now) }
    ensures short { OnErr result (IsSome (paid_in bytes.now)) }
{
    let mut cursor = Cursor::new(bytes);
    let Ok(number) = cursor.u64_le() else {
        return Ok(None);
    };
    let Some(value) = Sat::new(number) else {
        return Ok(None);
    };
    let Ok(len) = cursor.compact() else {
        return Ok(None);
    };
    let Ok(script) = cursor.take(len) else {
        return Ok(None);
    };
    if !cursor.rest().is_empty() {
        return Ok(None);
    }
    Ok(Some(TxOut {
        value,
        script: Script::new(Vec::from_slice(alloc, script)?),
    }))
}

/// The number that the bytes are, which are four, the low byte first.
#[tactic(auto, unfolding(crate::specs::Reading::number32_in))]
pub fn number32_in(bytes: &[u8]) -> Option<u32>
    ensures { result ≡ number32_in bytes.now }
{
    let mut cursor = Cursor::new(bytes);
    let Ok(number) = cursor.u32_le() else {
        return None;
    };
    if !cursor.rest().is_empty() {
        return None;
    }
    Some(number)
}

/// The number that the bytes are, which are eight, the low byte first.
#[tactic(auto, unfolding(crate::specs::Reading::number64_in))]
pub fn number64_in(bytes: &[u8]) -> Option<u64>
    ensures { result ≡ number64_in bytes.now }
{
    let mut cursor = Cursor::new(bytes);
    let Ok(number) = cursor.u64_le() else {
        return None;
    };
    if !cursor.rest().is_empty() {
        return None;
    }
    Some(number)
}

/// The number that the bytes are in CompactSize, all of them.
#[tactic(auto, unfolding(crate::specs::Reading::count_in))]
pub fn count_in(bytes: &[u8]) -> Option<u64>
    ensures { result ≡ count_in bytes.now }
{
    let mut cursor = Cursor::new(bytes);
    let Ok(number) = cursor.compact() else {
        return None;
    };
    if !cursor.rest().is_empty() {
        return None;
    }
    Some(number)
}

/// The txid that the bytes are, which are 32.
#[tactic(auto, unfolding(crate::specs::Reading::txid_in))]
pub fn txid_in(bytes: &[u8]) -> Option<Txid>
    ensures { result ≡ txid_in bytes.now }
{
    let mut cursor = Cursor::new(bytes);
    let Ok(front) = cursor.take(32) else {
        return None;
    };
    if !cursor.rest().is_empty() {
        return None;
    }
    let mut txid = [0; 32];
    txid.copy_from_slice(front);
    Some(Txid(txid))
}

fn unsigned_fault(fault: TxFault) -> PsbtFault
    ensures { result ≡ unsigned_fault fault }
{
    match fault {
        TxFault::Memory => PsbtFault::Memory,
        fault => PsbtFault::Unsigned(fault),
    }
}

fn are_bare(inputs: &[TxIn]) -> bool
    ensures { result ≡ are_bare inputs.now }
{
    inputs.iter().all(|input| input.script.bytes().is_empty())
}

/// The transaction, if each script of its inputs is empty. It never runs out of memory.
fn check_bare(tx: Tx) -> Result<Tx, PsbtFault>
    ensures { result ≡ (if are_bare tx.inputs then Ok tx else Err NotBare) }
{
    if are_bare(&tx.inputs) {
        Ok(tx)
    } else {
        Err(PsbtFault::NotBare)
    }
}

/// The unsigned transaction that the bytes are.
#[tactic(auto, unfolding(crate::specs::Reading::unsigned_in))]
pub fn unsigned_in(alloc: Global, bytes: &[u8]) -> Result<Tx, PsbtFault>
    ensures { YieldsAll OutOfMemory (λ t. t) result (unsigned_in bytes.now) }
{
    match read_whole_legacy_tx(alloc, bytes) {
        Ok(tx) => check_bare(tx),
        Err(fault) => Err(unsigned_fault(fault)),
    }
}

/// Whether the input spends an output of this transaction.
pub fn is_parent(input: &TxIn, whole: &Tx) -> bool
    ensures { result ≡ is_parent input.now whole.now }
{
    txid(whole) == input.prev.txid && (input.prev.index as usize) < whole.outputs.len()
}
