//! Reading the block of a record.

ghost use Rattle.std.specs.Prelude.{◌≡◌, ◌≢◌, ◌+◌, ◌≤◌, ◌==◌, ℕ, bytes_eq, length, not, take, drop, map, if◌then◌else◌, IfNone, IfOk, IsOkAnd, Err, List, None, Some};
ghost use Rattle.fund_base.specs.Cursor.{IsBytes, after, compact_at};
ghost use Rattle.fund_base.specs.Parsing.{Yields, YieldsAll, many_at};
ghost use Rattle.tx_codec.specs.Transaction.{Transaction};
ghost use Rattle.tx_codec.specs.Txid.{txid_of};
ghost use Rattle.tx_codec.specs.declared.fault.TxFault.TheVariants.{Memory as NoMemory};
ghost use Rattle.block_feed.specs.Block.{IsLinked, previous_of, root_of};
ghost use Rattle.block_feed.specs.Merkle.{double_sha256};
ghost use Rattle.block_feed.specs.Names.{counted_names_at, held_block, held_txs, name_at, names_at};
ghost use Rattle.block_feed.specs.Reading.{tx_fault, block_at, sealed_at};
ghost use Rattle.block_feed.specs.declared.fault.FeedFault.TheVariants.{Tx as OfTx, Merkle, Mutated, NotLinked, Trailing, Read, Memory};

use crate::fault::FeedFault;
use crate::merkle::{Tree, tree_of};
use fund_base::{Cursor, Txid};
use sha2::{Digest, Sha256};
use std::alloc::{AllocError, Global};
use tx_codec::{TxFault, pass_tx};

/// What a block is named by: its height, its hash and the txids of its transactions.
#[derive(Drop)]
pub struct BlockNames {
    pub height: u32,
    pub hash: [u8; 32],
    pub txids: Vec<Txid>,
}

/// A transaction's fault, as that of the block at this height.
fn tx_fault(height: u32, fault: TxFault) -> FeedFault
    ensures value { result ≡ tx_fault height fault }
    ensures never_read { result ≢ Read }
{
    match fault {
        TxFault::Memory => FeedFault::Memory,
        fault => FeedFault::Tx(height, fault),
    }
}

/// Why transactions with these bytes behind them aren't all of a block, if they aren't.
fn end_fault(height: u32, rest: &[u8]) -> Option<FeedFault>
    ensures { result ≡ (if length rest.now == 0 then None else Some (Trailing height)) }
{
    if rest.is_empty() {
        None
    } else {
        Some(FeedFault::Trailing(height))
    }
}

/// The txids of so many transactions, which are passed over.
fn txids_of(alloc: Global, count: u64, cursor: &mut Cursor) -> Result<Vec<Txid>, TxFault>
    ensures { Yields NoMemory (λ v. v.items) cursor.new result (many_at name_at count cursor.old) }
{
    let mut txids = Vec::new(alloc);
    for _ in 0..count {
        let tx = pass_tx(cursor)?;
        txids.push(tx.txid())?;
    }
    Ok(txids)
}

#[tactic(auto, unfolding(crate::specs::Names::names_at))]
fn all_txids(
    alloc: Global,
    height: u32,
    count: u64,
    cursor: &mut Cursor,
) -> Result<Vec<Txid>, FeedFault>
    ensures gives { YieldsAll Memory (λ v. v.items) result (names_at height count cursor.old) }
    ensures never_read { result ≢ Err Read }
{
    match txids_of(alloc, count, cursor) {
        Ok(txids) => match end_fault(height, cursor.rest()) {
            Some(fault) => Err(fault),
            None => Ok(txids),
        },
        Err(fault) => Err(tx_fault(height, fault)),
    }
}

/// The txids of the transactions after their count.
#[tactic(auto, unfolding(crate::specs::Names::counted_names_at))]
fn counted_txids(alloc: Global, height: u32, cursor: &mut Cursor) -> Result<Vec<Txid>, FeedFault>
    ensures gives { YieldsAll Memory (λ v. v.items) result (counted_names_at height cursor.old) }
    ensures short { result ≡ Err Memory → IsOkAnd (compact_at cursor.old) (λ count. count.0 ≢ 0) }
    ensures some { IfOk result (λ _. IsOkAnd (compact_at cursor.old) (λ count. count.0 ≢ 0)) }
    ensures never_read { result ≢ Err Read }
{
    match cursor.compact() {
        Ok(0) => Err(FeedFault::Empty(height)),
        Ok(count) => all_txids(alloc, height, count, cursor),
        Err(fault) => Err(FeedFault::Tx(height, TxFault::from(fault))),
    }
}

/// The bytes of txids, which are the lowest level of a Merkle tree.
fn leaves(alloc: Global, txids: &[Txid]) -> Result<Vec<[u8; 32]>, AllocError>
    ensures { IfOk result (λ v. v.items ≡ txids.now) }
{
    let mut leaves = Vec::new(alloc);
    for txid in txids {
        leaves.push(*txid.bytes())?;
    }
    Ok(leaves)
}

/// The double SHA-256 of a header.
fn hash_of(header: &[u8]) -> [u8; 32]
    ensures { result ≡ double_sha256 header.now }
{
    Sha256::digest(Sha256::digest(header))
}

/// 32 bytes of a header from this place on.
fn hash_in(header: &[u8], place: usize) -> [u8; 32]
    requires { place + 32 ≤ length header.now }
    ensures { result ≡ take 32 (drop place header.now) }
{
    let (_, after) = header.split_at(place);
    let (front, _) = after.split_at(32);
    let mut hash = [0; 32];
    hash.copy_from_slice(front);
    hash
}

/// Why a header doesn't follow a block of this hash, if it doesn't.
fn link_fault(previous: &[u8; 32], header: &[u8]) -> Option<FeedFault>
    requires { length header.now ≡ 80 }
    ensures gives { result ≡ (if not (bytes_eq (previous_of header.now) previous.now) then Some (NotLinked previous.now (previous_of header.now)) else None) }
    ensures linked { IfNone result (previous_of header.now ≡ previous.now) }
    ensures never_read { result ≢ Some Read }
    ensures never_short { result ≢ Some Memory }
{
    let found = hash_in(header, 4);
    if found != *previous {
        return Some(FeedFault::NotLinked(*previous, found));
    }
    None
}

/// Why transactions whose txids have this tree aren't those of the header, if they aren't.
fn root_fault(height: u32, header: &[u8], tree: &Tree) -> Option<FeedFault>
    requires { length header.now ≡ 80 }
    ensures { result ≡ (if not (bytes_eq (root_of header.now) tree.now.root) then Some (Merkle height) else if tree.now.mutated then Some (Mutated height) else None) }
{
    if tree.root != hash_in(header, 36) {
        return Some(FeedFault::Merkle(height));
    }
    if tree.mutated {
        return Some(FeedFault::Mutated(height));
    }
    None
}

/// What names the block of a header and of transactions with these txids, whose Merkle root the header carries.
fn sealed(
    alloc: Global,
    height: u32,
    header: &[u8],
    txids: Vec<Txid>,
) -> Result<BlockNames, FeedFault>
    requires { length header.now ≡ 80 }
    ensures gives { (txs : List Transaction) → txids.items ≡ map txid_of txs → YieldsAll Memory (λ b. record { height = b.height; hash = b.hash; txs = txs }) result (sealed_at height header.now txs) }
    ensures txids { IfOk result (λ b. b.txids.items ≡ txids.items) }
    ensures height { IfOk result (λ b. b.height ≡ height) }
    ensures never_read { result ≢ Err Read }
{
    let tree = tree_of(alloc, leaves(alloc, &txids)?)?;
    match root_fault(height, header, &tree) {
        Some(fault) => return Err(fault),
        None => {}
    }
    Ok(BlockNames {
        height,
        hash: hash_of(header),
        txids,
    })
}

#[tactic(auto, unfolding(crate::specs::Reading::block_at))]
fn names_in(
    alloc: Global,
    previous: &[u8; 32],
    height: u32,
    bytes: &[u8],
) -> Result<BlockNames, FeedFault>
    ensures gives { YieldsAll Memory (λ b. held_block height b.hash bytes.now) result (block_at previous.now height (record { rest = bytes.now; place = 0 })) }
    ensures txids { IfOk result (λ b. b.txids.items ≡ map txid_of (held_txs height bytes.now)) }
    ensures short { result ≡ Err Memory → (80 ≤ length bytes.now) × (previous_of (take 80 bytes.now) ≡ previous.now) }
    ensures some { result ≡ Err Memory → IsOkAnd (compact_at (after 80 (record { rest = bytes.now; place = 0 }))) (λ count. count.0 ≢ 0) }
    ensures height { IfOk result (λ b. b.height ≡ height) }
    ensures never_read { result ≢ Err Read }
    ensures bytes { IsBytes bytes.now }
{
    let mut cursor = Cursor::new(bytes);
    let header = match cursor.take(80) {
        Ok(header) => header,
        Err(fault) => return Err(FeedFault::Tx(height, TxFault::from(fault))),
    };
    match link_fault(previous, header) {
        Some(fault) => return Err(fault),
        None => {}
    }
    let txids = counted_txids(alloc, height, &mut cursor)?;
    sealed(alloc, height, header, txids)
}

/// What names the block at this height that the bytes are, behind a block of this hash. A place in its faults
/// counts from the first of the bytes.
pub fn names_of(
    alloc: Global,
    previous: &[u8; 32],
    height: u32,
    bytes: &[u8],
) -> Result<BlockNames, FeedFault>
    requires { 80 ≤ length bytes.now }
    ensures linked { IfOk result (λ b. IsLinked previous.now height (held_block height b.hash bytes.now)) }
    ensures gives { YieldsAll Memory (λ b. held_block height b.hash bytes.now) result (block_at previous.now height (record { rest = bytes.now; place = 0 })) }
    ensures txids { IfOk result (λ b. b.txids.items ≡ map txid_of (held_txs height bytes.now)) }
    ensures short { result ≡ Err Memory → previous_of (take 80 bytes.now) ≡ previous.now }
    ensures some { result ≡ Err Memory → IsOkAnd (compact_at (after 80 (record { rest = bytes.now; place = 0 }))) (λ count. count.0 ≢ 0) }
    ensures height { IfOk result (λ b. b.height ≡ height) }
    ensures never_read { result ≢ Err Read }
    ensures never_memory { (at : ℕ) → result ≢ Err (OfTx at NoMemory) }
    ensures bytes { IsBytes bytes.now }
{
    names_in(alloc, previous, height, bytes)
}
