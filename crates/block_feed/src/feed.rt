//! The feed of linked blocks.

ghost use Rattle.std.specs.Prelude.{ℕ, ◌≡◌, ◌≢◌, ◌≤◌, ◌<◌, [], ◌++◌, length, take, nat_lt, option_map, List, Some, None, Ok, Err, IfOk, IfErr, IfSome, IfNone, is_some, IsSome, IsErrOf};
ghost use Rattle.fund_shelf.specs.Causes.{ReadsOne};
ghost use Rattle.fund_base.specs.Writer.{Feeds};
ghost use Rattle.block_feed.specs.Block.{IsLinked, height_after};
ghost use Rattle.block_feed.specs.Digest.{HasTaken, IsDigest};
ghost use Rattle.block_feed.specs.Feed.{next_in, next_of, seen_from, Finds, Gives, Moves, Digests, TakesBytes};
ghost use Rattle.block_feed.specs.Parts.{IsNextAt, IsPast, behind_record};
ghost use Rattle.block_feed.specs.declared.fault.FeedFault.TheVariants.{Tx, Read, Memory};
ghost use Rattle.tx_codec.specs.declared.fault.TxFault.TheVariants.{Memory as NoMemory};

use crate::block::{Block, RawBlock};
use crate::digest::{copy_of, digest_of, take_in};
use crate::fault::FeedFault;
use crate::reading::{BlockNames, names_of};
use crate::records::{Record, record_from};
use fund_base::Memory as NoRoom;
use fund_shelf::Shelf;
use sha2::{Digest, Sha256};
use std::alloc::{AllocError, Global};
use std::marker::Model;

/// The greatest height that a block of the feed has.
const MAX_HEIGHT: u32 = 4_294_967_294;

/// A reader of a block file: a list of records, each of the bytes F9 BE B4 D9, a length in four bytes,
/// low byte first, and the block, with nothing or zero bytes behind the last. It gives one block after
/// the other, each linked to the one before it. It keeps no bytes of the file: each call reads one record,
/// from the place behind the one before. Where it is asked to, it computes the file's SHA-256 as it goes.
#[derive(Drop)]
pub struct Feed {
    hash: [u8; 32],
    height: u32,
    place: u64,
    fault: Option<FeedFault>,
    hasher: Option<Sha256>,
    digest: Option<[u8; 32]>,
}

impl Model for Feed {
    ghost use Rattle.std.specs.Prelude.{ℕ, ◌≢◌, ◌≤◌, Some};
    ghost use Rattle.tx_codec.specs.declared.fault.TxFault.TheVariants.{Memory as NoMemory};
    ghost use Rattle.block_feed.specs.Feed.{FeedState};
    ghost use Rattle.block_feed.specs.declared.fault.FeedFault.TheVariants.{Tx, Read, Memory};

    ghost Value = { FeedState };

    ghost view = { λ f. record { hash = f.hash; height = f.height; place = f.place; fault = f.fault; hasher = f.hasher; digest = f.digest } };

    ghost invariant = { λ f. (f.fault ≢ Some Read) × (f.fault ≢ Some Memory) × ((at : ℕ) → f.fault ≢ Some (Tx at NoMemory)) × (f.place ≤ 1073741824) };
}

/// The height of the block behind one of this height.
fn height_after(height: u32) -> u32
    ensures { result ≡ height_after height }
{
    height.saturating_add(1).min(MAX_HEIGHT)
}

/// What stays of a fault: the fault itself, unless it is being out of memory or a failed read.
fn lasting(fault: FeedFault) -> Option<FeedFault>
    ensures kept { fault ≢ Memory → fault ≢ Read → result ≡ Some fault }
    ensures memory { fault ≡ Memory → result ≡ None }
    ensures read { fault ≡ Read → result ≡ None }
    ensures never_short { result ≢ Some Memory }
    ensures never_read { result ≢ Some Read }
    ensures never_memory { (at : ℕ) → fault ≢ Tx at NoMemory → result ≢ Some (Tx at NoMemory) }
{
    match fault {
        FeedFault::Memory | FeedFault::Read => None,
        other => Some(other),
    }
}

/// What names the block of the record of the file `name` at this place, behind a block of this hash and height, and
/// the record. None at the file's end; `hasher` then takes what is left.
fn next_block<H: Shelf>(
    alloc: Global,
    shelf: &mut H,
    name: &str,
    hash: &[u8; 32],
    height: u32,
    place: u64,
    hasher: &mut Option<Sha256>,
) -> Result<Option<(BlockNames, Record)>, FeedFault>
    requires { place ≤ 1073741824 }
    ensures gives { H.tells → let file = (H.view shelf.old).files name.now in Finds (λ o. option_map (behind_record place) o) result (next_in (nat_lt 1073741824 (length file)) (take 1073741824 file) hash.now height place) }

    // The names of the block and the bytes of its record, where the shelf tells them.
    ensures found { IfOk result (λ o. IfSome o (λ found. IsNextAt H.tells (seen_from ((H.view shelf.old).files name.now) place) hash.now height place found.0 found.1)) }

    // What the digest takes.
    ensures taken { H.tells → IfOk result (λ o. IfNone o (Feeds HasTaken hasher.old hasher.new (seen_from ((H.view shelf.old).files name.now) place))) }
    ensures asked_for { is_some hasher.new ≡ is_some hasher.old }

    // A fault of a transaction is one of its text; and what the call leaves of the shelf.
    ensures never_memory { (at : ℕ) → result ≢ Err (Tx at NoMemory) }
    ensures frame { ReadsOne H.tells (IsErrOf result FeedFault.Read) name.now (H.view shelf.old) (H.view shelf.new) }
{
    let Some(found) = record_from(alloc, shelf, name, place, hasher)? else {
        return Ok(None);
    };
    let names = names_of(alloc, hash, height_after(height), &found.body)?;
    Ok(Some((names, found)))
}

/// The block with its transactions as lists, where there is one.
fn owned(alloc: Global, raw: Option<RawBlock>) -> Result<Option<Block>, NoRoom>
    ensures { IfOk result (λ o. o ≡ raw) }
{
    match raw {
        Some(raw) => {
            let block = raw.into_block(alloc)?;
            Ok(Some(block))
        }
        None => Ok(None),
    }
}

impl Feed {
    /// A feed whose first block follows a block of this hash and height.
    pub fn new(hash: [u8; 32], height: u32) -> Feed
        ensures { result ≡ record { hash = hash; height = height; place = 0; fault = None; hasher = None; digest = None } }
    {
        Feed {
            hash,
            height,
            place: 0,
            fault: None,
            hasher: None,
            digest: None,
        }
    }

    /// The same, and it computes the SHA-256 of the file that it reads.
    pub fn with_digest(hash: [u8; 32], height: u32) -> Feed
        ensures hash { result.hash ≡ hash }
        ensures height { result.height ≡ height }
        ensures place { result.place ≡ 0 }
        ensures fault { result.fault ≡ None }
        ensures digest { result.digest ≡ None }
        ensures asked_for { IsSome result.hasher }
        ensures taken { HasTaken result.hasher [] }
    {
        Feed {
            hash,
            height,
            place: 0,
            fault: None,
            hasher: Some(Sha256::new()),
            digest: None,
        }
    }

    /// The SHA-256 of the file, as the calls have read it, once [`Feed::next`] has answered None; of a feed
    /// that was made by [`Feed::with_digest`].
    pub fn digest(&self) -> Option<[u8; 32]>
        ensures { result ≡ self.now.digest }
    {
        self.digest
    }

    fn advance<H: Shelf>(
        &mut self,
        alloc: Global,
        shelf: &mut H,
        name: &str,
    ) -> Result<Option<RawBlock>, FeedFault>
        ensures exact { H.tells → self.old.fault ≡ None → Gives self.old self.new result (next_of ((H.view shelf.old).files name.now) self.old) }
        ensures end_digest { H.tells → self.old.fault ≡ None → IfOk result (λ o. IfNone o ((bytes : List ℕ) → HasTaken self.old.hasher bytes → IsDigest self.old.hasher (bytes ++ seen_from ((H.view shelf.old).files name.now) self.old.place) self.new.digest)) }
        ensures asked_for { is_some self.new.hasher ≡ is_some self.old.hasher }
        ensures moves { Moves self.old self.new result }
        ensures past { IfOk result (λ o. IfSome o (IsPast H.tells (seen_from ((H.view shelf.old).files name.now) self.old.place) self.old self.new)) }
        ensures again { IfSome self.old.fault (λ fault. (result ≡ Err fault) × (self.new ≡ self.old)) }
        ensures fine { IfOk result (λ _. self.new.fault ≡ None) }
        ensures kept { IfErr result (λ e. e ≢ Memory → e ≢ Read → self.new.fault ≡ Some e) }
        ensures memory { IsErrOf result FeedFault.Memory → self.new ≡ self.old }
        ensures read { IsErrOf result FeedFault.Read → self.new ≡ self.old }
        ensures never_memory { (at : ℕ) → result ≢ Err (Tx at NoMemory) }
        ensures frame { ReadsOne H.tells (IsErrOf result FeedFault.Read) name.now (H.view shelf.old) (H.view shelf.new) }
    {
        if let Some(fault) = self.fault {
            return Err(fault);
        }
        let mut tail = copy_of(&self.hasher)?;
        let (height, place) = (self.height, self.place);
        match next_block(alloc, shelf, name, &self.hash, height, place, &mut tail) {
            Ok(Some((names, found))) => {
                take_in(&mut self.hasher, &found.head);
                take_in(&mut self.hasher, &found.body);
                self.digest = None;
                let hash = names.hash;
                self.hash = hash;
                self.height = names.height;
                self.place = place + 8 + found.body.len() as u64;
                Ok(Some(RawBlock {
                    height: names.height,
                    hash,
                    body: found.body,
                    txids: names.txids,
                }))
            }
            Ok(None) => {
                self.digest = digest_of(tail);
                Ok(None)
            }
            Err(fault) => {
                self.fault = lasting(fault);
                Err(fault)
            }
        }
    }

    /// A feed that stands at the same place.
    fn copy(&self) -> Result<Feed, AllocError>
        ensures { IfOk result (λ copy. copy ≡ self.now) }
    {
        let hasher = copy_of(&self.hasher)?;
        Ok(Feed {
            hash: self.hash,
            height: self.height,
            place: self.place,
            fault: self.fault,
            hasher,
            digest: self.digest,
        })
    }

    /// The next block of the file `name`, whose transactions stay in its bytes. None, and each fault, exactly where
    /// [`Feed::next`] says so; and the feed then stands where it stands after that call.
    pub fn next_raw<H: Shelf>(
        &mut self,
        alloc: Global,
        shelf: &mut H,
        name: &str,
    ) -> Result<Option<RawBlock>, FeedFault>
        // What is given is what the file holds there, memory and failed reads aside: a block, its end, or a fault, each exactly
        // where `judges_records` says so. What that is to the blocks of the file, `gives_blocks` says.
        ensures exact { H.tells → self.old.fault ≡ None → Gives self.old self.new result (next_of ((H.view shelf.old).files name.now) self.old) }
        ensures bytes { H.tells → TakesBytes ((H.view shelf.old).files name.now) self.old self.new result }

        // A block lies within the file, and takes bytes of it.
        ensures within { H.tells → self.old.fault ≡ None → IfOk result (λ o. IfSome o (λ _. (self.old.place < self.new.place) × (self.new.place ≤ length ((H.view shelf.old).files name.now)))) }

        // Whether the shelf tells its files or not: where the feed then stands, and that what is given is a
        // block at the next height, linked to the one before.
        ensures moves { Moves self.old self.new result }
        ensures linked { IfOk result (λ o. IfSome o (λ block. IsLinked self.old.hash (height_after self.old.height) block)) }

        // What a fault leaves.
        ensures again { IfSome self.old.fault (λ fault. (result ≡ Err fault) × (self.new ≡ self.old)) }
        ensures fine { IfOk result (λ _. self.new.fault ≡ None) }
        ensures kept { IfErr result (λ e. e ≢ Memory → e ≢ Read → self.new.fault ≡ Some e) }
        ensures memory { IsErrOf result FeedFault.Memory → self.new ≡ self.old }
        ensures read { IsErrOf result FeedFault.Read → self.new ≡ self.old }

        // What the digest takes, where one is asked for: the bytes of each record, and at the end all that is left.
        ensures digests { H.tells → self.old.fault ≡ None → Digests ((H.view shelf.old).files name.now) self.old self.new result }
        ensures asked_for { is_some self.new.hasher ≡ is_some self.old.hasher }

        // A fault of a transaction is one of its text, and never that memory was short.
        ensures never_memory { (at : ℕ) → result ≢ Err (Tx at NoMemory) }

        // What the call leaves of the shelf: its files; its counts, unless it fails to read, where that of failed reads of
        // this name rises; and that it asks for this name alone.
        ensures frame { ReadsOne H.tells (IsErrOf result FeedFault.Read) name.now (H.view shelf.old) (H.view shelf.new) }
    {
        self.advance(alloc, shelf, name)
    }

    /// The next block of the file `name`. None exactly where the file ends behind the block before, or
    /// has zero bytes alone from there on.
    ///
    /// It reads one record, from the place behind the one before on; what is said of a call speaks of the
    /// bytes that the file has then.
    ///
    /// At a record the first of these is the fault: [`FeedFault::Magic`], [`FeedFault::Length`],
    /// [`FeedFault::NotLinked`], [`FeedFault::Tx`] of the count, [`FeedFault::Empty`],
    /// [`FeedFault::Tx`] of a transaction, [`FeedFault::Trailing`], [`FeedFault::Merkle`],
    /// [`FeedFault::Mutated`]; and [`FeedFault::Limit`] in place of one, exactly where the file is longer
    /// than the limit and a byte behind the limit is needed. After any of these the feed answers it
    /// again. [`FeedFault::Read`] comes only where the shelf's count of failed reads of `name` rose, and no
    /// count of failed reads rises without it; after it and after [`FeedFault::Memory`] the feed stands as
    /// before the call.
    pub fn next<H: Shelf>(
        &mut self,
        alloc: Global,
        shelf: &mut H,
        name: &str,
    ) -> Result<Option<Block>, FeedFault>
        // What is given is what the file holds there, memory and failed reads aside: a block, its end, or a fault, each exactly
        // where `judges_records` says so. What that is to the blocks of the file, `gives_blocks` says.
        ensures exact { H.tells → self.old.fault ≡ None → Gives self.old self.new result (next_of ((H.view shelf.old).files name.now) self.old) }
        ensures bytes { H.tells → TakesBytes ((H.view shelf.old).files name.now) self.old self.new result }

        // A block lies within the file, and takes bytes of it.
        ensures within { H.tells → self.old.fault ≡ None → IfOk result (λ o. IfSome o (λ _. (self.old.place < self.new.place) × (self.new.place ≤ length ((H.view shelf.old).files name.now)))) }

        // Whether the shelf tells its files or not: where the feed then stands, and that what is given is a
        // block at the next height, linked to the one before.
        ensures moves { Moves self.old self.new result }
        ensures linked { IfOk result (λ o. IfSome o (λ block. IsLinked self.old.hash (height_after self.old.height) block)) }

        // What a fault leaves.
        ensures again { IfSome self.old.fault (λ fault. (result ≡ Err fault) × (self.new ≡ self.old)) }
        ensures fine { IfOk result (λ _. self.new.fault ≡ None) }
        ensures kept { IfErr result (λ e. e ≢ Memory → e ≢ Read → self.new.fault ≡ Some e) }
        ensures memory { IsErrOf result FeedFault.Memory → self.new ≡ self.old }
        ensures read { IsErrOf result FeedFault.Read → self.new ≡ self.old }

        // What the digest takes, where one is asked for: the bytes of each record, and at the end all that is left.
        ensures digests { H.tells → self.old.fault ≡ None → Digests ((H.view shelf.old).files name.now) self.old self.new result }
        ensures asked_for { is_some self.new.hasher ≡ is_some self.old.hasher }

        // A fault of a transaction is one of its text, and never that memory was short.
        ensures never_memory { (at : ℕ) → result ≢ Err (Tx at NoMemory) }

        // What the call leaves of the shelf: its files; its counts, unless it fails to read, where that of failed reads of
        // this name rises; and that it asks for this name alone.
        ensures frame { ReadsOne H.tells (IsErrOf result FeedFault.Read) name.now (H.view shelf.old) (H.view shelf.new) }
    {
        if let Some(fault) = self.fault {
            return Err(fault);
        }
        let before = self.copy()?;
        let raw = match self.next_raw(alloc, shelf, name) {
            Ok(raw) => raw,
            Err(fault) => return Err(fault),
        };
        match owned(alloc, raw) {
            Ok(block) => Ok(block),
            Err(_) => {
                *self = before;
                Err(FeedFault::Memory)
            }
        }
    }
}
