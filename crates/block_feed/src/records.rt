//! The records of a block file.

ghost use Rattle.std.specs.Prelude.{◌≡◌, ◌≢◌, ◌+◌, ◌≤◌, ◌<◌, [], ◌∷◌, ℕ, length, take, nat_lt, option_map, IfOk, IfSome, IfNone, is_some, IsErrOf, Err};
ghost use Rattle.std.specs.Int.{w32, from_le_bytes};
ghost use Rattle.fund_shelf.specs.Causes.{Asks, NeverFall, ReadsOne, Rose};
ghost use Rattle.fund_base.specs.Parsing.{YieldsAll};
ghost use Rattle.fund_base.specs.Writer.{Feeds};
ghost use Rattle.block_feed.specs.Digest.{HasTaken};
ghost use Rattle.block_feed.specs.Feed.{Finds, seen_from};
ghost use Rattle.block_feed.specs.Parts.{StandsAt, body_in};
ghost use Rattle.block_feed.specs.Reading.{cut_off, magic_at, size_at, record_at};
ghost use Rattle.block_feed.specs.declared.fault.FeedFault.TheVariants.{Tx, Read, Memory};
ghost use Rattle.tx_codec.specs.declared.fault.TxFault.TheVariants.{Memory as NoMemory};

use crate::fault::FeedFault;
use crate::parts::{is_longer, is_zero, part_of};
use crate::tail::end_at;
use fund_shelf::Shelf;
use sha2::Sha256;
use std::alloc::Global;

/// What stands before each record.
const MAGIC: [u8; 4] = [0xf9, 0xbe, 0xb4, 0xd9];

/// The bytes of a record: the first eight, which are the magic and the block's length, and those of the block.
#[derive(Drop)]
pub struct Record {
    /// The magic and the length of the block, eight bytes.
    pub head: Vec<u8>,
    /// The bytes of the block.
    pub body: Vec<u8>,
}

/// The fault of bytes that are not there.
fn cut_off(longer: bool, fault: FeedFault) -> FeedFault
    ensures { result ≡ cut_off longer fault }
{
    if longer { FeedFault::Limit } else { fault }
}

#[tactic(auto, unfolding(crate::specs::Reading::magic_at))]
fn magic_of(longer: bool, place: u64, rest: &[u8]) -> Result<&[u8], FeedFault>
    ensures gives { YieldsAll Memory (λ after. after.now) result (magic_at longer place rest.now) }
    ensures rest { IfOk result (λ after. length after.now + 4 ≡ length rest.now) }
    ensures never_read { result ≢ Err Read }
    ensures never_short { result ≢ Err Memory }
    ensures never_memory { (at : ℕ) → result ≢ Err (Tx at NoMemory) }
{
    if rest.len() < 4 {
        let cut = longer && rest == &MAGIC[..rest.len()];
        return Err(if cut {
            FeedFault::Limit
        } else {
            FeedFault::Magic(place)
        });
    }
    let (front, after) = rest.split_at(4);
    if front == MAGIC.as_slice() {
        Ok(after)
    } else {
        Err(FeedFault::Magic(place))
    }
}

/// The number in four bytes, the low byte first.
fn number_of(bytes: &[u8]) -> u32
    requires { 4 ≤ length bytes.now }
    ensures { result ≡ from_le_bytes w32 (take 4 bytes.now) }
{
    let (front, _) = bytes.split_at(4);
    u32::from_le_bytes([front[0], front[1], front[2], front[3]])
}

/// The length of the block of a record that begins with these bytes at this place, which are its first eight or all
/// that there are.
#[tactic(auto, unfolding(crate::specs::Reading::size_at))]
fn size_of(longer: bool, place: u64, head: &[u8]) -> Result<u32, FeedFault>
    requires { place ≤ 1073741824 }
    ensures gives { YieldsAll Memory (λ size. size) result (size_at longer place head.now) }
    ensures whole { IfOk result (λ _. 8 ≤ length head.now) }
    ensures least { IfOk result (λ size. 81 ≤ size) }
    ensures most { IfOk result (λ size. size ≤ 4_000_000) }
    ensures never_read { result ≢ Err Read }
    ensures never_short { result ≢ Err Memory }
    ensures never_memory { (at : ℕ) → result ≢ Err (Tx at NoMemory) }
{
    let after = magic_of(longer, place, head)?;
    if after.len() < 4 {
        return Err(cut_off(longer, FeedFault::Length(place + 4)));
    }
    let size = number_of(after);
    if size < 81 || size > 4_000_000 {
        return Err(FeedFault::Length(place + 4));
    }
    Ok(size)
}

/// The same, of the file `name`. Where bytes are missing, it is asked whether the file is longer than its limit.
fn size_from<H: Shelf>(shelf: &mut H, name: &str, place: u64, head: &[u8]) -> Result<u32, FeedFault>
    requires { place ≤ 1073741824 }
    ensures gives { H.tells → Finds (λ size. size) result (size_at (nat_lt 1073741824 (length ((H.view shelf.old).files name.now))) place head.now) }
    ensures whole { IfOk result (λ _. 8 ≤ length head.now) }
    ensures least { IfOk result (λ size. 81 ≤ size) }
    ensures most { IfOk result (λ size. size ≤ 4_000_000) }
    ensures short { result ≡ Err Memory → length head.now < 8 }
    ensures never_memory { (at : ℕ) → result ≢ Err (Tx at NoMemory) }
    ensures frame { ReadsOne H.tells (IsErrOf result FeedFault.Read) name.now (H.view shelf.old) (H.view shelf.new) }
{
    if head.len() < 8 {
        let longer = is_longer(shelf, name)?;
        return size_of(longer, place, head);
    }
    size_of(false, place, head)
}

/// The fault of a block of which bytes are missing behind its length, which stands at this place.
fn missing<H: Shelf>(shelf: &mut H, name: &str, place: u64) -> FeedFault
    ensures gives { H.tells → result ≢ Memory → result ≢ Read → result ≡ cut_off (nat_lt 1073741824 (length ((H.view shelf.old).files name.now))) (FeedFault.Length place) }
    ensures never_memory { (at : ℕ) → result ≢ Tx at NoMemory }
    ensures same { H.tells → (H.view shelf.new).files ≡ (H.view shelf.old).files }
    ensures reads { NeverFall (H.view shelf.old).reads (H.view shelf.new).reads }
    ensures writes { (H.view shelf.new).writes ≡ (H.view shelf.old).writes }
    ensures cause { result ≡ Read → Rose ((H.view shelf.old).reads name.now) ((H.view shelf.new).reads name.now) }
    ensures unfailed { result ≢ Read → (H.view shelf.new).reads ≡ (H.view shelf.old).reads }
    ensures asked { H.tells → Asks (name.now ∷ []) (H.view shelf.old).asked (H.view shelf.new).asked }
{
    match is_longer(shelf, name) {
        Ok(longer) => cut_off(longer, FeedFault::Length(place)),
        Err(fault) => FeedFault::from(fault),
    }
}

/// The record of the file `name` at this place. None where nothing or zero bytes alone follow; `hasher` then takes
/// these.
pub fn record_from<H: Shelf>(
    alloc: Global,
    shelf: &mut H,
    name: &str,
    place: u64,
    hasher: &mut Option<Sha256>,
) -> Result<Option<Record>, FeedFault>
    requires { place ≤ 1073741824 }
    ensures gives { H.tells → let file = (H.view shelf.old).files name.now in Finds (λ o. option_map body_in o) result (record_at (nat_lt 1073741824 (length file)) place (seen_from file place)) }

    // The bytes of a record, where the shelf tells them, and its length.
    ensures stands { IfOk result (λ o. IfSome o (StandsAt H.tells (seen_from ((H.view shelf.old).files name.now) place) place)) }

    // What the digest takes.
    ensures taken { H.tells → IfOk result (λ o. IfNone o (Feeds HasTaken hasher.old hasher.new (seen_from ((H.view shelf.old).files name.now) place))) }
    ensures asked_for { is_some hasher.new ≡ is_some hasher.old }

    // What the call leaves of the shelf.
    ensures never_memory { (at : ℕ) → result ≢ Err (Tx at NoMemory) }
    ensures frame { ReadsOne H.tells (IsErrOf result FeedFault.Read) name.now (H.view shelf.old) (H.view shelf.new) }
{
    let head = part_of(alloc, shelf, name, place, 8)?;
    if is_zero(&head) {
        end_at(alloc, shelf, name, place, hasher)?;
        return Ok(None);
    }
    let size = size_from(shelf, name, place, &head)?;
    let body = part_of(alloc, shelf, name, place + 8, size as usize)?;
    if body.len() < size as usize {
        return Err(missing(shelf, name, place + 4));
    }
    Ok(Some(Record { head, body }))
}
