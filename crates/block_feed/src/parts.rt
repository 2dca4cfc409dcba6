//! Parts of a block file, read from its place on.

ghost use Rattle.std.specs.Prelude.{◌≡◌, ◌+◌, ◌≤◌, ◌<◌, ◌==◌, length, take, drop, nat_lt, vec_len, IfOk, IsErrOf};
ghost use Rattle.std.specs.List.{list_all};
ghost use Rattle.fund_base.specs.Cursor.{IsBytes};
ghost use Rattle.block_feed.specs.Feed.{seen_from};
ghost use Rattle.fund_shelf.specs.Causes.{ReadsOne};
ghost use Rattle.block_feed.specs.Parts.{IsFirstPart};

use fund_shelf::{Fault, PIECE, Shelf};
use std::alloc::{AllocError, Global};

/// How many bytes of a block file are read at most.
const MOST: usize = 1_073_741_824;

// Room for a piece of so many bytes, or for one.
fn room(alloc: Global, size: usize) -> Result<Vec<u8>, AllocError>
    ensures { IfOk result (λ piece. 0 < vec_len piece) }
{
    vec![in alloc; 0u8; size.max(1)]
}

// Reads `count` bytes of the file `name` from place `at` on by way of `piece`, or as many as there are.
fn read_pieces<H: Shelf>(
    alloc: Global,
    shelf: &mut H,
    name: &str,
    at: u64,
    count: usize,
    piece: &mut [u8],
) -> Result<Vec<u8>, Fault>
    requires within { at + count ≤ 1073741824 }
    requires room { 0 < length piece.old }
    ensures part { H.tells → IfOk result (λ part. part.items ≡ take count (drop at ((H.view shelf.old).files name.now))) }
    ensures bound { IfOk result (λ part. vec_len part ≤ count) }
    ensures frame { ReadsOne H.tells (IsErrOf result Fault.Failed) name.now (H.view shelf.old) (H.view shelf.new) }
{
    let mut part = Vec::with_capacity(alloc, count)?;
    'reading: while part.len() < count {
        let read = shelf.read_at(name, at + part.len() as u64, piece)?;
        if read == 0 {
            return Ok(part);
        }
        let kept = read.min(count - part.len());
        part.extend_from_slice(&piece[..kept])?;
    }
    Ok(part)
}

/// As many as `count` bytes of the file `name` from place `at` on, or those that there are within the limit of
/// 1,073,741,824 bytes. [`Fault::Failed`] comes only where the count of failed reads of that name rose; without it no
/// count does. It asks for that name alone.
pub fn part_of<H: Shelf>(
    alloc: Global,
    shelf: &mut H,
    name: &str,
    at: u64,
    count: usize,
) -> Result<Vec<u8>, Fault>
    requires { at ≤ 1073741824 }
    ensures part { H.tells → IfOk result (λ part. part.items ≡ take count (seen_from ((H.view shelf.old).files name.now) at)) }
    ensures bound { IfOk result (λ part. vec_len part ≤ count) }
    ensures within { IfOk result (λ part. at + vec_len part ≤ 1073741824) }
    ensures frame { ReadsOne H.tells (IsErrOf result Fault.Failed) name.now (H.view shelf.old) (H.view shelf.new) }
{
    let within = count.min(MOST - at as usize);
    let mut piece = room(alloc, within.min(PIECE))?;
    read_pieces(alloc, shelf, name, at, within, &mut piece)
}

/// The next bytes of the file `name` from place `at` on within the limit, and none where there are none.
pub fn piece_at<H: Shelf>(
    alloc: Global,
    shelf: &mut H,
    name: &str,
    at: u64,
) -> Result<Vec<u8>, Fault>
    requires { at ≤ 1073741824 }
    ensures piece { H.tells → IfOk result (λ piece. IsFirstPart (seen_from ((H.view shelf.old).files name.now) at) piece.items) }
    ensures within { IfOk result (λ piece. at + vec_len piece ≤ 1073741824) }
    ensures frame { ReadsOne H.tells (IsErrOf result Fault.Failed) name.now (H.view shelf.old) (H.view shelf.new) }
{
    part_of(alloc, shelf, name, at, PIECE)
}

/// Whether the file `name` has more than 1,073,741,824 bytes.
pub fn is_longer<H: Shelf>(shelf: &mut H, name: &str) -> Result<bool, Fault>
    ensures longer { H.tells → IfOk result (λ longer. longer ≡ nat_lt 1073741824 (length ((H.view shelf.old).files name.now))) }
    ensures frame { ReadsOne H.tells (IsErrOf result Fault.Failed) name.now (H.view shelf.old) (H.view shelf.new) }
{
    let mut byte = [0u8; 1];
    let count = shelf.read_at(name, MOST as u64, &mut byte)?;
    Ok(count > 0)
}

/// Whether there are no bytes but zero.
pub fn is_zero(bytes: &[u8]) -> bool
    ensures value { result ≡ list_all (λ b. b == 0) bytes.now }
    ensures bytes { IsBytes bytes.now }
{
    bytes.iter().all(|byte| *byte == 0)
}
