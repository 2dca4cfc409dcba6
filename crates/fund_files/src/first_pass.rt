//! A first reading of the block file, which only looks for outputs that pay a script of the wallet.

ghost use Rattle.std.specs.Prelude.{◌≤◌, ◌<◌, IfOk, IfSome, IsErrOf, length};
ghost use Rattle.fund_shelf.specs.Causes.{ReadsOne};

use crate::paid::Paid;
use fund_base::{Cursor, Memory};
use fund_shelf::{Fault, PIECE, Shelf};
use std::alloc::{AllocError, Global};
use tx_codec::pass_tx;

/// How many bytes of a block file are read at most.
const MOST: u64 = 1_073_741_824;

/// The greatest length of a record: its eight bytes in front, and its block.
const RECORD: usize = 4_000_008;

/// Adds what the transactions of a block pay. No list of one is made. It ends at the first bytes that are no transaction. The error is out of memory.
fn look_in_block(paid: &mut Paid, block: &[u8]) -> Result<(), Memory> {
    let mut cursor = Cursor::new(block);
    if cursor.take(80).is_err() {
        return Ok(());
    }
    let Ok(count) = cursor.compact() else {
        return Ok(());
    };
    for _ in 0..count {
        match pass_tx(&mut cursor) {
            Ok(tx) => paid.add_lent(&tx)?,
            Err(_) => return Ok(()),
        }
    }
    Ok(())
}

/// The block of the record with which these bytes begin, and what stands behind it; None where no record is there whole. A
/// record is the bytes F9 BE B4 D9, a length in four bytes, low byte first, and as many bytes.
fn split_record(bytes: &[u8]) -> Option<(&[u8], &[u8])>
    ensures { IfSome result (λ r. length r.1.now < length bytes.now) }
{
    if bytes.len() < 8 {
        return None;
    }
    let (head, rest) = bytes.split_at(8);
    if head[0] != 0xF9 || head[1] != 0xBE || head[2] != 0xB4 || head[3] != 0xD9 {
        return None;
    }
    let size = u32::from_le_bytes([head[4], head[5], head[6], head[7]]) as usize;
    if rest.len() < size {
        return None;
    }
    Some(rest.split_at(size))
}

/// Adds what the whole records at the front of these bytes pay, and gives how many bytes they have. The error is out of
/// memory.
fn look_in_records(paid: &mut Paid, bytes: &[u8]) -> Result<usize, Memory>
    ensures { IfOk result (λ seen. seen ≤ length bytes.now) }
{
    let mut left = bytes;
    'records: while let Some((block, behind)) = split_record(left) {
        look_in_block(paid, block)?;
        left = behind;
    }
    Ok(bytes.len() - left.len())
}

// Room for one piece.
fn room(alloc: Global) -> Result<Vec<u8>, AllocError> {
    vec![in alloc; 0u8; PIECE]
}

/// Takes the whole records from the front of these bytes, adds what they pay, and gives whether more bytes may make a record
/// of what is left. The error is out of memory.
fn take_records(paid: &mut Paid, bytes: &mut Vec<u8>) -> Result<bool, Memory> {
    let seen = look_in_records(paid, bytes)?;
    bytes.drain(..seen);
    Ok(bytes.len() < RECORD)
}

/// Adds what the blocks of the file `name` pay, by way of `piece`. It ends at the first bytes that are no block. The error is
/// a failed read or out of memory.
fn look_in_file<H: Shelf>(
    alloc: Global,
    shelf: &mut H,
    name: &str,
    piece: &mut [u8],
    paid: &mut Paid,
) -> Result<(), Fault>
    ensures frame { ReadsOne H.tells (IsErrOf result Fault.Failed) name.now (H.view shelf.old) (H.view shelf.new) }
{
    let mut place: u64 = 0;
    let mut bytes = Vec::new(alloc);
    'reading: while place <= MOST {
        let read = shelf.read_at(name, place, piece)?;
        if read == 0 {
            return Ok(());
        }
        place = place.saturating_add(read as u64);
        bytes.extend_from_slice(&piece[..read])?;
        match take_records(paid, &mut bytes) {
            Ok(true) => {}
            Ok(false) => return Ok(()),
            Err(Memory) => return Err(Fault::Memory),
        }
    }
    Ok(())
}

/// Adds what the blocks of the file `name` pay. It ends at the first bytes that are no block, and promises nothing of what is
/// found. The error is a failed read or out of memory.
pub fn look_through<H: Shelf>(
    alloc: Global,
    shelf: &mut H,
    name: &str,
    paid: &mut Paid,
) -> Result<(), Fault>
    ensures frame { ReadsOne H.tells (IsErrOf result Fault.Failed) name.now (H.view shelf.old) (H.view shelf.new) }
{
    let mut piece = room(alloc)?;
    look_in_file(alloc, shelf, name, &mut piece, paid)
}
