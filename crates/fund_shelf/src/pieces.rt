//! Files read, and whole texts put, piece by piece.

ghost use Rattle.std.specs.Prelude.{◌≡◌, ◌≤◌, ◌<◌, ◌++◌, vec_len, length, IfOk, OnOk, IsErrOf};
ghost use Rattle.fund_shelf.specs.Causes.{HasPart, ReadsOne, Rose};
ghost use Rattle.fund_shelf.specs.Pieces.{IsFront, IsSeen};

use crate::shelf::{Fault, Shelf};
use crate::sink::Sink;
use std::alloc::{AllocError, Global};

/// How many bytes one read asks for.
pub const PIECE: usize = 131_072;

/// Why a whole file was not read.
#[derive(Clone, Copy, PartialEq, Eq)]
pub enum ReadError {
    /// A read failed, and the count of reads of that file that failed rose.
    Failed,
    /// The file is longer than the limit.
    TooLong,
    /// There was not enough memory.
    Memory,
}

impl From<Fault> for ReadError {
    ghost use Rattle.fund_shelf.specs.Pieces.{read_error_of};

    ghost from_gives = { λ fault error. error ≡ read_error_of fault };

    fn from(fault: Fault) -> ReadError {
        match fault {
            Fault::Failed => ReadError::Failed,
            Fault::Memory => ReadError::Memory,
        }
    }
}

impl From<AllocError> for ReadError {
    ghost use Rattle.fund_shelf.specs.declared.pieces.ReadError.TheVariants.{Memory};

    ghost from_gives = { λ _ error. error ≡ Memory };

    fn from(_: AllocError) -> ReadError {
        ReadError::Memory
    }
}

/// The first bytes of a file, and whether it has more than these.
#[derive(Drop)]
pub struct Front {
    /// The first bytes, in the file's order.
    pub bytes: Vec<u8>,
    /// Whether the file has more.
    pub longer: bool,
}

/// Reads the first bytes of the file `name`, at most `most`, and whether it has more. [`Fault::Failed`] comes only where
/// the count of failed reads of that name rose; without it no count does. It asks for that name alone.
pub fn read_front<H: Shelf>(
    alloc: Global,
    shelf: &mut H,
    name: &str,
    most: usize,
) -> Result<Front, Fault>
    requires { most ≤ 1073741824 }
    ensures front { H.tells → IfOk result (IsFront most ((H.view shelf.old).files name.now)) }
    ensures bound { IfOk result (λ front. vec_len front.bytes ≤ most) }
    ensures frame { ReadsOne H.tells (IsErrOf result Fault.Failed) name.now (H.view shelf.old) (H.view shelf.new) }
{
    let mut piece = room(alloc)?;
    let mut bytes = read_pieces(alloc, shelf, name, most, &mut piece)?;
    let longer = bytes.len() > most;
    bytes.truncate(most);
    Ok(Front { bytes, longer })
}

/// Reads the whole file `name`, of at most `limit` bytes. [`ReadError::TooLong`] comes exactly where it has more, failed
/// reads and memory aside. It asks for that name alone.
pub fn read_whole<H: Shelf>(
    alloc: Global,
    shelf: &mut H,
    name: &str,
    limit: usize,
) -> Result<Vec<u8>, ReadError>
    requires { limit ≤ 1073741824 }
    ensures bytes { H.tells → IfOk result (λ bytes. bytes.items ≡ (H.view shelf.old).files name.now) }
    ensures bound { IfOk result (λ bytes. vec_len bytes ≤ limit) }
    ensures fits { H.tells → OnOk result (length ((H.view shelf.old).files name.now) ≤ limit) }
    ensures too_long { H.tells → IsErrOf result ReadError.TooLong → limit < length ((H.view shelf.old).files name.now) }
    ensures frame { ReadsOne H.tells (IsErrOf result ReadError.Failed) name.now (H.view shelf.old) (H.view shelf.new) }
{
    let front = read_front(alloc, shelf, name, limit)?;
    if front.longer {
        return Err(ReadError::TooLong);
    }
    Ok(front.bytes)
}

// Room for one piece.
fn room(alloc: Global) -> Result<Vec<u8>, AllocError>
    ensures { IfOk result (λ piece. vec_len piece ≡ PIECE) }
{
    vec![in alloc; 0u8; PIECE]
}

// Reads a file by way of `piece` to its end, or until it is longer than what is kept of it.
fn read_pieces<H: Shelf>(
    alloc: Global,
    shelf: &mut H,
    name: &str,
    most: usize,
    piece: &mut [u8],
) -> Result<Vec<u8>, Fault>
    requires most { most ≤ 1073741824 }
    requires room { 0 < length piece.old }
    ensures bytes { H.tells → IfOk result (λ bytes. IsSeen most ((H.view shelf.old).files name.now) bytes.items) }
    ensures frame { ReadsOne H.tells (IsErrOf result Fault.Failed) name.now (H.view shelf.old) (H.view shelf.new) }
{
    let mut bytes = Vec::new(alloc);
    'reading: while bytes.len() <= most {
        let count = shelf.read_at(name, bytes.len() as u64, piece)?;
        if count == 0 {
            return Ok(bytes);
        }
        bytes.extend_from_slice(&piece[..count])?;
    }
    Ok(bytes)
}

/// Puts all of `bytes`. After an error a first part of them has been put.
pub fn put_all<O: Sink>(out: &mut O, bytes: &[u8]) -> Result<(), Fault>
    ensures all { O.tells → OnOk result ((O.view out.new).written ≡ (O.view out.old).written ++ bytes.now) }
    ensures part { O.tells → HasPart (O.view out.old).written bytes.now (O.view out.new).written }
    ensures faults { (O.view out.old).faults ≤ (O.view out.new).faults }
    ensures refusals { (O.view out.old).refusals ≤ (O.view out.new).refusals }
    ensures memory { IsErrOf result Fault.Memory → Rose (O.view out.old).refusals (O.view out.new).refusals }
    ensures cause { IsErrOf result Fault.Failed → Rose (O.view out.old).faults (O.view out.new).faults }
    ensures unfailed { OnOk result ((O.view out.new).faults ≡ (O.view out.old).faults) }
    ensures unrefused { OnOk result ((O.view out.new).refusals ≡ (O.view out.old).refusals) }
    ensures failed_alone { IsErrOf result Fault.Failed → (O.view out.new).refusals ≡ (O.view out.old).refusals }
    ensures refused_alone { IsErrOf result Fault.Memory → (O.view out.new).faults ≡ (O.view out.old).faults }
{
    let mut at = 0;
    'putting: while at < bytes.len() {
        let count = out.put(&bytes[at..])?;
        at += count;
    }
    Ok(())
}
