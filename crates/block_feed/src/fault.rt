//! Why a block file was not read on.

ghost use Rattle.std.specs.Prelude.{◌≡◌};
ghost use Rattle.block_feed.specs.declared.fault.FeedFault.TheVariants.{Memory};

use fund_shelf::Fault;
use std::alloc::{AllocError, AllocFailed};
use tx_codec::TxFault;

/// What is wrong with a block file at the place where it is read: the first fault in the order magic,
/// length, link, count of transactions, transactions, rest of the record, Merkle root, mutated level. A
/// height is that of the block which would stand there.
#[derive(Clone, Copy, PartialEq, Eq)]
pub enum FeedFault {
    /// The four bytes F9 BE B4 D9 do not stand at this place of the file, where a record begins, nor do
    /// zero bytes alone to the file's end.
    Magic(u64),
    /// The length at this place of the file is cut off, is below 81 or above 4,000,000, or exceeds what
    /// the file has behind it.
    Length(u64),
    /// The count of transactions or a transaction of the block at this height cannot be read. A place in
    /// the fault counts from the block's first byte. It never holds [`TxFault::Memory`].
    Tx(u32, TxFault),
    /// The header of the block at this height does not carry the Merkle root of its transactions.
    Merkle(u32),
    /// Some level of the Merkle tree of the block at this height has equal hashes at an even place and
    /// the next (CVE-2012-2459).
    Mutated(u32),
    /// The block follows another than the one before it: the hash of that one, and the hash that the
    /// header names.
    NotLinked([u8; 32], [u8; 32]),
    /// Bytes stand behind the last transaction of the block at this height.
    Trailing(u32),
    /// The block at this height has no transaction.
    Empty(u32),
    /// A read failed, and the count of reads of that file that failed rose in this call.
    Read,
    /// The file has more than 1,073,741,824 bytes, and one behind these is needed.
    Limit,
    /// There was not enough memory.
    Memory,
}

impl From<Fault> for FeedFault {
    ghost use Rattle.block_feed.specs.Reading.{read_fault};

    ghost from_gives = { λ fault e. e ≡ read_fault fault };

    fn from(fault: Fault) -> FeedFault {
        match fault {
            Fault::Failed => FeedFault::Read,
            Fault::Memory => FeedFault::Memory,
        }
    }
}

impl From<AllocError> for FeedFault {
    ghost from_gives = { λ _ e. e ≡ Memory };

    fn from(_e: AllocError) -> FeedFault {
        FeedFault::Memory
    }
}

impl<T: Drop> From<AllocFailed<T>> for FeedFault {
    ghost from_gives = { λ _ e. e ≡ Memory };

    fn from(_e: AllocFailed<T>) -> FeedFault {
        FeedFault::Memory
    }
}
