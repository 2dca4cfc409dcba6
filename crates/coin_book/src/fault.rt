//! What keeps a book from being made or from growing.

ghost use Rattle.std.specs.Prelude.{◌≡◌};
ghost use Rattle.coin_book.specs.declared.fault.BookFault.TheVariants.{Memory as NoMemory};

use fund_base::{Memory, OutPoint};
use std::alloc::{AllocError, AllocFailed};

/// Why a call left the book as it was.
#[derive(Clone, Copy, PartialEq, Eq)]
pub enum BookFault {
    /// This outpoint would be a confirmed coin for a second time. It is the first such outpoint in chain order, and
    /// fewer than 100,001 coins stand before it.
    RepeatCoin(OutPoint),
    /// A coin would be number 100,001, and no coin up to it comes for a second time.
    Full,
    /// There was not enough memory.
    Memory,
}

impl From<Memory> for BookFault {
    ghost from_gives = { λ _ e. e ≡ NoMemory };

    fn from(_e: Memory) -> BookFault {
        BookFault::Memory
    }
}

impl From<AllocError> for BookFault {
    ghost from_gives = { λ _ e. e ≡ NoMemory };

    fn from(_e: AllocError) -> BookFault {
        BookFault::Memory
    }
}

impl<T: Drop> From<AllocFailed<T>> for BookFault {
    ghost from_gives = { λ _ e. e ≡ NoMemory };

    fn from(_e: AllocFailed<T>) -> BookFault {
        BookFault::Memory
    }
}
