//! Why a saved text couldn't be read, or its search not be resumed.

ghost use Rattle.std.specs.Prelude.{◌≡◌};
ghost use Rattle.search_keep.specs.Resumed.{restore_fault};
ghost use Rattle.search_keep.specs.declared.fault.SavedFault.TheVariants as faults;

use fund_base::Memory;
use pick_problem::RestoreFault;
use std::alloc::{AllocError, AllocFailed};

/// Why a saved text wasn't read, or why its search can't go on. Of several reasons the first in this order is told.
#[derive(Clone, Copy, PartialEq, Eq)]
pub enum SavedFault {
    /// The bytes are no saved text. The place is that of the first byte at which no text goes on as the bytes do, or
    /// their length where they end too early.
    Form(u64),
    /// The digest that is kept isn't that of the job now; both are told, the kept one first.
    JobElse([u8; 32], [u8; 32]),
    /// The job has made 10,000,000 tries or more.
    Spent,
    /// No search of the problem with these letters may stand at the position.
    IllFormed,
    /// There was not enough memory.
    Memory,
}

impl From<Memory> for SavedFault {
    ghost from_gives = { λ _ e. e ≡ faults.Memory };

    fn from(_e: Memory) -> SavedFault {
        SavedFault::Memory
    }
}

impl From<AllocError> for SavedFault {
    ghost from_gives = { λ _ e. e ≡ faults.Memory };

    fn from(_e: AllocError) -> SavedFault {
        SavedFault::Memory
    }
}

impl<T: Drop> From<AllocFailed<T>> for SavedFault {
    ghost from_gives = { λ _ e. e ≡ faults.Memory };

    fn from(_e: AllocFailed<T>) -> SavedFault {
        SavedFault::Memory
    }
}

impl From<RestoreFault> for SavedFault {
    ghost from_gives = { λ fault e. e ≡ restore_fault fault };

    fn from(fault: RestoreFault) -> SavedFault {
        match fault {
            RestoreFault::IllFormed => SavedFault::IllFormed,
            RestoreFault::Memory => SavedFault::Memory,
        }
    }
}
