//! Why bytes aren't a packed job.

ghost use Rattle.std.specs.Prelude.{◌≡◌};
ghost use Rattle.packed_jobs.specs.declared.fault.PackFault.TheVariants.{Memory};
ghost use Rattle.packed_jobs.specs.Fault.{cut_fault};

use fund_base::{CutFault, Memory as OutOfMemory};
use std::alloc::{AllocError, AllocFailed};

/// What is wrong with a packed job: the first fault in reading order.
#[derive(Clone, Copy, PartialEq, Eq)]
pub enum PackFault {
    /// The bytes end within the field that begins at this place.
    Truncated(u64),
    /// The CompactSize at this place isn't in its shortest spelling.
    LongCompact(u64),
    /// The number of the parts is 0, or above 4,294,967,295.
    Parts,
    /// Bytes stand after the job, from this place on.
    Trailing(u64),
    /// There was not enough memory.
    Memory,
}

impl From<CutFault> for PackFault {
    ghost from_gives = { λ cut e. e ≡ cut_fault cut };

    fn from(cut: CutFault) -> PackFault {
        match cut {
            CutFault::Truncated(place) => PackFault::Truncated(place),
            CutFault::LongCompact(place) => PackFault::LongCompact(place),
        }
    }
}

impl From<AllocError> for PackFault {
    ghost from_gives = { λ _ e. e ≡ Memory };

    fn from(_e: AllocError) -> PackFault {
        PackFault::Memory
    }
}

impl<T: Drop> From<AllocFailed<T>> for PackFault {
    ghost from_gives = { λ _ e. e ≡ Memory };

    fn from(_e: AllocFailed<T>) -> PackFault {
        PackFault::Memory
    }
}

impl From<OutOfMemory> for PackFault {
    ghost from_gives = { λ _ e. e ≡ Memory };

    fn from(_e: OutOfMemory) -> PackFault {
        PackFault::Memory
    }
}
