//! Why there is no pool.

ghost use Rattle.std.specs.Prelude.{◌≡◌};
ghost use Rattle.output_groups.specs.declared.fault.PoolFault.TheVariants as fault;

use fund_base::Memory;
use std::alloc::{AllocError, AllocFailed};

/// Why there is no pool of a row.
#[derive(Clone, Copy, PartialEq, Eq)]
pub enum PoolFault {
    /// The row keeps this many groups, which are more than 10,000.
    TooMany(u64),
    /// There was not enough memory.
    Memory,
}

impl From<Memory> for PoolFault {
    ghost from_gives = { λ _ e. e ≡ fault.Memory };

    fn from(_e: Memory) -> PoolFault {
        PoolFault::Memory
    }
}

impl From<AllocError> for PoolFault {
    ghost from_gives = { λ _ e. e ≡ fault.Memory };

    fn from(_e: AllocError) -> PoolFault {
        PoolFault::Memory
    }
}

impl<T: Drop> From<AllocFailed<T>> for PoolFault {
    ghost from_gives = { λ _ e. e ≡ fault.Memory };

    fn from(_e: AllocFailed<T>) -> PoolFault {
        PoolFault::Memory
    }
}
