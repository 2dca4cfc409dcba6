//! Why no amount is found for a recipient that gets all.

ghost use Rattle.std.specs.Prelude.{◌≡◌, ◌≢◌};
ghost use Rattle.max_words.specs.declared.fault.MaxFault.TheVariants.{Memory as OutOfMemory, Stopped};

use fund_base::Memory;
use fund_files::Stop;
use pay_words::{Names, WordFault};
use std::alloc::{AllocError, AllocFailed};

/// Why no amount is found for a recipient that gets all. A place counts the words behind `pay` from 0. They are told in this order.
#[derive(Drop)]
pub enum MaxFault {
    /// There is another recipient beside the one at this place.
    Others(usize),
    /// With an amount in place of `max` the words ask for no payment. Out of memory is none of these.
    Words(WordFault),
    /// All goes to the recipient at this place, and the method isn't `manual`.
    NotManual(usize),
    /// All goes to the recipient at this place, and no coin is listed.
    NoCoins(usize),
    /// The wallet file or the block file of these names stops it.
    Stopped(Names, Stop),
    /// There was not enough memory.
    Memory,
}

/// Why no amount is found where the reading of the files of these names stops.
pub fn stopped(names: Names, stop: Stop) -> MaxFault
    ensures memory { stop ≡ Stop.Memory → result ≡ OutOfMemory }
    ensures named { stop ≢ Stop.Memory → result ≡ Stopped names stop }
{
    match stop {
        Stop::Memory => MaxFault::Memory,
        stop => MaxFault::Stopped(names, stop),
    }
}

impl From<Memory> for MaxFault {
    ghost from_gives = { λ _ e. e ≡ OutOfMemory };

    fn from(_e: Memory) -> MaxFault {
        MaxFault::Memory
    }
}

impl From<AllocError> for MaxFault {
    ghost from_gives = { λ _ e. e ≡ OutOfMemory };

    fn from(_e: AllocError) -> MaxFault {
        MaxFault::Memory
    }
}

impl<T: Drop> From<AllocFailed<T>> for MaxFault {
    ghost from_gives = { λ _ e. e ≡ OutOfMemory };

    fn from(_e: AllocFailed<T>) -> MaxFault {
        MaxFault::Memory
    }
}
