//! Where a search stands, and what may be the matter with a position that is given.

ghost use Rattle.std.specs.Prelude.{◌≡◌};
ghost use Rattle.pick_problem.specs.declared.position.RestoreFault.TheVariants as fault;

use fund_base::{Memory, Places};
use std::alloc::{AllocError, AllocFailed};

/// Where a search stands after some tries.
#[derive(Drop)]
pub struct Position {
    /// The chosen places, rising.
    pub chosen: Places,
    /// The next place; the number of items where the search is done.
    pub next: u32,
    /// The best selection that was met so far.
    pub best: Option<Places>,
    /// The number of tries made.
    pub tries: u64,
    /// Whether the search is done.
    pub done: bool,
}

/// How far a search has come.
#[derive(Clone, Copy, PartialEq, Eq)]
pub enum Progress {
    /// There are tries left to make.
    Open,
    /// All selections were looked at, or shown to be no better.
    Done,
}

/// Why a search can't go on from a position.
#[derive(Clone, Copy, PartialEq, Eq)]
pub enum RestoreFault {
    /// No search of the problem with these tokens may stand at such a position.
    IllFormed,
    /// There was not enough memory.
    Memory,
}

impl From<Memory> for RestoreFault {
    ghost from_gives = { λ _ e. e ≡ fault.Memory };

    fn from(_e: Memory) -> RestoreFault {
        RestoreFault::Memory
    }
}

impl From<AllocError> for RestoreFault {
    ghost from_gives = { λ _ e. e ≡ fault.Memory };

    fn from(_e: AllocError) -> RestoreFault {
        RestoreFault::Memory
    }
}

impl<T: Drop> From<AllocFailed<T>> for RestoreFault {
    ghost from_gives = { λ _ e. e ≡ fault.Memory };

    fn from(_e: AllocFailed<T>) -> RestoreFault {
        RestoreFault::Memory
    }
}
