//! Why a kept job isn't gone on with.

ghost use Rattle.std.specs.Prelude.{◌≡◌};
ghost use Rattle.kept_job.specs.Faults.{of_check, of_keeper, of_plan, of_saved, of_text};
ghost use Rattle.kept_job.specs.declared.fault.KeptFault.TheVariants as faults;

use closing_log::LogTextFault;
use fund_base::Memory;
use fund_outside::KeepFault;
use fund_plan::{CheckAt, PlanSavedFault};
use log_checker::LogFault;
use search_keep::SavedFault;
use std::alloc::{AllocError, AllocFailed};

/// Why a kept job isn't gone on with. Of several reasons the first in this order is told; that the keeper failed is told
/// where it did.
#[derive(Clone, Copy, PartialEq, Eq)]
pub enum KeptFault {
    /// There is no job of this name.
    NoJob,
    /// The saved text isn't one. The place is that of the first byte at which no text goes on as the bytes do, or their
    /// length where they end too early.
    Form(u64),
    /// The digest that is kept isn't that of the files now; both are told, the kept one first.
    JobElse([u8; 32], [u8; 32]),
    /// The job has made 10,000,000 tries or more.
    Spent,
    /// The part of this number, counted from 0, is missing.
    Part(u32),
    /// The parts are together longer than 67,108,864 bytes.
    LongLog,
    /// The digest that is kept of the log isn't that of its joined parts; both are told, the kept one first.
    Parts([u8; 32], [u8; 32]),
    /// The section at this index isn't that of the search to which the run comes there, or no section is open; or the
    /// joined parts are no text of a log, and so many sections stand before the place where they leave it.
    Section(u64),
    /// No search of the open section's problem stands at the saved position.
    IllFormed,
    /// The finished section at this index has this fault as the log of its search.
    Log(u64, LogFault),
    /// The keeper failed, and its count of failures rose.
    Failed,
    /// There was not enough memory.
    Memory,
}

impl From<KeepFault> for KeptFault {
    ghost from_gives = { λ fault e. e ≡ of_keeper fault };

    fn from(fault: KeepFault) -> KeptFault {
        match fault {
            KeepFault::Failed => KeptFault::Failed,
            KeepFault::Memory => KeptFault::Memory,
        }
    }
}

impl From<SavedFault> for KeptFault {
    ghost from_gives = { λ fault e. e ≡ of_saved fault };

    fn from(fault: SavedFault) -> KeptFault {
        match fault {
            SavedFault::Form(place) => KeptFault::Form(place),
            SavedFault::JobElse(kept, now) => KeptFault::JobElse(kept, now),
            SavedFault::Spent => KeptFault::Spent,
            SavedFault::IllFormed => KeptFault::IllFormed,
            SavedFault::Memory => KeptFault::Memory,
        }
    }
}

impl From<LogTextFault> for KeptFault {
    ghost from_gives = { λ fault e. e ≡ of_text fault };

    fn from(fault: LogTextFault) -> KeptFault {
        match fault {
            LogTextFault::Form { place: _, sections } => KeptFault::Section(sections),
            LogTextFault::Memory => KeptFault::Memory,
        }
    }
}

impl From<CheckAt> for KeptFault {
    ghost from_gives = { λ fault e. e ≡ of_check fault };

    fn from(fault: CheckAt) -> KeptFault {
        match fault {
            CheckAt::Section(index) => KeptFault::Section(index),
            CheckAt::Log(index, fault) => KeptFault::Log(index, fault),
            CheckAt::Memory => KeptFault::Memory,
        }
    }
}

impl From<PlanSavedFault> for KeptFault {
    ghost from_gives = { λ fault e. e ≡ of_plan fault };

    fn from(fault: PlanSavedFault) -> KeptFault {
        match fault {
            PlanSavedFault::Saved(fault) => KeptFault::from(fault),
            PlanSavedFault::False(at) => KeptFault::from(at),
            PlanSavedFault::Memory => KeptFault::Memory,
        }
    }
}

impl From<Memory> for KeptFault {
    ghost from_gives = { λ _ e. e ≡ faults.Memory };

    fn from(_e: Memory) -> KeptFault {
        KeptFault::Memory
    }
}

impl From<AllocError> for KeptFault {
    ghost from_gives = { λ _ e. e ≡ faults.Memory };

    fn from(_e: AllocError) -> KeptFault {
        KeptFault::Memory
    }
}

impl<T: Drop> From<AllocFailed<T>> for KeptFault {
    ghost from_gives = { λ _ e. e ≡ faults.Memory };

    fn from(_e: AllocFailed<T>) -> KeptFault {
        KeptFault::Memory
    }
}
