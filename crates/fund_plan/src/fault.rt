//! Why a plan can't go on from what is kept, and why its log isn't accepted.

ghost use Rattle.std.specs.Prelude.{◌≡◌};
ghost use Rattle.fund_plan.specs.Resumed.{check_of, fault_of};

use log_checker::LogFault;
use search_keep::SavedFault;
use search_run::{RestoreRefused, VerifyFault};

/// What is the matter with a section of a log.
#[derive(Clone, Copy, PartialEq, Eq)]
pub enum CheckAt {
    /// The section at this index isn't that of the search to which the run comes there: its row, its stage or its
    /// digest is another. An open section comes after the closed ones; it is also wrong where there is none, and
    /// where the saved row or stage is another.
    Section(u64),
    /// The section at this index, a finished one, has this fault as the log of its search.
    Log(u64, LogFault),
    /// There was not enough memory.
    Memory,
}

/// Why a plan can't go on from a saved position and a log. Of several reasons the first is told: the job's digest, its
/// tries, a section, the position, an answer.
#[derive(Clone, Copy, PartialEq, Eq)]
pub enum PlanSavedFault {
    /// What is saved is of another job, has no tries left, or is no position of the open search.
    Saved(SavedFault),
    /// A section isn't that of the search to which the run comes, or its answer isn't admissible for that search.
    False(CheckAt),
    /// There was not enough memory.
    Memory,
}

impl From<RestoreRefused> for PlanSavedFault {
    ghost from_gives = { λ fault e. e ≡ fault_of fault };

    fn from(fault: RestoreRefused) -> PlanSavedFault {
        match fault {
            RestoreRefused::Section(index) => PlanSavedFault::False(CheckAt::Section(index)),
            RestoreRefused::IllFormed => PlanSavedFault::Saved(SavedFault::IllFormed),
            RestoreRefused::Answer(index) => {
                PlanSavedFault::False(CheckAt::Log(index, LogFault::AnswerNotAdmissible))
            }
            RestoreRefused::Memory => PlanSavedFault::Memory,
        }
    }
}

impl From<VerifyFault> for CheckAt {
    ghost from_gives = { λ fault e. e ≡ check_of fault };

    fn from(fault: VerifyFault) -> CheckAt {
        match fault {
            VerifyFault::Log(index, fault) => CheckAt::Log(index, fault),
            VerifyFault::Memory => CheckAt::Memory,
        }
    }
}
