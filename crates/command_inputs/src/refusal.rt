//! Why a payment isn't funded.

ghost use Rattle.std.specs.Prelude.{◌≡◌};

use fee_bump::BumpFault;
use fund_base::Memory;
use fund_files::{File, FileRefusal, Stop as FileStop};
use fund_outside::KeepFault;
use fund_steps::PlanFault;

/// What is refused.
#[derive(Drop)]
pub enum Refusal {
    /// A file is refused.
    Files(FileRefusal),
    /// The payment that the request names isn't replaced.
    Bump(BumpFault),
    /// No plan is made of the request.
    Plan(PlanFault),
}

/// Why the command stops before it writes.
#[derive(Drop)]
pub enum Stop {
    /// A read of the file failed.
    Read(File),
    /// A file, or what it asks for, is refused.
    Refused(Refusal),
    /// The keeper of jobs failed.
    Keep,
    /// There was not enough memory.
    Memory,
}

impl From<FileStop> for Stop {
    ghost use Rattle.command_inputs.specs.Stops.{lifted};

    ghost from_gives = { λ stop command_stop. command_stop ≡ lifted stop };

    fn from(stop: FileStop) -> Stop {
        match stop {
            FileStop::Read(file) => Stop::Read(file),
            FileStop::Refused(refusal) => Stop::Refused(Refusal::Files(refusal)),
            FileStop::Memory => Stop::Memory,
        }
    }
}

impl From<KeepFault> for Stop {
    ghost use Rattle.command_inputs.specs.Stops.{of_keeper};

    ghost from_gives = { λ fault stop. stop ≡ of_keeper fault };

    fn from(fault: KeepFault) -> Stop {
        match fault {
            KeepFault::Failed => Stop::Keep,
            KeepFault::Memory => Stop::Memory,
        }
    }
}

impl From<BumpFault> for Stop {
    ghost use Rattle.command_inputs.specs.Stops.{bump_stop_of};

    ghost from_gives = { λ fault stop. stop ≡ bump_stop_of fault };

    fn from(fault: BumpFault) -> Stop {
        match fault {
            BumpFault::Memory => Stop::Memory,
            _ => Stop::Refused(Refusal::Bump(fault)),
        }
    }
}

impl From<PlanFault> for Stop {
    ghost use Rattle.command_inputs.specs.PlanEnds.{plan_stop_of};

    ghost from_gives = { λ fault stop. stop ≡ plan_stop_of fault };

    fn from(fault: PlanFault) -> Stop {
        match fault {
            PlanFault::Memory => Stop::Memory,
            _ => Stop::Refused(Refusal::Plan(fault)),
        }
    }
}

impl From<Memory> for Stop {
    ghost use Rattle.command_inputs.specs.declared.refusal.Stop.TheVariants as stops;

    ghost from_gives = { λ memory stop. stop ≡ stops.Memory };

    fn from(_memory: Memory) -> Stop {
        Stop::Memory
    }
}
