//! Why a PSBT isn't made whole.

use crate::fault::CompleteFault;
use fund_base::Memory;
use fund_files::Stop as ChainStop;
use psbt_codec::PsbtFault;

/// Why a PSBT file is refused. No fault within it is that there was not enough memory.
#[derive(Clone, Copy, PartialEq, Eq)]
pub enum Refusal {
    /// Its text is no PSBT: the first fault.
    Psbt(PsbtFault),
    /// It isn't spelled as it would be written: it has pairs that would get lost, or has them in another order.
    OtherPairs,
    /// This is wrong with the first input with which something is.
    Input(CompleteFault),
}

/// Why the command stops before it prints a PSBT.
#[derive(Drop)]
pub enum Stop {
    /// The wallet file or the block file stops it.
    Chain(ChainStop),
    /// A read of the PSBT file failed.
    Read,
    /// The PSBT file is longer than its limit.
    TooLong,
    /// The PSBT file is refused.
    Refused(Refusal),
    /// There was not enough memory.
    Memory,
}

impl From<ChainStop> for Stop {
    ghost use Rattle.std.specs.Prelude.{◌≡◌};
    ghost use Rattle.command_complete.specs.declared.stop.Stop.TheVariants as stops;

    ghost from_gives = { λ stop e. e ≡ stops.Chain stop };

    fn from(stop: ChainStop) -> Stop {
        Stop::Chain(stop)
    }
}

impl From<CompleteFault> for Stop {
    ghost use Rattle.std.specs.Prelude.{◌≡◌};
    ghost use Rattle.command_complete.specs.Stops.{stop_of_input};

    ghost from_gives = { λ fault e. e ≡ stop_of_input fault };

    fn from(fault: CompleteFault) -> Stop {
        match fault {
            CompleteFault::Memory => Stop::Memory,
            _ => Stop::Refused(Refusal::Input(fault)),
        }
    }
}

impl From<Memory> for Stop {
    ghost use Rattle.std.specs.Prelude.{◌≡◌};
    ghost use Rattle.command_complete.specs.declared.stop.Stop.TheVariants as stops;

    ghost from_gives = { λ _ e. e ≡ stops.Memory };

    fn from(_memory: Memory) -> Stop {
        Stop::Memory
    }
}
