//! Why a job isn't gone on with.

use command_inputs::Stop as FundStop;
use kept_job::KeptFault;

/// Why the command stops before it writes or prints.
#[derive(Drop)]
pub enum Stop {
    /// A file wasn't read or is refused, or no plan is made of the request.
    Funding(FundStop),
    /// The kept job is refused, or the keeper failed.
    Kept(KeptFault),
}

impl From<FundStop> for Stop {
    ghost use Rattle.std.specs.Prelude.{◌≡◌};
    ghost use Rattle.command_resume.specs.declared.stop.Stop.TheVariants as stops;

    ghost from_gives = { λ stop e. e ≡ stops.Funding stop };

    fn from(stop: FundStop) -> Stop {
        Stop::Funding(stop)
    }
}

impl From<KeptFault> for Stop {
    ghost use Rattle.std.specs.Prelude.{◌≡◌};
    ghost use Rattle.command_resume.specs.declared.stop.Stop.TheVariants as stops;

    ghost from_gives = { λ fault e. e ≡ stops.Kept fault };

    fn from(fault: KeptFault) -> Stop {
        Stop::Kept(fault)
    }
}
