//! Why a report isn't accepted.

use command_inputs::Stop as PaymentStop;
use fund_base::Memory;
use report_check::CheckFault;

/// A file that is judged.
#[derive(Clone, Copy)]
pub enum CheckedFile {
    Report,
    Log,
}

/// Why the command stops before it says that a report is accepted.
#[derive(Drop)]
pub enum Stop {
    /// A file of the payment stops it, as it stops the command that funds the payment.
    Payment(PaymentStop),
    /// A read of the report or of the log failed.
    Read(CheckedFile),
    /// The report or the log is longer than its limit.
    TooLong(CheckedFile),
    /// The first rule that the report breaks with its log. It is never that there was not enough memory.
    Broken(CheckFault),
    /// There was not enough memory.
    Memory,
}

impl From<PaymentStop> for Stop {
    ghost use Rattle.std.specs.Prelude.{◌≡◌};
    ghost use Rattle.command_check.specs.declared.stop.Stop.TheVariants as stops;

    ghost from_gives = { λ stop e. e ≡ stops.Payment stop };

    fn from(stop: PaymentStop) -> Stop {
        Stop::Payment(stop)
    }
}

impl From<CheckFault> for Stop {
    ghost use Rattle.std.specs.Prelude.{◌≡◌};
    ghost use Rattle.command_check.specs.Stops.{stop_of_fault};

    ghost from_gives = { λ fault e. e ≡ stop_of_fault fault };

    fn from(fault: CheckFault) -> Stop {
        match fault {
            CheckFault::Memory => Stop::Memory,
            _ => Stop::Broken(fault),
        }
    }
}

impl From<Memory> for Stop {
    ghost use Rattle.std.specs.Prelude.{◌≡◌};
    ghost use Rattle.command_check.specs.declared.stop.Stop.TheVariants as stops;

    ghost from_gives = { λ _ e. e ≡ stops.Memory };

    fn from(_memory: Memory) -> Stop {
        Stop::Memory
    }
}
