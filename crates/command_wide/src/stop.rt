//! Why a wide search stops before it writes.

ghost use Rattle.std.specs.Prelude.{◌≡◌};

use command_inputs::Stop as PaymentStop;
use fund_base::Memory;
use fund_files::Stop as FileStop;
use fund_steps::PlanFault;

/// Why the command stops before it writes.
#[derive(Drop)]
pub enum Stop {
    /// As a payment does: a read failed, a file or the plan is refused, or there was not enough memory.
    AsPayment(PaymentStop),
    /// The wide search doesn't take the request: its method isn't `changeless`, it lists coins, or it names a payment to be
    /// replaced.
    NotWide,
}

impl From<FileStop> for Stop {
    ghost use Rattle.command_wide.specs.Stops.{file_stop_of};

    ghost from_gives = { λ stop wide_stop. wide_stop ≡ file_stop_of stop };

    fn from(stop: FileStop) -> Stop {
        Stop::AsPayment(PaymentStop::from(stop))
    }
}

impl From<PlanFault> for Stop {
    ghost use Rattle.command_wide.specs.Stops.{fault_stop_of};

    ghost from_gives = { λ fault stop. stop ≡ fault_stop_of fault };

    fn from(fault: PlanFault) -> Stop {
        Stop::AsPayment(PaymentStop::from(fault))
    }
}

impl From<Memory> for Stop {
    ghost use Rattle.command_inputs.specs.declared.refusal.Stop.TheVariants as payments;
    ghost use Rattle.command_wide.specs.declared.stop.Stop.TheVariants as stops;

    ghost from_gives = { λ memory stop. stop ≡ stops.AsPayment payments.Memory };

    fn from(_memory: Memory) -> Stop {
        Stop::AsPayment(PaymentStop::Memory)
    }
}
