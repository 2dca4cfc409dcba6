//! Why a sweep stops before it prints.

ghost use Rattle.std.specs.Prelude.{◌≡◌};

use command_inputs::Stop as PaymentStop;
use fund_base::Memory;
use fund_steps::PlanFault;

/// Why the command stops before it prints.
#[derive(Drop)]
pub enum Stop {
    /// As a payment does: a read failed, a file or the plan is refused, or there was not enough memory.
    AsPayment(PaymentStop),
    /// A sweep doesn't take the request: it has several recipients, lists coins, or names a payment to be replaced.
    NotSweep,
    /// The payment of all coins weighs this much, in weight units, which is more than 400,000.
    TooHeavy(u64),
}

impl From<PaymentStop> for Stop {
    ghost use Rattle.command_sweep.specs.declared.stop.Stop.TheVariants as stops;

    ghost from_gives = { λ payment_stop stop. stop ≡ stops.AsPayment payment_stop };

    fn from(stop: PaymentStop) -> Stop {
        Stop::AsPayment(stop)
    }
}

impl From<PlanFault> for Stop {
    ghost use Rattle.command_sweep.specs.Stops.{fault_stop_of};

    ghost from_gives = { λ fault stop. stop ≡ fault_stop_of fault };

    fn from(fault: PlanFault) -> Stop {
        Stop::AsPayment(PaymentStop::from(fault))
    }
}

impl From<Memory> for Stop {
    ghost use Rattle.command_inputs.specs.declared.refusal.Stop.TheVariants as payments;
    ghost use Rattle.command_sweep.specs.declared.stop.Stop.TheVariants as stops;

    ghost from_gives = { λ memory stop. stop ≡ stops.AsPayment payments.Memory };

    fn from(_memory: Memory) -> Stop {
        Stop::AsPayment(PaymentStop::Memory)
    }
}
