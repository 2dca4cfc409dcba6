//! Why a payment whose recipients bear the fee stops before it writes.

ghost use Rattle.std.specs.Prelude.{◌≡◌};

use command_inputs::Stop as PaymentStop;
use fee_sharing::ShareFault;
use fund_base::Memory;
use fund_steps::PlanFault;

/// Why the command stops before it writes.
#[derive(Drop)]
pub enum Stop {
    /// As a payment does: a read failed, a file or the plan is refused, or there was not enough memory.
    AsPayment(PaymentStop),
    /// The request isn't taken: its method isn't `weight`, it lists coins, or it names a payment to be replaced.
    NotShare,
    /// The recipient of this index, from 0, is the first that is below its share and its dust threshold together. An index above
    /// 4,294,967,295 is given as that.
    ShareDust(u32),
}

impl From<PaymentStop> for Stop {
    ghost use Rattle.command_share.specs.declared.stop.Stop.TheVariants as stops;

    ghost from_gives = { λ payment_stop stop. stop ≡ stops.AsPayment payment_stop };

    fn from(stop: PaymentStop) -> Stop {
        Stop::AsPayment(stop)
    }
}

impl From<PlanFault> for Stop {
    ghost use Rattle.command_share.specs.Stops.{fault_stop_of};

    ghost from_gives = { λ fault stop. stop ≡ fault_stop_of fault };

    fn from(fault: PlanFault) -> Stop {
        Stop::AsPayment(PaymentStop::from(fault))
    }
}

impl From<ShareFault> for Stop {
    ghost use Rattle.command_share.specs.Stops.{bear_stop_of};

    ghost from_gives = { λ fault stop. stop ≡ bear_stop_of fault };

    fn from(fault: ShareFault) -> Stop {
        match fault {
            ShareFault::ShareDust(index) => Stop::ShareDust(index),
            ShareFault::Memory => Stop::AsPayment(PaymentStop::Memory),
        }
    }
}

impl From<Memory> for Stop {
    ghost use Rattle.command_inputs.specs.declared.refusal.Stop.TheVariants as payments;
    ghost use Rattle.command_share.specs.declared.stop.Stop.TheVariants as stops;

    ghost from_gives = { λ memory stop. stop ≡ stops.AsPayment payments.Memory };

    fn from(_memory: Memory) -> Stop {
        Stop::AsPayment(PaymentStop::Memory)
    }
}
