//! Why a signed transaction isn't shown to settle a payment.

ghost use Rattle.std.specs.Prelude.{◌≡◌};
ghost use Rattle.command_settle.specs.declared.stop.Stop.TheVariants as stops;
ghost use Rattle.settle_table.specs.Stops.{psbt_stop_of};
ghost use Rattle.settle_table.specs.declared.stop.Stop.TheVariants.{Settle};

use command_settle::Stop as SettleStop;
use fund_base::Memory;
use psbt_codec::PsbtFault;
use signed_psbt::SignedFault;
use std::alloc::{AllocError, AllocFailed};

/// Why a signed transaction isn't shown to settle a payment.
#[derive(Drop)]
pub enum Stop {
    /// As the command `settle` stops: a read failed, a file is refused, a rule is broken, or there was not enough memory.
    Settle(SettleStop),
    /// The file of the transaction begins as a PSBT does, and no signed transaction can be taken from it.
    Psbt(SignedFault),
}

/// The stop at a PSBT from which no signed transaction is taken.
pub(crate) fn psbt_stop(fault: SignedFault) -> Stop
    ensures { result ≡ psbt_stop_of fault }
{
    match fault {
        SignedFault::Psbt(PsbtFault::Memory) => Stop::Settle(SettleStop::Memory),
        _ => Stop::Psbt(fault),
    }
}

impl From<SettleStop> for Stop {
    ghost from_gives = { λ settle_stop stop. stop ≡ Settle settle_stop };

    fn from(stop: SettleStop) -> Stop {
        Stop::Settle(stop)
    }
}

impl From<Memory> for Stop {
    ghost from_gives = { λ _ stop. stop ≡ Settle stops.Memory };

    fn from(_memory: Memory) -> Stop {
        Stop::Settle(SettleStop::Memory)
    }
}

impl From<AllocError> for Stop {
    ghost from_gives = { λ _ stop. stop ≡ Settle stops.Memory };

    fn from(_e: AllocError) -> Stop {
        Stop::Settle(SettleStop::Memory)
    }
}

impl<T: Drop> From<AllocFailed<T>> for Stop {
    ghost from_gives = { λ _ stop. stop ≡ Settle stops.Memory };

    fn from(_e: AllocFailed<T>) -> Stop {
        Stop::Settle(SettleStop::Memory)
    }
}
