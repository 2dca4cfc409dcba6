//! Why a payment isn't replaced.

ghost use Rattle.std.specs.Prelude.{◌≡◌};

use fund_base::{Memory, OutPoint};
use payment_states::State;

/// Why the payment that a request names isn't replaced: the first of these that applies, in this order.
#[derive(Clone, Copy, PartialEq, Eq)]
pub enum BumpFault {
    /// No transaction of the pending list has its txid, or one has, and this is its state, which isn't Pending.
    NotPending(Option<State>),
    /// Neither it nor a Pending ancestor of it signals that it may be replaced.
    NotSignalling,
    /// An input of it, or of a Pending descendant, spends this outpoint, which is neither a coin nor an output of one of
    /// these. It is the first such input, of these in list order.
    ForeignInput(OutPoint),
    /// It and its Pending descendants are this many, which are more than 100.
    TooManyEvicted(u64),
    /// The request's rate is below 1,000 satoshi per 1,000 virtual bytes.
    RateBelowIncrement,
    /// The request's rate isn't above that of the payment, which pays this fee in satoshi and has this virtual size.
    RateNotHigher(u64, u64),
    /// There was not enough memory.
    Memory,
}

impl From<Memory> for BumpFault {
    ghost use Rattle.fee_bump.specs.declared.fault.BumpFault.TheVariants as faults;

    ghost from_gives = { λ _ e. e ≡ faults.Memory };

    fn from(_e: Memory) -> BumpFault {
        BumpFault::Memory
    }
}
