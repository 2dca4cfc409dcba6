//! Whether a signed transaction is the payment that was to be signed, and pays the asked rate by what it truly weighs. The
//! signatures themselves aren't checked. It settles the payment then, which says nothing of blocks.
#![tactic(auto)]

mod difference;
mod fault;
mod judging;
mod signatures;
mod weights;
mod worth;

pub use fault::{Differing, SettleFault};
pub use judging::{Settled, settle};
pub use weights::true_weight;
