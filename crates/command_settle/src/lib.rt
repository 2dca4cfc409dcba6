//! The command that tells whether a signed transaction is the payment of a report, and pays the asked rate by what it truly
//! weighs: what its files come to, how it ends, and the laws of that. It checks no signature.
#![tactic(auto)]

mod answering;
mod command;
mod files;
mod judging;
mod laws;
mod names;
mod payment;
mod signed;
mod stop;
mod words;

pub use answering::answer;
pub use command::settle_payment;
pub use files::{Files, read_files};
pub use laws::settlings_have_one_outcome;
pub use names::SettleNames;
pub use payment::{Payment, payment_of};
pub use signed::{line_of, signed_tx};
pub use stop::{Refusal, SettleFile, Stop};
