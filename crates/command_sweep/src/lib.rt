//! The command `sweep`: it pays all coins of a wallet to one recipient, less the fee.
#![tactic(auto)]

mod answer;
mod asked;
mod command;
mod ending;
mod laws;
mod stop;

pub use command::sweep;
pub use laws::sweeps_are_due;
