//! The desk of a payment server: many payments are funded side by side while blocks and pending transactions arrive. Each
//! job has the coins that might be spent when it was opened, and no coin is promised to two payments.
#![tactic(auto)]

mod committing;
mod desk;
mod job;
mod opening;
mod payments;
mod ready;
mod taken;

pub use desk::Desk;
pub use desk_machine::{Command, Refusal, Reply};
