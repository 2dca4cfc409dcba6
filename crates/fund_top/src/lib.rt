//! The commands of Ninelace, from their words to their status: they list the payments and the coins of a wallet, fund a
//! payment, go on with a kept one, check the report of one, fund one from a made-up wallet and sum that up, or run a script at a
//! desk. Each command is a crate; here is which one the words ask for, and what is true of all.
#![tactic(auto)]

mod laws;
mod sure;
mod top;
mod words;

pub use command_end::Status;
pub use laws::{outcomes_are_due, workloads_are_spelled};
pub use sure::run_in_memory;
pub use top::run;
