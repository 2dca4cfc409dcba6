//! A run of a command over files of which two are held in memory: a request that was made, and the log that the command writes.
#![tactic(auto)]

mod held;
mod run;

pub use held::{RequestShelf, log_name, request_name};
pub use run::{Run, run_held};
