//! The command that goes on with a kept job: what is gone on with, how it ends, and the law that it comes to what a run
//! without a stop comes to.
#![tactic(auto)]

mod answer;
mod command;
mod laws;
mod resuming;
mod stop;
mod words;

pub use command::resume;
pub use laws::{resumed_runs_have_the_answer, stopped_runs_go_on};
