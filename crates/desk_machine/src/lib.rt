//! The desk of a payment server as a machine: to each command one reply, and one next state. Here are the commands, the
//! replies, and the laws of every list of commands.
#![tactic(auto)]

mod command;
mod laws;
mod reply;

pub use command::Command;
pub use laws::{
    blocks_are_read_one_by_one, finished_jobs_reply_again, jobs_are_named_apart,
    jobs_go_on_from_the_tries_made, jobs_see_their_snapshot_alone, names_the_first_taken,
    payments_stay_apart, spent_turns_make_no_try, turns_are_the_run,
};
pub use reply::{Refusal, Reply};
