//! What holds of each desk that was made new and given commands. It has laws alone.
#![tactic(auto)]

mod laws;

pub use laws::{
    block_files_are_read, commits_are_due, commits_keep_their_claims, opened_jobs_have_free_coins,
    turns_leave_their_answer,
};
