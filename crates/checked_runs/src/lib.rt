//! That what a run from files writes is accepted from the same files: of a payment, and of a run that went on from a job. That
//! the summary of a workload's payment is of a report that can be read. And that what files are read as keeps what the laws of
//! wallets, of books and of desks ask for. It stands above the commands that pay, go on, check, sum up and run desks, and has
//! laws alone.
#![tactic(auto)]

mod files;
mod payments;
mod resumes;

pub use files::{chains_keep_their_rules, inputs_keep_their_rules, scripts_keep_their_claims};
pub use payments::{
    paid_reports_can_be_read, summaries_are_of_reports, written_reports_are_accepted,
};
pub use resumes::resumed_reports_are_accepted;
