//! Runs over steps: searches and draws, one after another in columns, with a budget of tries; their answer, which
//! knows no walk, no tries and no log; and what is kept of a run that isn't finished. A step is a problem with its row
//! and its stage. Coins, fees, requests and files are unknown here.
#![tactic(auto)]

mod column_results;
mod ending;
mod fault;
mod found;
mod history;
mod keeping;
mod laws;
mod next_search;
mod outcome;
mod restoring;
mod resuming;
mod run;
mod section_check;
mod sections;
mod step;
mod verifying;
mod walking;
mod worked;

pub use ending::End;
pub use fault::{RestoreRefused, VerifyFault};
pub use found::{Found, choose};
pub use laws::{
    ended_runs_have_the_answer, logs_have_each_search, one_answer, one_result_is_taken,
    pieces_lead, results_are_admissible, runs_add_up, sections_are_accepted,
    unfinished_runs_have_tried,
};
pub use resuming::{
    kept_positions_are_well_formed, kept_runs_are_accepted, kept_runs_go_on,
    log_faults_have_one_cause, refusals_have_one_cause, runs_stand, verified_runs_have_the_answer,
};
pub use run::SearchRun;
pub use section_check::check_section;
pub use sections::{open_section, section};
pub use step::Step;
pub use worked::{worked_budgets, worked_columns, worked_resuming};
