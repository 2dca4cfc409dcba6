//! Where jobs are kept between two runs: a saved text and parts, by name. A keeper that answers from memory stands
//! here for tests; one that keeps them in a file stands in a crate of its own.
#![tactic(auto)]

mod job_name;
mod jobs;
mod keeper;
mod mem_keeper;
mod sure_keeper;

pub use job_name::{is_job_name, job_names_are_told};
pub use keeper::{KeepFault, Keeper};
pub use mem_keeper::MemKeeper;
pub use sure_keeper::SureKeeper;
