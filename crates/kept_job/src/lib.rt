//! Jobs that are kept between two runs: the digest that names a job by its files, what is saved of a plan that is
//! unfinished, and going on from what a keeper has, which may be any. What a plan answers that went on is the answer of
//! all that there is to find, whatever was kept.
#![tactic(auto)]

mod behind;
mod digest;
mod fault;
mod laws;
mod loading;
mod resuming;
mod saving;
mod sizes;

pub use behind::Behind;
pub use digest::job_digest;
pub use fault::KeptFault;
pub use laws::{
    changed_parts_are_refused, jobs_go_on, kept_jobs_are_gone_on_with, refused_jobs_have_one_fault,
    resumed_plans_claim, saved_jobs_are_kept, saved_jobs_have_their_digest,
};
pub use resuming::{Resumed, resume};
pub use saving::keep;
