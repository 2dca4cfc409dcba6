//! A kept job as one string of bytes, for programs that keep it themselves: packed and read again; and such a job put into a
//! keeper in memory, and taken out of it.
#![tactic(auto)]

mod fault;
mod job;
mod keeping;
mod laws;
mod reading;
mod writing;

pub use fault::PackFault;
pub use job::Job;
pub use keeping::{keep_packed, packed_in};
pub use laws::packed_jobs_are_told;
pub use reading::read_job;
pub use writing::write_job;
