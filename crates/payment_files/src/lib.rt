//! The new files of a payment: its request, its log, its report and its PSBT. Each is written where it is asked for, in this order and
//! under a name of its own, and none over a file that is there.
#![tactic(auto)]

mod file;
mod writing;

pub use file::{NewFile, PutFault};
pub use writing::{put_files, put_if};
