//! What a run comes to, as a report: its types, its text, and reading it back with the exact place of a fault.
#![tactic(auto)]

mod amounts;
mod fault;
mod laws;
mod lines;
mod parts;
mod reading;
mod report;
mod wide;
mod writing;

pub use fault::ReportFault;
pub use laws::{faults_have_one_place, texts_have_one_report};
pub use reading::read_report;
pub use report::{FundedReport, InLine, Report};
pub use writing::write_report;
