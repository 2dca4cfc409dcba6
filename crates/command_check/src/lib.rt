//! The command that checks a report with its log: what its files come to, how it ends, and the laws of that. It stands on
//! the judgement of reports, and refuses the files of a payment as the command that funds it does.
#![tactic(auto)]

mod answer;
mod command;
mod evidence;
mod examining;
mod judging;
mod laws;
mod stop;
mod words;

pub use command::check;
pub use laws::{accepted_reports_vouch, checks_have_one_outcome};
