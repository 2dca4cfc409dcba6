//! What a report and its log vouch for: whether a report is accepted with its log, or which rule it breaks first. It takes
//! them at nobody's word: it works out the problems of the searches, checks the letters of the log, and makes the draws.
#![tactic(auto)]

mod answered;
mod checked;
mod coin_index;
mod coins;
mod column_prefix;
mod due_sections;
mod fault;
mod figures;
mod given;
mod laws;
mod log_answer;
mod log_form;
mod log_rules;
mod names;
mod paid;
mod place;
mod psbt;
mod report_checker;
mod sections;
mod shown;
mod tries;

pub use fault::CheckFault;
pub use laws::{
    accepted_reports_name_the_answer, given_reports_tell_no_tries, honest_reports_are_accepted,
    logs_break_one_rule_first, paid_reports_pay_the_burden, reports_have_one_verdict,
    tries_have_their_line,
};
pub use report_checker::ReportChecker;
