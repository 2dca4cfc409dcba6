//! The wide search of a request: which coins fund it without change at the least waste of all choices of a row, and the
//! payment that they make. Where inputs are cheaper now than later, it spends coins that aren't needed. It goes through the
//! rows of the ladder (rules for coins, from strict to lax) with the request's tries, and knows no file and no book of coins.
#![tactic(auto)]

mod asked;
mod laws;
mod log_text;
mod outcome;
mod payment;
mod plan;
mod rows;
mod walking;

pub use asked::is_for_wide;
pub use laws::{
    wide_none_is_proved, wide_payments_keep_their_claims, wide_payments_pay,
    wide_searches_end_with_their_tries, wide_unfinished_used_its_tries,
};
pub use log_text::write_wide_log;
pub use outcome::{WideOutcome, WideRun};
pub use plan::search_wide;
pub use rows::{Rows, RowsEnd, WideSection, search_rows};
