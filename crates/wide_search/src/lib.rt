//! The wide search without change: of all lists of items in the window, worth from `lo` to `hi` and within the limit of
//! weight, it finds the one of least waste. The list may hold
//! items that aren't needed, since inputs can be cheaper now than later. The search is a walk over running sums and tables
//! of what is left. It takes no memory for a try, and writes a closing log by which its answer can be checked.
#![tactic(auto)]

mod best;
mod cases;
mod laws;
mod prepared;
mod skip_runs;
mod skipping;
mod stack;
mod stop;
mod sums;
mod transitions;
mod wide;
mod worked;

pub use laws::{wide_finished_is_accepted, wide_tries_add_up, wide_walks_are_bounded};
pub use pick_problem::Progress;
pub use wide::Wide;
pub use worked::wide_worked_walks;
