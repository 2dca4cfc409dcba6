//! One engine for both searches. It makes the walk of a problem try by try, with running sums and a table of what is
//! left, into memory that is reserved before. Chosen places are kept by what their value lacks of the least value that
//! is looked for, so that every test of a try is one of 64-bit numbers.
#![tactic(auto)]

mod best;
mod cases;
mod position;
mod prepared;
mod restoring;
mod search;
mod skip_runs;
mod skipping;
mod stack;
mod stop;
mod transitions;

pub use position::may_stand;
pub use search::Search;
