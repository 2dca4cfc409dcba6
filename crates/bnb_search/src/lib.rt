//! The search for a selection without change: branch and bound, as Bitcoin Core's `SelectCoinsBnB`. It finds the
//! admissible selection of least waste, or that there is none, and writes a closing log from which that can be checked.
#![tactic(auto)]

mod bnb;

pub use bnb::Bnb;
pub use pick_problem::{Position, Progress, RestoreFault};
