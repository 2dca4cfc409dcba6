//! The search for the lightest selection that leaves enough for change, as Bitcoin Core's `CoinGrinder`. It finds the
//! admissible selection of least weight, of these the one of least value, or that there is none, and writes a closing
//! log from which that can be checked.
#![tactic(auto)]

mod grinder;

pub use grinder::Grinder;
pub use pick_problem::{Position, Progress, RestoreFault};
