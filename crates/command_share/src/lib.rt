//! The command `share`: it funds a payment whose recipients bear the fee, each its share, from the lightest coins of a row.
#![tactic(auto)]

mod answer;
mod asked;
mod command;
mod ending;
mod laws;
mod report;
mod rows;
mod sharing;
mod stop;

pub use command::share;
pub use laws::shares_are_due;
