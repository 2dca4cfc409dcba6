//! The command `wide`: it funds a payment without change at the least waste of all choices of a row. Where inputs are cheaper
//! now than later, it spends coins that aren't needed.
#![tactic(auto)]

mod answer;
mod command;
mod ending;
mod laws;
mod reading;
mod stop;

pub use command::wide;
pub use laws::wide_searches_are_due;
