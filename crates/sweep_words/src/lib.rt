//! The words of `ninelace sweep`: they are read as those of `ninelace pay`, with the least that is taken behind the recipient, or
//! refused for their first fault.
#![tactic(auto)]

mod foreign;
mod least;
mod reading;
mod saying;

pub use reading::read_sweep;
