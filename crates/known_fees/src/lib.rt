//! What outpoints are worth and what transactions pay, as far as a book and transactions beside it tell, and what is
//! missing of a fee at a rate.
#![tactic(auto)]

mod laws;
mod shortfall;
mod worth;

pub use laws::{missing_raises, spent_once, worth_by_coins_and_outputs};
pub use shortfall::missing;
pub use worth::{fee_in, foreign_input, spent_by};
