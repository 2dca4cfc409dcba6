//! That payments which Ninelace writes settle at their rate, however they are signed within their declared weights. It has
//! laws alone.
#![tactic(auto)]

mod laws;

pub use laws::{payments_settle_at_their_rate, settles_the_worked_payment};
