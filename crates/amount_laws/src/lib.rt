//! Laws of the reports of payments whose amounts aren't the ones that are asked for: what is printed of a payment of all coins, and
//! of one whose recipients bear the fee, is a text of it. It has laws alone.
#![tactic(auto)]

mod laws;

pub use laws::{shares_are_told, sweeps_are_told};
