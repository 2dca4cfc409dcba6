//! Coins that may be spent, with what the rules of choice need to know of each.
#![tactic(auto)]

mod candidate;

pub use candidate::Candidate;
