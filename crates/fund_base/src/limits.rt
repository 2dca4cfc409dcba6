//! Limits that several crates keep.

/// The greatest number of tries that a request grants, and that all runs of a job make together.
pub const MOST_TRIES: u64 = 10_000_000;

/// The greatest weight of a payment, and so of an input that spends a coin, in weight units (Bitcoin Core,
/// `MAX_STANDARD_TX_WEIGHT`).
pub const MAX_WEIGHT: u64 = 400_000;
