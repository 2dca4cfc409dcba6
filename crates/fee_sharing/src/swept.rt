//! What a payment of all coins comes to.

use coin_candidates::Candidate;

/// What a payment of all coins comes to.
#[derive(Drop)]
pub enum Swept {
    /// There is no coin, or less is left than the request asks for.
    Short,
    /// These coins are spent, in the order of their outpoints, and this amount is paid, in satoshi.
    Paid { coins: Vec<Candidate>, amount: u64 },
}
