//! What a payment that replaces another is given.

use coin_candidates::Candidate;
use std::marker::Model;

/// What a payment that replaces another is given (BIP 125, 'Implementation Details', rules 3 and 4).
#[derive(Drop)]
pub struct BumpInput {
    /// The coins that the replaced payment spends, each outpoint once, in any order. Each payment spends all of them.
    pub presets: Vec<Candidate>,
    /// What is paid beside the fee of the rate, in satoshi.
    pub burden: u64,
}

impl Model for BumpInput {
    ghost use Rattle.fund_steps.specs.Plan.{PlainBump};

    ghost Value = { PlainBump };

    ghost view = { λ b. record { presets = b.presets.items; burden = b.burden } };
}
