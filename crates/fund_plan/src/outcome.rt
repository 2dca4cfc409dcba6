//! What a plan comes to.

use closing_log::{Mark, Stage};
use coin_candidates::Candidate;
use std::marker::Model;

/// Where a plan stands.
#[derive(Clone, Copy, PartialEq, Eq)]
pub struct Place {
    /// The row of the ladder.
    pub row: u8,
    /// The stage.
    pub stage: Stage,
}

/// A payment: coins that pay, and the change.
#[derive(Drop)]
pub struct Funded {
    /// What its coins promise.
    pub mark: Mark,
    /// The row of the ladder in which they were found; 0 for coins that are given.
    pub row: u8,
    /// The stage at which they were found.
    pub stage: Stage,
    /// The coins that are spent, those that are given among them, in the order of their outpoints, each once.
    pub coins: Vec<Candidate>,
    /// The change, in satoshi, if there is any.
    pub change: Option<u64>,
    /// What it costs to spend its coins now and not in the long run, and beside it the fee of making and of spending the
    /// change or, where there is none, what the coins bring beyond what is needed; in satoshi.
    pub waste: i128,
    /// The declared weight of the payment, in weight units: that of its base, of its inputs as the wallet declares them,
    /// and of its change output.
    pub weight: u64,
}

impl Model for Funded {
    ghost use Rattle.fund_plan.specs.Selection.{PlainFunded};

    ghost Value = { PlainFunded };

    ghost view = { λ f. record { mark = f.mark; row = f.row; stage = f.stage; coins = f.coins.items; change = f.change; waste = f.waste; weight = f.weight } };
}

/// What a plan comes to.
#[derive(Drop)]
pub enum Outcome {
    /// These coins pay what is asked.
    Funded(Funded),
    /// No coins pay what is asked.
    NoSelection,
    /// There are more searches to make, or tries of one, and none of their results was taken.
    Unfinished,
}
