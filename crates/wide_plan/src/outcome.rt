//! What a wide search comes to.

use crate::rows::WideSection;
use fund_plan::Funded;
use std::marker::Model;

/// What a wide search comes to.
#[derive(Drop)]
pub enum WideOutcome {
    /// These coins pay what is asked.
    Funded(Funded),
    /// No row of the ladder has coins that pay what is asked without change.
    NoSelection,
    /// The tries are used up in the row of this number, and nothing was taken.
    Unfinished(u8),
}

/// A wide search after its tries.
#[derive(Drop)]
pub struct WideRun {
    /// What it came to.
    pub outcome: WideOutcome,
    /// The finished rows, in order.
    pub sections: Vec<WideSection>,
    /// The tries that were made.
    pub tries: u64,
}

impl Model for WideRun {
    ghost use Rattle.wide_plan.specs.Run.{PlainWideRun};

    ghost Value = { PlainWideRun };

    ghost view = { λ r. record { outcome = r.outcome; sections = r.sections.items; tries = r.tries } };
}
