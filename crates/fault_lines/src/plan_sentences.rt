//! The sentences of faults of a plan.

ghost use Rattle.std.specs.Prelude.{◌≡◌};
ghost use Rattle.fault_lines.specs.Sentences.{plan_sentence};

use crate::stop::{Stop, stop_sentence};
use fund_steps::PlanFault;

/// What to do where no plan is made for a request: the sentence of each fault.
#[tactic(auto, unfolding(crate::specs::Sentences::plan_sentence))]
pub fn plan_sentence(fault: &PlanFault) -> &'static str
    ensures { result.now ≡ plan_sentence fault.now }
{
    match fault {
        PlanFault::Total(_) =>
            "The coins are worth more than all bitcoin: an earlier transaction of the wallet file is made up, so copy these again.",
        PlanFault::NotEligible(_) =>
            "A listed coin may not be spent: its txid is reversed, or it is spent, locked, too young or not safe; coins lists those that may.",
        PlanFault::TooMany(_, _) =>
            "More than 10,000 groups of coins are there: spend the coins of one script together, or lock some.",
        PlanFault::Memory => stop_sentence(Stop::Memory),
    }
}
