//! The words of a plan's faults.

ghost use Rattle.std.specs.Prelude.{◌≡◌};
ghost use Rattle.command_end.specs.Parts.{parts_text};
ghost use Rattle.command_end.specs.Words.{plan_fault_words};

use crate::parts::Part;
use fund_steps::PlanFault;

/// A fault of a plan as its fault line says it after the word `fault`: `input plan`, the variant's name and its field,
/// a sum in satoshi or a coin; of too many groups `limit groups`.
#[tactic(auto, unfolding(crate::specs::Words::plan_fault_words))]
pub fn plan_fault_parts(fault: &PlanFault) -> [Part; 1]
    ensures { parts_text result ≡ plan_fault_words fault.now }
{
    match fault {
        PlanFault::Total(sum) => [Part::Sum("input plan Total ", *sum)],
        PlanFault::NotEligible(coin) => [Part::Coin("input plan NotEligible ", coin)],
        PlanFault::TooMany(_, _) => [Part::Text("limit groups")],
        PlanFault::Memory => [Part::Text("memory")],
    }
}
