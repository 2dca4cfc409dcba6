//! The steps of the rows of a request's ladder, and how many groups the rows keep.

ghost use Rattle.std.specs.Prelude.{◌≡◌, ◌++◌, IfErr, IfOk, IfSome, All, None, OnOk, Some, option_map};
ghost use Rattle.fund_steps.specs.declared.pools.Crowded.{Crowded};
ghost use Rattle.std.specs.List.{flat_map};
ghost use Rattle.coin_candidates.specs.Candidates.{AreCandidates};
ghost use Rattle.output_groups.specs.Ladder.{ladder_of};
ghost use Rattle.output_groups.specs.PlainGroups.{pool_in};
ghost use Rattle.search_run.specs.Step.{AreSteps};
ghost use Rattle.fund_steps.specs.Making.{AreReady, KeepsFewOf, KeepsManyOf, steps_for, steps_with};
ghost use Rattle.fund_steps.specs.Plan.{IsFirstCrowded, IsRoomy, PlainPlan, ladder_in};
ghost use Rattle.fund_steps.specs.Selection.{unlisted};
ghost use Rattle.fund_steps.specs.Terms.{rates_of};
ghost use Rattle.fund_steps.specs.declared.fault.PlanFault.TheVariants.{TooMany};

use crate::fault::PlanFault;
use crate::row_steps::add_steps;
use crate::terms::rates;
use crate::turns::Turn;
use coin_candidates::Candidate;
use fee_rates::{PaymentLoad, Rates};
use fund_base::Memory;
use output_groups::{Groups, PoolFault, Row, ladder};
use request_text::Request;
use search_run::Step;
use std::alloc::Global;

/// A row that keeps more than 10,000 groups.
#[derive(Clone, Copy)]
pub struct Crowded {
    /// The row's number.
    pub number: u8,
    /// How many groups it keeps.
    pub groups: u64,
}

/// Adds the steps of a row, by its pool of these groups, for presets of this load. The result is how many groups the row
/// keeps, if they are more than 10,000; then no step is added.
fn add_row(
    alloc: Global,
    rates: &Rates,
    groups: &Groups,
    load: &PaymentLoad,
    turns: &[Turn],
    row: &Row,
    steps: &mut Vec<Step>,
) -> Result<Option<u64>, Memory>
    requires ready { AreReady rates.now load.now turns.now }
    ensures few { IfOk result (λ o. o ≡ None → KeepsFewOf groups.now row.now) }
    ensures many { IfOk result (λ o. IfSome o (KeepsManyOf groups.now row.now)) }
    ensures steps { IfOk result (λ o. o ≡ None → steps.new.items ≡ steps.old.items ++ steps_with rates.now load.now turns.now (record { row = row.now; pool = pool_in groups.now row.now })) }
    ensures fine { IfOk result (λ _. AreSteps steps.old.items → AreSteps steps.new.items) }
{
    match groups.items(alloc, row) {
        Ok(seen) => {
            add_steps(alloc, rates, load, row, seen, turns, steps)?;
            Ok(None)
        }
        Err(PoolFault::TooMany(count)) => Ok(Some(count)),
        Err(PoolFault::Memory) => Err(Memory),
    }
}

/// That no row keeps more than 10,000 groups, by the first that does, if there is one. It takes no memory.
pub fn check_rows(crowded: Option<Crowded>) -> Result<(), PlanFault>
    ensures none { OnOk result (crowded ≡ None) }
    ensures first { IfErr result (λ e. option_map (λ (c : Crowded). TooMany c.number c.groups) crowded ≡ Some e) }
{
    match crowded {
        Some(row) => Err(PlanFault::TooMany(row.number, row.groups)),
        None => Ok(()),
    }
}

/// Adds the steps of the rows of the request's ladder, in order, by their pools of these coins, which are the candidates
/// that the request doesn't list. The coins form groups once, and each row keeps some of them. The result is the first
/// row that keeps more than 10,000 groups, if there is one.
pub fn add_rows(
    alloc: Global,
    request: &Request,
    coins: &[Candidate],
    load: &PaymentLoad,
    turns: &[Turn],
    steps: &mut Vec<Step>,
) -> Result<Option<Crowded>, Memory>
    requires coins { AreCandidates coins.now }
    requires ready { AreReady (rates_of request.now) load.now turns.now }
    ensures none { (p : PlainPlan) → p.request ≡ request.now → unlisted p.request.coins p.candidates ≡ coins.now → IfOk result (λ o. o ≡ None → All (IsRoomy p) (ladder_in p)) }
    ensures first { (p : PlainPlan) → p.request ≡ request.now → unlisted p.request.coins p.candidates ≡ coins.now → IfOk result (λ o. IfSome o (λ c. IsFirstCrowded p c.number c.groups)) }
    ensures steps { IfOk result (λ o. o ≡ None → steps.new.items ≡ steps.old.items ++ flat_map (steps_for request.now load.now coins.now turns.now) (ladder_of request.now.zero_conf request.now.include_unsafe)) }
    ensures fine { IfOk result (λ _. AreSteps steps.old.items → AreSteps steps.new.items) }
{
    request.keeps_rules();
    let formed = Groups::new(alloc, coins, request.rate, request.long_term, request.group)?;
    let rates = rates(request);
    let rows = ladder(request.zero_conf, request.include_unsafe);
    for row in rows {
        if let Some(groups) = add_row(alloc, &rates, &formed, load, turns, row, steps)? {
            return Ok(Some(Crowded {
                number: row.number,
                groups,
            }));
        }
    }
    Ok(None)
}
