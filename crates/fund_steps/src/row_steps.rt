//! The steps of one row.

ghost use Rattle.std.specs.Prelude.{◌≡◌, ◌≤◌, ◌++◌, All, map, pos, unsigned_abs, ◌≤ℤ◌, length, sum, IfOk, OnOk};
ghost use Rattle.fee_rates.specs.Terms.{AreRates, IsLoad, terms_of};
ghost use Rattle.pick_problem.specs.Pool.{AreItems};
ghost use Rattle.pick_problem.specs.Problem.{IsProblem};
ghost use Rattle.search_run.specs.Step.{AreSteps, IsStep};
ghost use Rattle.fund_steps.specs.Making.{AreReady, AreSearchable, AreSearched, steps_by};
ghost use Rattle.fund_steps.specs.Searches.{ending_by, load_with, problem_by, step_with};
ghost use Rattle.fund_steps.specs.Turns.{HasSteps};
ghost use Rattle.fund_steps.specs.declared.turns.Turn.{Turn};

use crate::turns::Turn;
use closing_log::Stage;
use fee_rates::{PaymentLoad, Rates, Terms};
use fund_base::Memory;
use output_groups::{Row, RowItems};
use pick_problem::{Item, Kind, Problem};
use search_run::Step;
use std::alloc::Global;
use std::rc::Rc;

/// How many coins there are together, by how many each group has.
fn coins(sizes: &[u8]) -> u64
    requires few { length sizes.now ≤ 10_000 }
    requires each { All (λ n. n ≤ 100) sizes.now }
    ensures value { result ≡ sum sizes.now }
    ensures most { result ≤ 1_000_000 }
{
    let mut sum = 0;
    for size in sizes {
        sum += u64::from(*size);
    }
    sum
}

/// The search for a payment without change.
fn plain_problem(terms: &Terms, items: Rc<Vec<Item>>) -> Problem
    requires terms { AreSearchable terms.now }
    requires items { AreItems items.value.items }
    ensures value { result ≡ problem_by terms.now items.value.items Stage.Changeless }
    ensures problem { IsProblem result }
{
    let problem = Problem::new(
        items,
        terms.target as u64,
        terms.hi as u64,
        terms.plain_limit,
        Kind::Changeless,
    );
    let _ = problem.items();
    problem
}

/// The search for a payment with change, from an amount on.
fn change_problem(items: Rc<Vec<Item>>, lo: i128, most_weight: u64) -> Problem
    requires some { pos 1 ≤ℤ lo }
    requires fits { lo ≤ℤ pos 18_446_744_073_709_551_615 }
    requires items { AreItems items.value.items }
    ensures value { result ≡ record { items = items.value.items; lo = unsigned_abs lo; hi = unsigned_abs lo; most_weight = most_weight; kind = Kind.Lean } }
    ensures problem { IsProblem result }
{
    let lo = lo as u64;
    let problem = Problem::new(items, lo, lo, most_weight, Kind::Lean);
    let _ = problem.items();
    problem
}

/// What is looked for at a stage of a row.
fn problem(terms: &Terms, items: Rc<Vec<Item>>, stage: Stage) -> Problem
    requires terms { AreSearchable terms.now }
    requires items { AreItems items.value.items }
    ensures value { result ≡ problem_by terms.now items.value.items stage }
    ensures problem { IsProblem result }
{
    match stage {
        Stage::Changeless => plain_problem(terms, items),
        Stage::LeanSmall => change_problem(items, terms.small, terms.change_limit),
        Stage::Presets | Stage::LeanBig | Stage::Draw | Stage::Wide => change_problem(
            items,
            terms.big,
            terms.change_limit,
        ),
    }
}

/// What making and spending a change costs, where the results of a stage have one.
fn ending(terms: &Terms, stage: Stage) -> u64
    requires { AreSearchable terms.now }
    ensures value { result ≡ ending_by terms.now stage }
    ensures most { result ≤ 1_000_000_000_000_000_000 }
{
    match stage {
        Stage::Changeless => 0,
        Stage::Presets | Stage::LeanBig | Stage::Draw | Stage::LeanSmall | Stage::Wide => {
            terms.change_fee + terms.change_spend
        }
    }
}

/// What all steps of a row share: the items of its pool, and how many coins each of its groups has.
#[derive(Drop)]
struct Shared {
    items: Rc<Vec<Item>>,
    sizes: Rc<Vec<u8>>,
}

/// What a search sees of a row's pool, for steps to share.
fn share(alloc: Global, seen: RowItems) -> Result<Shared, Memory>
    ensures items { IfOk result (λ s. s.items.value.items ≡ seen.items.items) }
    ensures sizes { IfOk result (λ s. s.sizes.value.items ≡ seen.sizes.items) }
{
    let items = Rc::new(alloc, seen.items)?;
    let sizes = Rc::new(alloc, seen.sizes)?;
    Ok(Shared { items, sizes })
}

/// The step of a row at a stage, by the row's terms.
fn step(terms: &Terms, row: &Row, seen: &Shared, turn: &Turn) -> Result<Step, Memory>
    requires terms { AreSearchable terms.now }
    requires seen { AreSearched seen.now.items.value.items seen.now.sizes.value.items }
    requires stage { HasSteps turn.now.stage }
    ensures value { IfOk result (λ s. s ≡ step_with terms.now row.now.number seen.now.items.value.items seen.now.sizes.value.items turn.now) }
    ensures step { IfOk result IsStep }
{
    let items = seen.items.clone()?;
    let sizes = seen.sizes.clone()?;
    let problem = problem(terms, items, turn.stage);
    let ending = ending(terms, turn.stage);
    Ok(Step::new(row.number, turn.stage, problem, ending, sizes, turn.last))
}

/// The terms of a payment from the presets and from a row's pool: all coins of both count.
fn row_terms(rates: &Rates, load: &PaymentLoad, seen: &RowItems) -> Terms
    requires rates { AreRates rates.now }
    requires load { IsLoad load.now }
    requires few { load.now.coins ≤ 100_000 }
    requires seen { AreSearched seen.now.items.items seen.now.sizes.items }
    ensures { result ≡ terms_of rates.now (load_with load.now (sum seen.now.sizes.items)) }
{
    let coins = coins(&seen.sizes);
    Terms::new(
        rates,
        &PaymentLoad {
            coins: load.coins + coins,
            ..*load
        },
    )
}

/// Adds steps of a row, which share what a search sees of its pool.
fn add_each(
    terms: &Terms,
    row: &Row,
    seen: &Shared,
    turns: &[Turn],
    steps: &mut Vec<Step>,
) -> Result<(), Memory>
    requires terms { AreSearchable terms.now }
    requires seen { AreSearched seen.now.items.value.items seen.now.sizes.value.items }
    requires stages { All (λ (u : Turn). HasSteps u.stage) turns.now }
    ensures steps { OnOk result (steps.new.items ≡ steps.old.items ++ map (step_with terms.now row.now.number seen.now.items.value.items seen.now.sizes.value.items) turns.now) }
    ensures fine { OnOk result (AreSteps steps.old.items → AreSteps steps.new.items) }
{
    for turn in turns {
        let step = step(terms, row, seen, turn)?;
        steps.push(step)?;
    }
    Ok(())
}

/// Adds the steps of a row, by what a search sees of its pool, which they share.
pub fn add_steps(
    alloc: Global,
    rates: &Rates,
    load: &PaymentLoad,
    row: &Row,
    seen: RowItems,
    turns: &[Turn],
    steps: &mut Vec<Step>,
) -> Result<(), Memory>
    requires ready { AreReady rates.now load.now turns.now }
    requires seen { AreSearched seen.items.items seen.sizes.items }
    ensures steps { OnOk result (steps.new.items ≡ steps.old.items ++ steps_by rates.now load.now turns.now row.now.number seen.items.items seen.sizes.items) }
    ensures fine { OnOk result (AreSteps steps.old.items → AreSteps steps.new.items) }
{
    if turns.is_empty() {
        return Ok(());
    }
    let terms = row_terms(rates, load, &seen);
    let seen = share(alloc, seen)?;
    add_each(&terms, row, &seen, turns, steps)
}
