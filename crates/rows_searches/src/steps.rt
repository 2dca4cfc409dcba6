//! The steps of a run.

ghost use Rattle.std.specs.Prelude.{◌≤◌, IfOk, IfSome, IsTrue, OnOk};
ghost use Rattle.std.specs.List.{AllByRecursion};
ghost use Rattle.search_run.specs.Step.{AreSteps, FitsStage};

use closing_log::Stage;
use fund_base::Memory;
use pick_problem::{Kind, Problem};
use row_columns::{column, number_in, number_within, problem_in};
use search_run::Step;
use std::alloc::Global;
use std::rc::Rc;

/// The stage of a word; that of none of the searches where it is no word of theirs.
fn stage_in(word: &str) -> Stage {
    match word {
        "changeless" => Stage::Changeless,
        "lean-big" => Stage::LeanBig,
        "draw" => Stage::Draw,
        "lean-small" => Stage::LeanSmall,
        _ => Stage::Presets,
    }
}

/// Whether a problem is one of a stage.
fn fits(stage: Stage, problem: &Problem) -> bool
    ensures { IsTrue result → FitsStage stage problem.now }
{
    match stage {
        Stage::Changeless => problem.kind() == Kind::Changeless,
        Stage::LeanBig | Stage::Draw | Stage::LeanSmall => problem.kind() == Kind::Lean,
        Stage::Presets | Stage::Wide => false,
    }
}

/// How many coins stand at each place, at most 100, of a column; `-` is none. A word that is no such number is read as 0.
fn sizes_in(alloc: Global, column: &str) -> Result<Vec<u8>, Memory>
    ensures { IfOk result (λ v. AllByRecursion (λ n. n ≤ 100) v.items) }
{
    let mut sizes = Vec::new(alloc);
    if column == "-" {
        return Ok(sizes);
    }
    for word in column.split(' ') {
        sizes.push(number_within(word, 100) as u8)?;
    }
    Ok(sizes)
}

/// The step of these words, a problem and the coins at each place. `None` where there can't be one.
fn step_of(
    alloc: Global,
    words: &[&str],
    problem: Problem,
    sizes: Vec<u8>,
) -> Result<Option<Step>, Memory>
    requires { AllByRecursion (λ n. n ≤ 100) sizes.items }
{
    let (stage, ending) = (
        stage_in(column(words, 1)),
        number_in(column(words, 2), u64::MAX),
    );
    if !fits(stage, &problem) || ending > 1_000_000_000_000_000_000 {
        return Ok(None);
    }
    if sizes.len() != problem.items().len() {
        return Ok(None);
    }
    let row = number_within(column(words, 0), 255) as u8;
    let last = column(words, 3) == "last";
    let sizes = Rc::new(alloc, sizes)?;
    Ok(Some(Step::new(row, stage, problem, ending, sizes, last)))
}

/// The step of its words. `None` where there can't be one.
fn step_by(alloc: Global, words: &[&str]) -> Result<Option<Step>, Memory> {
    let sizes = sizes_in(alloc, column(words, 9))?;
    match problem_in(alloc, words.get(4..9).unwrap_or(&[]))? {
        Some(problem) => step_of(alloc, words, problem, sizes),
        None => Ok(None),
    }
}

/// The step of a text. `None` where there can't be one.
fn step_in(alloc: Global, text: &str) -> Result<Option<Step>, Memory> {
    let words: Vec<&str> = text.split(';').collect(alloc)?;
    step_by(alloc, &words)
}

/// Puts a step after others.
fn put(steps: &mut Vec<Step>, step: Step) -> Result<(), Memory>
    ensures { OnOk result (AreSteps steps.old.items → AreSteps steps.new.items) }
{
    let _row = step.row();
    steps.push(step)?;
    Ok(())
}

/// The steps of a column, with `|` between them; `-` is none. `None` where there can't be one of them.
pub(crate) fn steps_in(alloc: Global, column: &str) -> Result<Option<Vec<Step>>, Memory>
    ensures { IfOk result (λ o. IfSome o (λ s. AreSteps s.items)) }
{
    let mut steps = Vec::new(alloc);
    if column == "-" {
        return Ok(Some(steps));
    }
    for text in column.split('|') {
        let Some(step) = step_in(alloc, text)? else {
            return Ok(None);
        };
        put(&mut steps, step)?;
    }
    Ok(Some(steps))
}
