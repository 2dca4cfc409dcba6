//! A run over one search in turns: each turn asks where the run stands and what it comes to.

ghost use Rattle.std.specs.Prelude.{◌≡◌, ◌≤◌, IfOk};
ghost use Rattle.std.specs.List.{AllByRecursion};
ghost use Rattle.search_run.specs.Step.{AreSteps};

use crate::walk::{problem_of, put_ended};
use closing_log::Stage;
use fund_base::Memory;
use pick_problem::{Kind, Problem};
use row_columns::{Answer, number_in};
use search_run::{End, SearchRun, Step};
use std::alloc::Global;
use std::rc::Rc;
use std::{fs, io};

/// One coin at each of so many places.
fn ones(alloc: Global, places: usize) -> Result<Vec<u8>, Memory>
    ensures { IfOk result (λ v. AllByRecursion (λ n. n ≤ 100) v.items) }
{
    let mut sizes = Vec::new(alloc);
    for _ in 0..places {
        sizes.push(1)?;
    }
    Ok(sizes)
}

/// The stage of a kind of problem.
fn stage_of(kind: Kind) -> Stage
    ensures changeless { kind ≡ Kind.Changeless → result ≡ Stage.Changeless }
    ensures lean { kind ≡ Kind.Lean → result ≡ Stage.LeanBig }
{
    match kind {
        Kind::Changeless => Stage::Changeless,
        Kind::Lean => Stage::LeanBig,
    }
}

/// The one step of a problem; none where it can't be one.
fn steps_of(alloc: Global, problem: Problem) -> Result<Vec<Step>, Memory>
    ensures { IfOk result (λ v. AreSteps v.items) }
{
    let mut steps = Vec::new(alloc);
    let items = problem.items().len();
    let sizes = ones(alloc, items)?;
    if sizes.len() != items {
        return Ok(steps);
    }
    let stage = stage_of(problem.kind());
    let sizes = Rc::new(alloc, sizes)?;
    steps.push(Step::new(1, stage, problem, 0, sizes, true))?;
    Ok(steps)
}

/// One turn; whether the run goes on.
fn turn_on(run: &mut SearchRun, turn: u64) -> Result<bool, Memory> {
    if run.is_over() || turn > u64::MAX - run.tries() {
        return Ok(false);
    }
    run.go(turn)?;
    match run.end(false)? {
        End::Unfinished => Ok(run.step().is_some()),
        End::Ended(_) | End::Partial(_) => Ok(false),
    }
}

/// So many turns, or fewer if the run is over before.
fn turns_on(run: &mut SearchRun, turns: u64, turn: u64) -> Result<(), Memory> {
    for _ in 0..turns {
        if !turn_on(run, turn)? {
            return Ok(());
        }
    }
    Ok(())
}

/// How many letters the log of a run has.
fn letters_in(run: &SearchRun) -> Result<usize, Memory> {
    let log = run.log(false)?;
    let mut letters: usize = match &log.tail {
        Some(tail) => tail.tokens.len(),
        None => 0,
    };
    for section in log.closed.iter() {
        letters = letters.wrapping_add(section.tokens.len());
    }
    Ok(letters)
}

/// Puts what a run comes to after so many tries in turns of so many: its tries, how many letters its log has, and whether it is
/// over. The error is out of memory.
fn put_run(out: &mut Answer, run: &mut SearchRun, tries: u64, turn: u64) -> Result<(), Memory> {
    turns_on(run, tries / turn.max(1), turn)?;
    let letters = letters_in(run)?;
    out.number("", run.tries());
    out.number(" tries, ", letters as u64);
    out.flag(" letters, over ", run.is_over());
    out.word("\n");
    Ok(())
}

/// Puts that of a run over this problem. The error is out of memory.
fn put_runs(out: &mut Answer, problem: Problem, tries: u64, turn: u64) -> Result<(), Memory> {
    let steps = steps_of(out.alloc, problem)?;
    let mut run = SearchRun::new(out.alloc, [0; 32], steps);
    put_run(out, &mut run, tries, turn)
}

/// Puts that of a run over the problem of a text. It tells whether there is a problem.
fn put_turns(out: &mut Answer, text: &str, tries: u64, turn: u64) -> Result<bool, Memory> {
    match problem_of(out.alloc, text)? {
        Some(problem) => put_runs(out, problem, tries, turn)?,
        None => return Ok(false),
    }
    Ok(true)
}

/// Puts what a run over the problem of a file comes to after so many tries, in turns of so many.
pub(crate) fn run_file(
    rt: &HostRuntime,
    out: &mut Answer,
    name: &str,
    tries: &str,
    turn: &str,
) -> io::Result<bool> {
    let text = fs::read_to_string(rt, name)?;
    let ended = put_turns(out, text.as_str(), number_in(tries, 0), number_in(turn, 0));
    Ok(put_ended(out, ended))
}
