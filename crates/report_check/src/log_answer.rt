//! The answer that the sections of a log give.

ghost use Rattle.std.specs.Prelude.{◌≡◌, ◌∷◌, ◌++◌, [], List, IfOk, OnOk, MatchOption, Some, option_to_list, true};
ghost use Rattle.pick_problem.specs.Admissible.{IsFit};
ghost use Rattle.random_draw.specs.Draw.{draw_of};
ghost use Rattle.search_run.specs.Found.{found_of, taken};
ghost use Rattle.search_run.specs.Run.{ends};
ghost use Rattle.search_run.specs.Step.{PlainStep, is_drawn};
ghost use Rattle.report_check.specs.LogAnswer.{Adds, AreFit, HasAnswer};

use closing_log::Section;
use fund_base::{Memory, Places};
use random_draw::draw;
use search_run::{Found, Step, choose};
use std::alloc::Global;

/// What a draw finds by a seed. The error is out of memory.
fn drawn_result(alloc: Global, seed: [u8; 32], step: &Step) -> Result<Option<Found>, Memory>
    requires { is_drawn step.now.stage ≡ true }
    ensures { IfOk result (λ f. option_to_list f ≡ found_of step.now (draw_of step.now.problem seed)) }
{
    match draw(alloc, step.problem(), seed)? {
        None => Ok(None),
        Some(places) => {
            let found = Found::new(alloc, step, places.as_slice())?;
            Ok(Some(found))
        }
    }
}

/// An admissible answer as a result of a search. The error is out of memory.
fn answer_result(
    alloc: Global,
    step: &Step,
    answer: &Option<Places>,
) -> Result<Option<Found>, Memory>
    requires { IsFit step.now.problem answer.now }
    ensures { IfOk result (λ f. option_to_list f ≡ found_of step.now answer.now) }
{
    match answer {
        None => Ok(None),
        Some(places) => {
            let found = Found::new(alloc, step, places.as_slice())?;
            Ok(Some(found))
        }
    }
}

/// What a step comes to, and the sections behind its own. The error is out of memory.
fn told<'a>(
    alloc: Global,
    seed: [u8; 32],
    step: &Step,
    sections: &'a [Section],
) -> Result<(Option<Found>, &'a [Section]), Memory>
    requires { (xs : List PlainStep) × AreFit (step.now ∷ xs) sections.now }
    ensures { IfOk result (λ v. Adds seed step.now sections.now (option_to_list v.0) v.1.now) }
{
    if step.is_drawn() {
        let found = drawn_result(alloc, seed, step)?;
        return Ok((found, sections));
    }
    match sections {
        [] => unreachable!(),
        [section, rest @ ..] => {
            let found = answer_result(alloc, step, &section.answer)?;
            Ok((found, rest))
        }
    }
}

/// Puts a result after others, if there is one. The error is out of memory.
fn put(found: &mut Vec<Found>, more: Option<Found>) -> Result<(), Memory>
    ensures { OnOk result (found.new.items ≡ found.old.items ++ option_to_list more) }
{
    match more {
        None => Ok(()),
        Some(f) => {
            found.push(f)?;
            Ok(())
        }
    }
}

/// Whether a step is the last one of its column, and there is a result.
#[tactic(auto, using(crate::proofs::TellingLaws::ends_by))]
fn ends_with(step: &Step, found: &[Found]) -> bool
    ensures { result ≡ ends step.now found.now }
{
    step.is_last() && !found.is_empty()
}

/// The one of these results that is taken; `None` where there are none. The error is out of memory.
fn taken_of(alloc: Global, found: &[Found]) -> Result<Option<Found>, Memory>
    ensures { IfOk result (λ o. o ≡ taken found.now) }
{
    match choose(found) {
        None => Ok(None),
        Some(f) => {
            let copy = f.copy(alloc)?;
            Ok(Some(copy))
        }
    }
}

/// The answer that is told of steps by their sections and by draws. The error is out of memory.
pub(crate) fn answer(
    alloc: Global,
    seed: [u8; 32],
    steps: &[Step],
    sections: &[Section],
) -> Result<Option<Found>, Memory>
    requires { AreFit steps.now sections.now }
    ensures { IfOk result (λ o. HasAnswer seed steps.now sections.now [] o) }
{
    let mut rest = sections;
    let mut found = Vec::new(alloc);
    'telling: for step in steps {
        let (more, next) = told(alloc, seed, step, rest)?;
        put(&mut found, more)?;
        if ends_with(step, &found) {
            return taken_of(alloc, &found);
        }
        rest = next;
    }
    taken_of(alloc, &found)
}
