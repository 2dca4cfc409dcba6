//! What a step has come to.

ghost use Rattle.std.specs.Prelude.{◌≡◌, ◌<◌, [], ◌∷◌, ℕ, List, IfOk, OnErr, drop, length, option_to_list, true};
ghost use Rattle.random_draw.specs.Draw.{draw_of};
ghost use Rattle.search_run.specs.Found.{found_of};
ghost use Rattle.search_run.specs.Held.{HasLeft, IsOf, before_in, walk_of};
ghost use Rattle.search_run.specs.Run.{sections_of};
ghost use Rattle.search_run.specs.Step.{is_drawn};

use crate::found::Found;
use crate::history::{History, next};
use crate::sections::section;
use crate::step::Step;
use closing_log::Section;
use fund_base::Memory;
use random_draw::draw;
use std::alloc::Global;
use walk_engine::Search;

/// What a draw finds by a seed. The error is out of memory.
pub(crate) fn drawn_result(
    alloc: Global,
    seed: [u8; 32],
    step: &Step,
) -> Result<Option<Found>, Memory>
    requires { is_drawn step.now.stage ≡ true }
    ensures { IfOk result (λ f. option_to_list f ≡ found_of step.now (draw_of step.now.problem seed)) }
{
    match draw(alloc, step.problem(), seed)? {
        None => Ok(None),
        Some(places) => {
            let found = Found::new(alloc, step, places.as_slice())?;
            Ok(Some(found))
        }
    }
}

/// The best of the walk of a search so far; `None` where it hasn't begun. The error is out of memory.
fn best_so_far(alloc: Global, step: &Step, walk: &Search) -> Result<Option<Found>, Memory>
    requires { walk.now.problem ≡ step.now.problem }
    ensures { IfOk result (λ f. option_to_list f ≡ found_of step.now walk.now.walk.best) }
{
    let _tries = walk.tries();
    match walk.best() {
        None => Ok(None),
        Some(places) => {
            let found = Found::new(alloc, step, places)?;
            Ok(Some(found))
        }
    }
}

/// The result of a step so far: what a draw finds, or the best of the walk. The error is out of memory.
pub(crate) fn result_so_far(
    alloc: Global,
    seed: [u8; 32],
    step: &Step,
    walk: &Option<Search>,
) -> Result<Option<Found>, Memory>
    requires { IsOf (step.now ∷ []) walk.now }
    ensures { IfOk result (λ f. option_to_list f ≡ found_of step.now (walk_of seed step.now walk.now).best) }
{
    if step.is_drawn() {
        return drawn_result(alloc, seed, step);
    }
    match walk {
        None => Ok(None),
        Some(walk) => best_so_far(alloc, step, walk),
    }
}

/// The section of a step whose walk is done; a draw has none. The error is out of memory.
pub(crate) fn closing(
    alloc: Global,
    step: &Step,
    walk: &Option<Search>,
) -> Result<Option<Section>, Memory>
    requires { IsOf (step.now ∷ []) walk.now }
    ensures { (seed : List ℕ) → IfOk result (λ s. option_to_list s ≡ sections_of step.now (before_in walk.now) (walk_of seed step.now walk.now)) }
{
    if step.is_drawn() {
        return Ok(None);
    }
    match walk {
        None => {
            let begun = Search::new(alloc, step.problem())?;
            let closed = section(alloc, step, &begun)?;
            Ok(Some(closed))
        }
        Some(walk) => {
            let closed = section(alloc, step, walk)?;
            Ok(Some(closed))
        }
    }
}

/// Puts what the step at a place has come to after what the run has. The answer is the place of the step after it, or the
/// number of steps. The error is out of memory: then all is as it was.
pub(crate) fn leave(
    alloc: Global,
    seed: [u8; 32],
    steps: &[Step],
    at: usize,
    walk: &Option<Search>,
    past: &mut History,
) -> Result<usize, Memory>
    requires below { at < length steps.now }
    requires of { IsOf (drop at steps.now) walk.now }
    ensures ok { IfOk result (λ next. HasLeft seed steps.now at walk.now past.old next past.new) }
    ensures err { OnErr result (past.new ≡ past.old) }
{
    let step = &steps[at];
    let found = result_so_far(alloc, seed, step, walk)?;
    let section = closing(alloc, step, walk)?;
    past.put(found, section)?;
    Ok(next(steps, at, past.found.as_slice()))
}
