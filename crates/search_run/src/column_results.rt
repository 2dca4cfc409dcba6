//! The results that are at hand where a run stands.

ghost use Rattle.std.specs.Prelude.{◌≡◌, ◌++◌, [], ◌∷◌, IfOk, OnOk, option_to_list};
ghost use Rattle.search_run.specs.Found.{found_of, taken};
ghost use Rattle.search_run.specs.Held.{IsOf, walk_of};
ghost use Rattle.search_run.specs.Run.{draws_behind, drawn_here, later_draws, or_unfinished};
ghost use Rattle.search_run.specs.declared.ending.End.TheVariants as ending;

use crate::ending::End;
use crate::found::{Found, choose};
use crate::outcome::{drawn_result, result_so_far};
use crate::step::Step;
use fund_base::Memory;
use std::alloc::Global;
use walk_engine::Search;

/// Copies of results. The error is out of memory.
fn copies(alloc: Global, found: &[Found]) -> Result<Vec<Found>, Memory>
    ensures { IfOk result (λ v. v.items ≡ found.now) }
{
    let mut copied = Vec::new(alloc);
    for f in found {
        copied.push(f.copy(alloc)?)?;
    }
    Ok(copied)
}

/// Puts a result after others, if there is one. The error is out of memory.
fn add(hand: &mut Vec<Found>, found: Option<Found>) -> Result<(), Memory>
    ensures { OnOk result (hand.new.items ≡ hand.old.items ++ option_to_list found) }
{
    match found {
        None => Ok(()),
        Some(found) => {
            hand.push(found)?;
            Ok(())
        }
    }
}

/// Puts what a step finds after others, if it is a draw. The error is out of memory.
fn add_draw(alloc: Global, seed: [u8; 32], step: &Step, hand: &mut Vec<Found>) -> Result<(), Memory>
    ensures { OnOk result (hand.new.items ≡ hand.old.items ++ drawn_here seed step.now) }
{
    if !step.is_drawn() {
        return Ok(());
    }
    let found = drawn_result(alloc, seed, step)?;
    add(hand, found)
}

/// Puts what the draws among these steps find, up to the last one of the column, after others. The error is out of
/// memory.
#[tactic(auto, using(crate::proofs::HandLaws::hand_ends, crate::proofs::HandLaws::hand_goes, crate::proofs::HandLaws::hand_over))]
fn add_draws(
    alloc: Global,
    seed: [u8; 32],
    steps: &[Step],
    hand: &mut Vec<Found>,
) -> Result<(), Memory>
    ensures { OnOk result (hand.new.items ≡ hand.old.items ++ later_draws seed steps.now) }
{
    for step in steps {
        add_draw(alloc, seed, step, hand)?;
        if step.is_last() {
            return Ok(());
        }
    }
    Ok(())
}

/// What is taken for want of tries at a step, of the results so far and of those that the step has and the draws
/// after it find. The error is out of memory.
pub(crate) fn take_partial(
    alloc: Global,
    seed: [u8; 32],
    step: &Step,
    later: &[Step],
    walk: &Option<Search>,
    found: &[Found],
) -> Result<End, Memory>
    requires { IsOf (step.now ∷ []) walk.now }
    ensures { IfOk result (λ e. e ≡ or_unfinished (taken (found.now ++ (found_of step.now (walk_of seed step.now walk.now).best ++ draws_behind seed step.now later.now)))) }
{
    let mut hand = copies(alloc, found)?;
    let here = result_so_far(alloc, seed, step, walk)?;
    add(&mut hand, here)?;
    if !step.is_last() {
        add_draws(alloc, seed, later, &mut hand)?;
    }
    match choose(hand.as_slice()) {
        None => Ok(End::Unfinished),
        Some(best) => {
            let best = best.copy(alloc)?;
            Ok(End::Partial(best))
        }
    }
}

/// What is taken at the end, of the results there are. The error is out of memory.
pub(crate) fn take_ended(alloc: Global, found: &[Found]) -> Result<End, Memory>
    ensures { IfOk result (λ e. e ≡ ending.Ended (taken found.now)) }
{
    match choose(found) {
        None => Ok(End::Ended(None)),
        Some(best) => {
            let best = best.copy(alloc)?;
            Ok(End::Ended(Some(best)))
        }
    }
}
