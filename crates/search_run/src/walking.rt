//! The walk of the step at which a run stands.

ghost use Rattle.std.specs.Prelude.{◌≡◌, [], ◌∷◌, IfOk, None, OnErr};
ghost use Rattle.search_run.specs.Held.{HasWalked, IsOf, IsSame, Tries, search_in};

use crate::step::Step;
use fund_base::Memory;
use pick_problem::Progress;
use std::alloc::Global;
use walk_engine::Search;

/// What tries have come to: how many were made, and whether the walk is done.
#[derive(Clone, Copy, PartialEq, Eq)]
pub(crate) struct Turn {
    pub(crate) made: u64,
    pub(crate) done: bool,
}

/// The walk of a search, or a new one where it hasn't begun. The error is out of memory.
fn begin(alloc: Global, step: &Step, walk: Option<Search>) -> Result<Search, Memory>
    ensures ok { IfOk result (λ w. w ≡ search_in step.now walk) }
    ensures err { OnErr result (walk ≡ None) }
{
    match walk {
        Some(walk) => Ok(walk),
        None => Search::new(alloc, step.problem()),
    }
}

/// Makes so many tries of a search, or fewer if it is done before. The error is out of memory: then no try was made.
#[tactic(auto, using(crate::proofs::HeldLaws::tried_more))]
fn try_on(walk: &mut Search, tries: u64) -> Result<Turn, Memory>
    ensures ok { IfOk result (λ t. Tries walk.old walk.new tries t) }
    ensures err { OnErr result (walk.new ≡ record walk.old { spare = walk.new.spare }) }
{
    walk.reserve(tries)?;
    let before = walk.tries();
    let progress = walk.advance(tries);
    let made = walk.tries() - before;
    match progress {
        Progress::Open => Ok(Turn { made, done: false }),
        Progress::Done => Ok(Turn { made, done: true }),
    }
}

/// Makes so many tries of a step, or fewer if its walk is done before. A walk that hasn't begun begins; a draw is done
/// without a try. The error is out of memory: then no try was made.
pub(crate) fn advance(
    alloc: Global,
    step: &Step,
    walk: &mut Option<Search>,
    tries: u64,
) -> Result<Turn, Memory>
    requires { IsOf (step.now ∷ []) walk.old }
    ensures of { IsOf (step.now ∷ []) walk.new }
    ensures ok { IfOk result (λ t. HasWalked step.now walk.old walk.new tries t) }
    ensures err { OnErr result (IsSame step.now walk.old walk.new) }
{
    if step.is_drawn() {
        return Ok(Turn {
            made: 0,
            done: true,
        });
    }
    let mut now = begin(alloc, step, walk.take())?;
    let turn = try_on(&mut now, tries);
    *walk = Some(now);
    turn
}
