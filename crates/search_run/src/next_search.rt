//! To which search a run comes.

ghost use Rattle.std.specs.Prelude.{◌≡◌, ◌<◌, ◌≤◌, [], List, Option, ℕ, IfOk, drop, is_some, length};
ghost use Rattle.search_run.specs.Along.{ComesTo, IsAfterStep};
ghost use Rattle.search_run.specs.Found.{PlainFound};
ghost use Rattle.search_run.specs.Kept.{At, answered, first_search, to_search};
ghost use Rattle.search_run.specs.Run.{is_some_found};

use crate::step::Step;
use fund_base::Memory;
use random_draw::draw;
use std::alloc::Global;

/// The place of a step to which a run comes, or the number of steps; and whether its column has a result so far.
#[derive(Clone, Copy, PartialEq, Eq)]
pub(crate) struct NextSearch {
    pub(crate) at: usize,
    pub(crate) some: bool,
}

/// To where a run comes after a step, which has a result or none.
fn after_step(steps: &[Step], from: NextSearch, some: bool) -> NextSearch
    requires { from.at < length steps.now }
    ensures { IsAfterStep steps.now from some result }
{
    let some = from.some || some;
    if steps[from.at].is_last() && some {
        return NextSearch {
            at: steps.len(),
            some,
        };
    }
    NextSearch {
        at: from.at + 1,
        some,
    }
}

/// To which search a run comes from here, past the draws in front of it. The error is out of memory.
#[tactic(auto, using(crate::proofs::ComingLaws::way_begins, crate::proofs::ComingLaws::way_at_search, crate::proofs::ComingLaws::way_at_end))]
fn past_draws(
    alloc: Global,
    seed: [u8; 32],
    steps: &[Step],
    from: NextSearch,
) -> Result<NextSearch, Memory>
    requires { from.at ≤ length steps.now }
    ensures { (found : List PlainFound) → is_some_found found ≡ from.some →
        IfOk result (λ c. ComesTo steps.now c (to_search seed (drop from.at steps.now) found)) }
{
    let mut now = from;
    'drawing: while now.at < steps.len() {
        let step = &steps[now.at];
        if !step.is_drawn() {
            return Ok(now);
        }
        let places = draw(alloc, step.problem(), seed)?;
        now = after_step(steps, now, places.is_some());
    }
    Ok(now)
}

/// To which search a run comes first. The error is out of memory.
pub(crate) fn first(alloc: Global, seed: [u8; 32], steps: &[Step]) -> Result<NextSearch, Memory>
    ensures { IfOk result (λ c. ComesTo steps.now c (first_search seed steps.now)) }
{
    past_draws(alloc, seed, steps, NextSearch { at: 0, some: false })
}

/// To which search a run comes after one that has an answer or none. The error is out of memory.
pub(crate) fn answered(
    alloc: Global,
    seed: [u8; 32],
    steps: &[Step],
    from: NextSearch,
    some: bool,
) -> Result<NextSearch, Memory>
    requires { from.at < length steps.now }
    ensures { (at : At) (a : Option (List ℕ)) → ComesTo steps.now from at → is_some a ≡ some →
        IfOk result (λ c. ComesTo steps.now c (answered seed at a)) }
{
    past_draws(alloc, seed, steps, after_step(steps, from, some))
}
