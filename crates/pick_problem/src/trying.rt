//! The best selection of a small problem, found by trying each.

ghost use Rattle.std.specs.Prelude.{◌≡◌, ◌≤◌, ◌<◌, ◌↔◌, IsTrue, IfOk, List, ℕ, length};
ghost use Rattle.pick_problem.specs.Admissible.{IsAdmissible, IsFit};
ghost use Rattle.pick_problem.specs.Best.{IsBest, IsBetter};
ghost use Rattle.pick_problem.specs.Problem.{Rising};
ghost use Rattle.pick_problem.specs.Trying.{IsNoBetter, places_from};

use crate::order::before;
use crate::problem::Problem;
use fund_base::{Memory, Places};
use std::alloc::Global;

/// Those of the first `count` places whose bits are set in a number, rising.
fn places_of(alloc: Global, count: u32, number: u32) -> Result<Vec<u32>, Memory>
    ensures { IfOk result (λ places. places.items ≡ places_from count 0 number) }
{
    let mut places = Vec::new(alloc);
    let mut bits = number;
    for place in 0..count {
        if bits % 2 == 1 {
            places.push(place)?;
        }
        bits /= 2;
    }
    Ok(places)
}

/// Whether the first of two lists has the lower score, or an equal one and comes before.
fn is_better(problem: &Problem, a: &[u32], b: &[u32]) -> bool
    requires first { Rising (length problem.now.items) 0 a.now }
    requires second { Rising (length problem.now.items) 0 b.now }
    ensures { IsTrue result ↔ IsBetter problem.now a.now b.now }
{
    let score = problem.score(a);
    let other = problem.score(b);
    score.is_below(&other) || (score.is_same(&other) && before(a, b))
}

/// The better one of the best so far and these places, where they are admissible.
#[tactic(auto, using(crate::proofs::TryLaws::wins_over, crate::proofs::TryLaws::loses_to))]
fn better(problem: &Problem, best: Option<Places>, places: Places) -> Option<Places>
    requires fit { IsFit problem.now best }
    requires rising { Rising (length problem.now.items) 0 places }
    ensures fit { IsFit problem.now result }
    ensures kept { (q : List ℕ) → IsNoBetter problem.now best q → IsNoBetter problem.now result q }
    ensures new { IsAdmissible problem.now places → IsNoBetter problem.now result places }
{
    if !problem.admissible(places.as_slice()) {
        return best;
    }
    let Some(found) = best else {
        return Some(places);
    };
    let wins = is_better(problem, places.as_slice(), found.as_slice());
    if wins { Some(places) } else { Some(found) }
}

/// The best selection of a problem of at most 16 items, and `None` where none is admissible: each list of places is
/// tried. It is slow and plain, for others to be compared with.
pub fn best_by_trying(alloc: Global, problem: &Problem) -> Result<Option<Places>, Memory>
    requires { length problem.now.items ≤ 16 }
    ensures { IfOk result (λ best. IsBest problem.now best) }
{
    let count = problem.count();
    let mut best = None;
    for number in 0..1u32 << count {
        let places = Places::new(places_of(alloc, count, number)?);
        best = better(problem, best, places);
    }
    Ok(best)
}
