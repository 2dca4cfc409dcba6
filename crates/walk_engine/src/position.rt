//! Whether a search may stand at a position.

ghost use Rattle.std.specs.Prelude.{◌≡◌, ◌↔◌, ◌<◌, IsTrue, List, ℕ};
ghost use Rattle.pick_problem.specs.Admissible.{IsFit};
ghost use Rattle.pick_problem.specs.Problem.{Rising};
ghost use Rattle.walk_engine.specs.Search.{IsWellFormed, Stands, open_at, tries_in};

use fund_base::Places;
use pick_problem::{Position, Problem};

/// Whether the places rise, and are below a bound.
fn rise_below(places: &[u32], bound: u32) -> bool
    ensures { IsTrue result ↔ Rising bound 0 places.now }
{
    let mut least = 0;
    let mut rest = places;
    'rising: while let [place, after @ ..] = rest {
        if *place < least || *place >= bound {
            return false;
        }
        least = *place + 1;
        rest = after;
    }
    true
}

/// How many I stand among letters.
#[tactic(auto, using(crate::proofs::RestoreLaws::no_more))]
fn tries_in(letters: &[u8]) -> u64
    ensures { result ≡ tries_in letters.now }
{
    let mut tries = 0;
    for letter in letters {
        if *letter == b'I' {
            tries += 1;
        }
    }
    tries
}

/// Whether chosen places, which rise below a next place, are those of a search that is open or done.
fn stands(problem: &Problem, chosen: &[u32], next: u32, done: bool) -> bool
    requires { Rising next 0 chosen.now }
    ensures { IsTrue result ↔ Stands problem.now chosen.now next done }
{
    let count = problem.items().len();
    if done {
        return chosen.is_empty() && next as usize == count;
    }
    if next as usize >= count {
        return false;
    }
    problem.value(chosen) < u128::from(problem.lo())
        && problem.weight(chosen) <= problem.most_weight()
}

/// Whether there is no best, or one that is admissible.
fn is_fit(problem: &Problem, best: &Option<Places>) -> bool
    ensures { IsTrue result ↔ IsFit problem.now best.now }
{
    match best {
        None => true,
        Some(places) => {
            problem.are_places(places.as_slice()) && problem.admissible(places.as_slice())
        }
    }
}

/// Whether a search of the problem may stand at the position, with these letters written.
pub(crate) fn is_well_formed(problem: &Problem, position: &Position, letters: &[u8]) -> bool
    ensures { IsTrue result ↔ IsWellFormed problem.now position.now letters.now }
{
    let chosen = position.chosen.as_slice();
    if !rise_below(chosen, position.next) {
        return false;
    }
    if !stands(problem, chosen, position.next, position.done) {
        return false;
    }
    if !is_fit(problem, &position.best) {
        return false;
    }
    position.tries == tries_in(letters)
}

/// Whether a search of the problem may stand at an open position with these chosen places, this next place and this
/// best: a search can be restored from it after any letters, with as many tries as there are I among them. It takes no
/// memory.
pub fn may_stand(problem: &Problem, chosen: &[u32], next: u32, best: &Option<Places>) -> bool
    ensures { (letters : List ℕ) → (IsTrue result ↔ IsWellFormed problem.now (open_at chosen.now next best.now letters) letters) }
{
    if !rise_below(chosen, next) {
        return false;
    }
    if !stands(problem, chosen, next, false) {
        return false;
    }
    is_fit(problem, best)
}
