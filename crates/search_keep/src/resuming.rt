//! The search of a saved position, resumed.

ghost use Rattle.std.specs.Prelude.{◌≡◌, ◌↔◌, ◌≤◌, ℕ, Err, IfErr, IfOk, IsTrue};
ghost use Rattle.pick_problem.specs.Walk.{walk};
ghost use Rattle.search_keep.specs.declared.fault.SavedFault.TheVariants as faults;
ghost use Rattle.search_keep.specs.Resumed.{CanStand, MayGoOn, IsRefusal, IsSavedWalk, open_position};
ghost use Rattle.search_keep.specs.Walks.{kind_of, search_of};
ghost use Rattle.walk_engine.specs.Search.{IsAfter, restored};

use crate::fault::SavedFault;
use crate::saved::Saved;
use crate::walk::Walk;
use closing_log::tries_in;
use fund_base::{MOST_TRIES, Memory, Places};
use pick_problem::{Position, Problem};
use std::alloc::Global;
use walk_engine::may_stand;

fn copy_best(alloc: Global, best: &Option<Places>) -> Result<Option<Places>, Memory>
    ensures { IfOk result (λ copied. copied ≡ best.now) }
{
    match best {
        None => Ok(None),
        Some(places) => Ok(Some(places.copy(alloc)?)),
    }
}

/// What is saved, as an open position of a search after these letters.
fn open_position(alloc: Global, saved: &Saved, tokens: &[u8]) -> Result<Position, Memory>
    ensures { IfOk result (λ q. q ≡ open_position saved.now tokens.now) }
{
    let chosen = saved.chosen.copy(alloc)?;
    let best = copy_best(alloc, &saved.best)?;
    Ok(Position {
        chosen,
        next: saved.next,
        best,
        tries: tries_in(tokens),
        done: false,
    })
}

/// Whether a search of the problem may stand at the saved position, after these letters or any others. It takes no
/// memory.
fn can_stand(saved: &Saved, problem: &Problem, _tokens: &[u8]) -> bool
    ensures { IsTrue result ↔ CanStand saved.now problem.now _tokens.now }
{
    may_stand(problem, saved.chosen.as_slice(), saved.next, &saved.best)
}

/// The search that goes on from a position where it may stand. The error is out of memory.
fn go_on(alloc: Global, saved: &Saved, problem: &Problem, tokens: &[u8]) -> Result<Walk, SavedFault>
    requires { CanStand saved.now problem.now tokens.now }
    ensures goes_on { IfOk result (λ w. search_of w ≡ restored problem.now (open_position saved.now tokens.now) tokens.now) }
    ensures kind { IfOk result (λ w. kind_of w ≡ problem.now.kind) }
    ensures same { (n : ℕ) → IsSavedWalk saved.now tokens.now (walk problem.now n) → IfOk result (λ w. IsAfter (search_of w) n) }
    ensures memory { IfErr result (λ e. e ≡ faults.Memory) }
{
    let position = open_position(alloc, saved, tokens)?;
    let walk = Walk::restore(alloc, problem, &position, tokens)?;
    Ok(walk)
}

/// The search of the problem that goes on from a saved position, after the letters that it has written, which may be
/// any bytes. `now` is the digest of the job now. The position is taken as open, and as that of a search with as many
/// tries as there are I among the letters. The fault is the first of these: `JobElse` exactly where the digest kept is
/// another; `Spent` exactly where the job has made 10,000,000 tries or more; `IllFormed` exactly where no search of the
/// problem may stand at the position after these letters; `Memory` for out of memory alone. It is never `Form`.
pub fn resume(
    alloc: Global,
    saved: &Saved,
    now: [u8; 32],
    problem: &Problem,
    tokens: &[u8],
) -> Result<Walk, SavedFault>
    // It stands where the position says and goes on by the rules of its walk, whatever the letters are.
    ensures goes_on { IfOk result (λ w. search_of w ≡ restored problem.now (open_position saved.now tokens.now) tokens.now) }
    ensures kind { IfOk result (λ w. kind_of w ≡ problem.now.kind) }
    ensures can { IfOk result (λ w. MayGoOn saved.now now × CanStand saved.now problem.now tokens.now) }
    // From what is saved of a new search after n tries, with its letters, it is that search.
    ensures same { (n : ℕ) → IsSavedWalk saved.now tokens.now (walk problem.now n) → IfOk result (λ w. IsAfter (search_of w) n) }

    // Why not.
    ensures job { (result ≡ Err (faults.JobElse saved.now.job now)) ↔ ¬ (saved.now.job ≡ now) }
    ensures spent { (result ≡ Err faults.Spent) ↔ ((saved.now.job ≡ now) × (10_000_000 ≤ saved.now.tries)) }
    ensures ill { (result ≡ Err faults.IllFormed) ↔ (MayGoOn saved.now now × ¬ CanStand saved.now problem.now tokens.now) }
    ensures refused { IfErr result (IsRefusal saved.now now problem.now tokens.now) }
{
    let kept = saved.job;
    if kept != now {
        return Err(SavedFault::JobElse(kept, now));
    }
    if saved.tries >= MOST_TRIES {
        return Err(SavedFault::Spent);
    }
    if !can_stand(saved, problem, tokens) {
        return Err(SavedFault::IllFormed);
    }
    let walk = go_on(alloc, saved, problem, tokens)?;
    Ok(walk)
}
