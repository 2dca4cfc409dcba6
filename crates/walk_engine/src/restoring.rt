//! Positions of searches, and searches that go on from a position.

ghost use Rattle.std.specs.Prelude.{◌≡◌, ◌↔◌, ◌+◌, ◌*◌, ◌≤◌, ℕ, Err, IfOk, length};
ghost use Rattle.std.specs.Vec.{vec_capacity};
ghost use Rattle.pick_problem.specs.Letters.{letters_of};
ghost use Rattle.pick_problem.specs.Standing.{position_of};
ghost use Rattle.pick_problem.specs.Walk.{walk};
ghost use Rattle.pick_problem.specs.declared.position.RestoreFault.TheVariants as fault;
ghost use Rattle.walk_engine.specs.Search.{IsAfter, IsWellFormed, restored, standing};

use crate::best::Best;
use crate::position::is_well_formed;
use crate::prepared::Prepared;
use crate::search::Search;
use crate::stack::Stack;
use fund_base::{Memory, Places};
use pick_problem::{Position, Problem, RestoreFault};
use std::alloc::Global;

/// A copy of letters, with room for two more for each item, and one.
fn letters_from(alloc: Global, tokens: &[u8], count: u32) -> Result<Vec<u8>, Memory>
    ensures letters { IfOk result (λ v. v.items ≡ tokens.now) }
    ensures room { IfOk result (λ v. length v.items + 2 * count + 1 ≤ vec_capacity v) }
{
    let mut letters = Vec::from_slice(alloc, tokens)?;
    letters.reserve(2 * count as usize + 1)?;
    Ok(letters)
}

impl Search {
    /// Where the search stands, with the tries from before it was restored. The error is out of memory.
    pub fn position(&self, alloc: Global) -> Result<Position, Memory>
        ensures { IfOk result (λ q. q ≡ standing self.now) }
    {
        let chosen = Places::new(Vec::from_slice(alloc, self.stack.places.as_slice())?);
        let best = self.best.copy(alloc)?;
        Ok(Position {
            chosen,
            next: self.next,
            best,
            tries: self.earlier + self.made,
            done: self.done,
        })
    }

    /// A search that goes on from a position, after letters that were written before, which may be any bytes. It has
    /// no room for tries yet. `IllFormed` comes exactly where one of the rules of a position is broken: the chosen
    /// places don't rise below the next one; in an open position the next place isn't there, or the chosen value isn't
    /// below `lo`, or the chosen weight is above the limit; a done position has a chosen place, or a next place that
    /// isn't the number of items; there is a best that isn't admissible; or the tries aren't the number of I in the
    /// letters. `Memory` comes only when out of memory.
    pub fn restore(
        alloc: Global,
        problem: &Problem,
        position: &Position,
        tokens: &[u8],
    ) -> Result<Search, RestoreFault>
        ensures goes_on { IfOk result (λ s. s ≡ restored problem.now position.now tokens.now) }
        ensures ill { (result ≡ Err fault.IllFormed) ↔ ¬ IsWellFormed problem.now position.now tokens.now }
        ensures well { ¬ (result ≡ Err fault.IllFormed) → IsWellFormed problem.now position.now tokens.now }
        // From where a new search stands after n tries, with its letters, it is that search.
        ensures same { (n : ℕ) → position.now ≡ position_of (walk problem.now n) →
            tokens.now ≡ letters_of (walk problem.now n).tokens →
            IfOk result (λ s. IsAfter s n) }
    {
        if !is_well_formed(problem, position, tokens) {
            return Err(RestoreFault::IllFormed);
        }
        let prepared = Prepared::new(alloc, problem)?;
        let stack = Stack::of(alloc, &prepared, position.chosen.as_slice(), position.next)?;
        let best = Best::of(alloc, &prepared, &position.best)?;
        let letters = letters_from(alloc, tokens, prepared.count())?;
        Ok(Search {
            prepared,
            stack,
            next: position.next,
            best,
            made: 0,
            done: position.done,
            letters,
            kept: tokens.len(),
            earlier: position.tries,
            spare: 0,
        })
    }
}
