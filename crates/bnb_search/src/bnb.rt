//! Branch and bound.

ghost use Rattle.std.specs.Prelude.{◌≡◌, ◌↔◌, ◌+◌, ◌*◌, ◌^◌, ◌<◌, ◌≤◌, ℕ, false, true, Err, IfOk, MatchOption, None};
ghost use Rattle.std.specs.Prelude.{OnErr, OnOk, Some, length};
ghost use Rattle.pick_problem.specs.Best.{IsBest};
ghost use Rattle.pick_problem.specs.Letters.{IsAcceptedText, letters_of};
ghost use Rattle.pick_problem.specs.Problem.{IsProblem};
ghost use Rattle.pick_problem.specs.Standing.{position_of};
ghost use Rattle.pick_problem.specs.Walk.{IsPosition, walk};
ghost use Rattle.pick_problem.specs.declared.item.Kind.TheVariants.{Changeless};
ghost use Rattle.pick_problem.specs.declared.position.Progress.TheVariants as progress;
ghost use Rattle.pick_problem.specs.declared.position.RestoreFault.TheVariants as fault;
ghost use Rattle.walk_engine.specs.Search.{IsAfter, IsWellFormed, PlainSearch, after, begun, letters, restored};
ghost use Rattle.walk_engine.specs.Search.{standing};

use fund_base::Memory;
use pick_problem::{Position, Problem, Progress, RestoreFault};
use std::alloc::Global;
use std::marker::Model;
use walk_engine::Search;

/// A search for the selection of least waste that needs no change. Contracts see it as the walk of its problem, with
/// the letters from before it was restored, and the number of tries for which there is room.
#[derive(Drop)]
pub struct Bnb {
    search: Search,
}

impl Model for Bnb {
    ghost Value = { PlainSearch };

    ghost view = { λ b. b.search };

    ghost invariant = { λ b. b.search.problem.kind ≡ Changeless };
}

impl Bnb {
    /// A new search, for a problem of the kind [`pick_problem::Kind::Changeless`]. It stands at the start of its
    /// walk, and has no room for tries yet. The error is out of memory.
    pub fn new(alloc: Global, problem: &Problem) -> Result<Bnb, Memory>
        requires { problem.now.kind ≡ Changeless }
        ensures begins { IfOk result (λ b. b ≡ begun problem.now) }
        ensures at_start { IfOk result (λ b. IsAfter b 0) }
    {
        Ok(Bnb {
            search: Search::new(alloc, problem)?,
        })
    }

    /// A search that goes on from a position, after letters that were written before, which may be any bytes. It has
    /// no room for tries yet. `IllFormed` comes exactly where one of these holds: the chosen places aren't rising, or
    /// one isn't below the next place; in an open position the next place isn't below the number of items; in an open
    /// position the chosen value isn't below `lo`, or the chosen weight is above the limit; a done position has a
    /// chosen place, or a next place other than the number of items; there is a best and it isn't admissible; the
    /// position's tries aren't the number of I in the letters. `Memory` comes only when out of memory.
    pub fn restore(
        alloc: Global,
        problem: &Problem,
        position: &Position,
        tokens: &[u8],
    ) -> Result<Bnb, RestoreFault>
        requires { problem.now.kind ≡ Changeless }
        ensures goes_on { IfOk result (λ b. b ≡ restored problem.now position.now tokens.now) }
        ensures ill { (result ≡ Err fault.IllFormed) ↔ ¬ IsWellFormed problem.now position.now tokens.now }
        ensures well { ¬ (result ≡ Err fault.IllFormed) → IsWellFormed problem.now position.now tokens.now }
        // From where a new search stands after n tries, with its letters, it is that search.
        ensures same { (n : ℕ) → position.now ≡ position_of (walk problem.now n) →
            tokens.now ≡ letters_of (walk problem.now n).tokens → IfOk result (λ b. IsAfter b n) }
    {
        Ok(Bnb {
            search: Search::restore(alloc, problem, position, tokens)?,
        })
    }

    /// Makes room for at least so many tries. Whatever it answers, the walk and its letters stay as they are. The
    /// error is out of memory; no buffer holds the letters of more than 3,074,457,345,618,258,602 tries.
    pub fn reserve(&mut self, tries: u64) -> Result<(), Memory>
        ensures walk { self.new ≡ record self.old { spare = self.new.spare } }
        ensures ok { OnOk result (tries ≤ self.new.spare) }
        ensures kept { OnOk result (self.old.spare ≤ self.new.spare) }
        ensures err { OnErr result (self.new ≡ self.old) }
    {
        self.search.reserve(tries)
    }

    /// Makes so many tries, or fewer if the walk is done before. There has to be room for them, and no memory is taken.
    /// `Open` comes exactly where that many were made and the walk isn't done; room falls by the tries made.
    pub fn advance(&mut self, tries: u64) -> Progress
        requires { tries ≤ self.old.spare }
        // The table's steps are taken from where the walk stands, and their letters are appended.
        ensures walk { self.new ≡ after self.old tries }
        ensures open_ { (result ≡ progress.Open) ↔
            ((self.new.walk.tries ≡ self.old.walk.tries + tries) × (self.new.walk.done ≡ false)) }
        ensures done { (result ≡ progress.Done) ↔ (self.new.walk.done ≡ true) }
        ensures spare { self.new.spare + self.new.walk.tries ≡ self.old.spare + self.old.walk.tries }
        // Of a search that stands where a new one stands after n tries, in whatever pieces:
        ensures pieces { (n : ℕ) → IsAfter self.old n → IsAfter self.new (n + tries) }
        ensures best { (n : ℕ) → IsAfter self.old n →
            result ≡ progress.Done → IsBest self.new.problem self.new.walk.best }
        ensures accepted { (n : ℕ) → IsAfter self.old n → result ≡ progress.Done →
            IsAcceptedText self.new.problem self.new.walk.best (letters self.new) }
        ensures few { (n : ℕ) → IsAfter self.old n → length (letters self.new) ≤ 3 * (n + tries) + 1 }
        ensures most { (n : ℕ) → IsAfter self.old n → (standing self.new).tries < 2 ^ length self.new.problem.items }
    {
        self.search.advance(tries)
    }

    /// Where the search stands, with the tries from before it was restored. The error is out of memory.
    pub fn position(&self, alloc: Global) -> Result<Position, Memory>
        ensures { IfOk result (λ q. q ≡ standing self.now) }
    {
        self.search.position(alloc)
    }

    /// The letters of the closing log so far, in ASCII: those with which it was restored, and then those of its tries.
    pub fn tokens(&self) -> &[u8]
        ensures { result.now ≡ letters self.now }
    {
        self.search.tokens()
    }

    /// For how many more tries there is room.
    pub fn spare(&self) -> u64
        ensures { result ≡ self.now.spare }
    {
        self.search.spare()
    }

    /// The tries made since the search was made or restored.
    pub fn tries(&self) -> u64
        ensures tries { result ≡ self.now.walk.tries }
        ensures problem { IsProblem self.now.problem }
        ensures kind { self.now.problem.kind ≡ Changeless }
        ensures position { IsPosition self.now.problem self.now.walk }
    {
        self.search.tries()
    }

    /// The places of the best selection that was met so far; `None` exactly while nothing admissible was met.
    pub fn best(&self) -> Option<&[u32]>
        ensures { MatchOption result (self.now.walk.best ≡ None) (λ places. self.now.walk.best ≡ Some places.now) }
    {
        self.search.best()
    }
}
