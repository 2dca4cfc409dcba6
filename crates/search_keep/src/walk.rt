//! Searches of both kinds.

ghost use Rattle.std.specs.Prelude.{◌≡◌, ◌↔◌, ◌+◌, ◌≤◌, ℕ, Err, IfOk, MatchOption, None, OnErr, OnOk, Some, false, true};
ghost use Rattle.pick_problem.specs.Best.{IsBest};
ghost use Rattle.pick_problem.specs.Letters.{IsAcceptedText, letters_of};
ghost use Rattle.pick_problem.specs.Problem.{IsProblem};
ghost use Rattle.pick_problem.specs.Standing.{position_of};
ghost use Rattle.pick_problem.specs.Walk.{IsPosition, walk};
ghost use Rattle.pick_problem.specs.declared.position.Progress.TheVariants as progress;
ghost use Rattle.pick_problem.specs.declared.position.RestoreFault.TheVariants as fault;
ghost use Rattle.search_keep.specs.Walks.{kind_of, search_of};
ghost use Rattle.walk_engine.specs.Search.{IsAfter, IsWellFormed, after, begun, letters, restored, standing};

use bnb_search::Bnb;
use coin_grinder::Grinder;
use fund_base::Memory;
use pick_problem::{Kind, Position, Problem, Progress, RestoreFault};
use std::alloc::Global;

/// The search of a problem: without change by branch and bound, else for the lightest selection.
#[derive(Drop)]
pub enum Walk {
    Bnb(Bnb),
    Grinder(Grinder),
}

impl Walk {
    /// A new search of a problem: a [`Bnb`] exactly where the problem is without change. It stands at the start of its
    /// walk, and has no room for tries yet. The error is out of memory.
    pub fn new(alloc: Global, problem: &Problem) -> Result<Walk, Memory>
        ensures begins { IfOk result (λ w. search_of w ≡ begun problem.now) }
        ensures kind { IfOk result (λ w. kind_of w ≡ problem.now.kind) }
        ensures at_start { IfOk result (λ w. IsAfter (search_of w) 0) }
    {
        match problem.kind() {
            Kind::Changeless => Ok(Walk::Bnb(Bnb::new(alloc, problem)?)),
            Kind::Lean => Ok(Walk::Grinder(Grinder::new(alloc, problem)?)),
        }
    }

    /// A search that goes on from a position, after letters that were written before, which may be any bytes. It is a
    /// [`Bnb`] exactly where the problem is without change, and has no room for tries yet. `IllFormed` comes exactly
    /// where no search of the problem may stand at the position after these letters; `Memory` for out of memory alone.
    pub fn restore(
        alloc: Global,
        problem: &Problem,
        position: &Position,
        tokens: &[u8],
    ) -> Result<Walk, RestoreFault>
        ensures goes_on { IfOk result (λ w. search_of w ≡ restored problem.now position.now tokens.now) }
        ensures kind { IfOk result (λ w. kind_of w ≡ problem.now.kind) }
        ensures ill { (result ≡ Err fault.IllFormed) ↔ ¬ IsWellFormed problem.now position.now tokens.now }
        ensures well { ¬ (result ≡ Err fault.IllFormed) → IsWellFormed problem.now position.now tokens.now }
        // From where a new search stands after n tries, with its letters, it is that search.
        ensures same { (n : ℕ) → position.now ≡ position_of (walk problem.now n) →
            tokens.now ≡ letters_of (walk problem.now n).tokens → IfOk result (λ w. IsAfter (search_of w) n) }
    {
        match problem.kind() {
            Kind::Changeless => Ok(Walk::Bnb(Bnb::restore(alloc, problem, position, tokens)?)),
            Kind::Lean => Ok(Walk::Grinder(Grinder::restore(alloc, problem, position, tokens)?)),
        }
    }

    /// Makes room for at least so many tries. Whatever it answers, the walk and its letters stay as they are. The
    /// error is out of memory.
    pub fn reserve(&mut self, tries: u64) -> Result<(), Memory>
        ensures walk { search_of self.new ≡ record (search_of self.old) { spare = (search_of self.new).spare } }
        ensures kind { kind_of self.new ≡ kind_of self.old }
        ensures ok { OnOk result (tries ≤ (search_of self.new).spare) }
        ensures kept { OnOk result ((search_of self.old).spare ≤ (search_of self.new).spare) }
        ensures err { OnErr result (search_of self.new ≡ search_of self.old) }
    {
        match self {
            Walk::Bnb(bnb) => bnb.reserve(tries),
            Walk::Grinder(grinder) => grinder.reserve(tries),
        }
    }

    /// Makes so many tries, or fewer if the walk is done before. There has to be room for them, and no memory is
    /// taken. `Open` comes exactly where that many were made and the walk isn't done; room falls by the tries made.
    pub fn advance(&mut self, tries: u64) -> Progress
        requires { tries ≤ (search_of self.old).spare }
        // The table's steps are taken from where the walk stands, and their letters are appended.
        ensures walk { search_of self.new ≡ after (search_of self.old) tries }
        ensures kind { kind_of self.new ≡ kind_of self.old }
        ensures open_ { (result ≡ progress.Open) ↔
            (((search_of self.new).walk.tries ≡ (search_of self.old).walk.tries + tries)
            × ((search_of self.new).walk.done ≡ false)) }
        ensures done { (result ≡ progress.Done) ↔ ((search_of self.new).walk.done ≡ true) }
        ensures spare { (search_of self.new).spare + (search_of self.new).walk.tries
            ≡ (search_of self.old).spare + (search_of self.old).walk.tries }
        // Of a search that stands where a new one stands after n tries, in whatever pieces:
        ensures pieces { (n : ℕ) → IsAfter (search_of self.old) n → IsAfter (search_of self.new) (n + tries) }
        ensures best { (n : ℕ) → IsAfter (search_of self.old) n → result ≡ progress.Done →
            IsBest (search_of self.new).problem (search_of self.new).walk.best }
        ensures accepted { (n : ℕ) → IsAfter (search_of self.old) n → result ≡ progress.Done →
            IsAcceptedText (search_of self.new).problem (search_of self.new).walk.best (letters (search_of self.new)) }
    {
        match self {
            Walk::Bnb(bnb) => bnb.advance(tries),
            Walk::Grinder(grinder) => grinder.advance(tries),
        }
    }

    /// Where the search stands, with the tries from before it was restored. The error is out of memory.
    pub fn position(&self, alloc: Global) -> Result<Position, Memory>
        ensures { IfOk result (λ q. q ≡ standing (search_of self.now)) }
    {
        match self {
            Walk::Bnb(bnb) => bnb.position(alloc),
            Walk::Grinder(grinder) => grinder.position(alloc),
        }
    }

    /// The letters of the closing log so far: those with which it was restored, and then those of its tries.
    pub fn tokens(&self) -> &[u8]
        ensures { result.now ≡ letters (search_of self.now) }
    {
        match self {
            Walk::Bnb(bnb) => bnb.tokens(),
            Walk::Grinder(grinder) => grinder.tokens(),
        }
    }

    /// For how many more tries there is room.
    pub fn spare(&self) -> u64
        ensures { result ≡ (search_of self.now).spare }
    {
        match self {
            Walk::Bnb(bnb) => bnb.spare(),
            Walk::Grinder(grinder) => grinder.spare(),
        }
    }

    /// The tries made since the search was made or restored.
    pub fn tries(&self) -> u64
        ensures tries { result ≡ (search_of self.now).walk.tries }
        ensures problem { IsProblem (search_of self.now).problem }
        // It is a Bnb exactly where its problem is without change.
        ensures kind { kind_of self.now ≡ (search_of self.now).problem.kind }
        ensures position { IsPosition (search_of self.now).problem (search_of self.now).walk }
    {
        match self {
            Walk::Bnb(bnb) => bnb.tries(),
            Walk::Grinder(grinder) => grinder.tries(),
        }
    }

    /// The places of the best selection that was met so far; `None` exactly while nothing admissible was met.
    pub fn best(&self) -> Option<&[u32]>
        ensures { MatchOption result ((search_of self.now).walk.best
            ≡ None) (λ places. (search_of self.now).walk.best ≡ Some places.now) }
    {
        match self {
            Walk::Bnb(bnb) => bnb.best(),
            Walk::Grinder(grinder) => grinder.best(),
        }
    }
}
