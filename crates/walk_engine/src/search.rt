//! A search: a walk with its letters.

ghost use Rattle.std.specs.Prelude.{◌≡◌, ◌↔◌, ◌+◌, ◌*◌, ◌^◌, ◌<◌, ◌≤◌, ℕ, true, false, IfOk, MatchOption, None};
ghost use Rattle.std.specs.Prelude.{OnErr, OnOk, Some, length};
ghost use Rattle.pick_problem.specs.Best.{IsBest};
ghost use Rattle.pick_problem.specs.Letters.{IsAcceptedText};
ghost use Rattle.pick_problem.specs.Problem.{IsProblem};
ghost use Rattle.pick_problem.specs.Walk.{IsPosition};
ghost use Rattle.pick_problem.specs.declared.position.Progress.TheVariants as progress;

use crate::best::Best;
use crate::prepared::Prepared;
use crate::skip_runs::glide;
use crate::stack::Stack;
use crate::transitions::{begin, step};
use fund_base::Memory;
use pick_problem::{Problem, Progress};
use std::alloc::Global;
use std::marker::Model;

/// The greatest number of tries whose letters, three each, a buffer of at most 2^63 - 1 bytes can hold.
const MOST_TRIES: u64 = 3_074_457_345_618_258_602;

/// A walk of a problem, try by try, with the letters that it writes. Tries are made in room that was reserved before:
/// none of them takes memory.
pub struct Search {
    pub(crate) prepared: Prepared,
    pub(crate) stack: Stack,
    pub(crate) next: u32,
    pub(crate) best: Best,
    pub(crate) made: u64,
    pub(crate) done: bool,
    pub(crate) letters: Vec<u8>,
    pub(crate) kept: usize,
    pub(crate) earlier: u64,
    pub(crate) spare: u64,
}

/// One call, wherever it is dropped.
impl Drop for Search {
    fn drop(self) {
        let Search {
            prepared: _,
            stack: _,
            next: _,
            best: _,
            made: _,
            done: _,
            letters: _,
            kept: _,
            earlier: _,
            spare: _,
        } = self;
    }
}

impl Model for Search {
    ghost use Rattle.std.specs.Prelude.{length};
    ghost use Rattle.std.specs.Vec.{vec_capacity};
    ghost use Rattle.walk_engine.specs.Search.{IsSearchState, IsSearch, PlainSearch, plain};

    ghost Value = { PlainSearch };

    ghost view = { λ s. plain s.prepared s.stack s.next s.best s.made s.done s.letters.items s.kept s.spare };

    ghost invariant = { λ s.
        IsSearch (plain s.prepared s.stack s.next s.best s.made s.done s.letters.items s.kept s.spare)
        × IsSearchState s.prepared s.stack s.next s.best s.done s.letters.items (vec_capacity s.letters) s.kept s.earlier
        s.spare };
}

impl Search {
    ghost use Rattle.walk_engine.specs.Search.{IsAfter, IsSearch, after, begun, letters, standing};

    /// A new search of a problem, at the start of its walk; it has no room for tries yet. The error is out of memory.
    pub fn new(alloc: Global, problem: &Problem) -> Result<Search, Memory>
        ensures begins { IfOk result (λ s. s ≡ begun problem.now) }
        ensures at_start { IfOk result (λ s. IsAfter s 0) }
    {
        let prepared = Prepared::new(alloc, problem)?;
        let stack = Stack::new(alloc, &prepared)?;
        let best = Best::new(alloc, &prepared)?;
        let mut letters = Vec::with_capacity(alloc, 2)?;
        let stop = begin(&prepared, &mut letters);
        Ok(Search {
            prepared,
            stack,
            next: stop.next,
            best,
            made: 0,
            done: stop.done,
            letters,
            kept: 0,
            earlier: 0,
            spare: 0,
        })
    }

    /// Makes room for at least so many tries. Whatever it answers, the walk and its letters stay as they are. The error
    /// is out of memory; no buffer holds the letters of more than 3,074,457,345,618,258,602 tries.
    pub fn reserve(&mut self, tries: u64) -> Result<(), Memory>
        ensures walk { self.new ≡ record self.old { spare = self.new.spare } }
        ensures ok { OnOk result (tries ≤ self.new.spare) }
        ensures kept { OnOk result (self.old.spare ≤ self.new.spare) }
        ensures err { OnErr result (self.new ≡ self.old) }
    {
        if tries <= self.spare {
            return Ok(());
        }
        if tries > MOST_TRIES {
            return Err(Memory);
        }
        self.letters
            .reserve(3 * tries as usize + 2 * self.stack.places.len() + 1)?;
        self.spare = tries;
        Ok(())
    }

    /// How many more tries have their room.
    pub fn spare(&self) -> u64
        ensures { result ≡ self.now.spare }
    {
        self.spare
    }

    /// The tries made since the search was made or restored.
    pub fn tries(&self) -> u64
        ensures tries { result ≡ self.now.walk.tries }
        ensures problem { IsProblem self.now.problem }
        ensures position { IsPosition self.now.problem self.now.walk }
    {
        self.made
    }

    /// Whether the walk is done.
    #[inline(always)]
    pub fn is_done(&self) -> bool
        ensures done { result ≡ self.now.walk.done }
        ensures search { IsSearch self.now }
    {
        self.done
    }

    /// The letters, in ASCII: those with which it was restored, and then those of its own tries.
    pub fn tokens(&self) -> &[u8]
        ensures { result.now ≡ letters self.now }
    {
        self.letters.as_slice()
    }

    /// The places of the best selection that was met so far; `None` exactly while nothing admissible was met.
    pub fn best(&self) -> Option<&[u32]>
        ensures { MatchOption result (self.now.walk.best ≡ None) (λ places. self.now.walk.best ≡ Some places.now) }
    {
        if self.best.found {
            Some(self.best.places.as_slice())
        } else {
            None
        }
    }

    /// One try.
    #[inline(always)]
    fn turn(&mut self)
        requires open_ { self.old.walk.done ≡ false }
        requires spare { 1 ≤ self.old.spare }
        ensures { self.new ≡ after self.old 1 }
    {
        let stop = step(
            &self.prepared,
            &mut self.best,
            &mut self.stack,
            &mut self.letters,
            self.next,
        );
        self.next = stop.next;
        self.done = stop.done;
        self.made += 1;
        self.spare -= 1;
    }

    /// Tries that are told to drop their place and to change nothing else, at most so many. Gives how many were made.
    #[inline(always)]
    fn glide_on(&mut self, tries: u64) -> u64
        requires open_ { self.old.walk.done ≡ false }
        requires spare { tries ≤ self.old.spare }
        ensures made { self.new ≡ after self.old result }
        ensures few { result ≤ tries }
        ensures open_ { self.new.walk.done ≡ false }
    {
        let run = glide(
            &self.prepared,
            &self.best,
            &self.stack,
            &mut self.letters,
            self.next,
            tries,
        );
        self.next = run.next;
        self.made += run.made;
        self.spare -= run.made;
        run.made
    }

    /// Some tries, at most so many: those of that kind, and the one after them. Gives how many were made.
    #[inline(always)]
    fn make_some(&mut self, tries: u64) -> u64
        requires open_ { self.old.walk.done ≡ false }
        requires some { 1 ≤ tries }
        requires spare { tries ≤ self.old.spare }
        ensures made { self.new ≡ after self.old result }
        ensures some { 1 ≤ result }
        ensures few { result ≤ tries }
    {
        let made = self.glide_on(tries);
        if made == tries {
            return made;
        }
        self.turn();
        made + 1
    }

    /// So many tries, or fewer if the walk is done before.
    fn make(&mut self, tries: u64)
        requires { tries ≤ self.old.spare }
        ensures { self.new ≡ after self.old tries }
    {
        let mut made = 0;
        'trying: while made < tries {
            if self.is_done() {
                return;
            }
            made += self.make_some(tries - made);
        }
    }

    /// Whether there are tries left to make.
    fn progress(&self) -> Progress
        ensures open_ { (result ≡ progress.Open) ↔ (self.now.walk.done ≡ false) }
        ensures done { (result ≡ progress.Done) ↔ (self.now.walk.done ≡ true) }
        ensures search { IsSearch self.now }
    {
        if self.is_done() {
            Progress::Done
        } else {
            Progress::Open
        }
    }

    /// Makes so many tries, or fewer if the walk is done before. It takes no memory. There has to be room for them.
    pub fn advance(&mut self, tries: u64) -> Progress
        requires { tries ≤ self.old.spare }
        // The table's steps are taken from where the walk stands, and their letters are appended.
        ensures walk { self.new ≡ after self.old tries }
        ensures open_ { (result ≡ progress.Open) ↔
            ((self.new.walk.tries ≡ self.old.walk.tries + tries) × (self.new.walk.done ≡ false)) }
        ensures done { (result ≡ progress.Done) ↔ (self.new.walk.done ≡ true) }
        ensures spare { self.new.spare + self.new.walk.tries ≡ self.old.spare + self.old.walk.tries }
        // Of a search that stands where a new one stands after n tries, in whatever pieces:
        ensures pieces { (n : ℕ) → IsAfter self.old n → IsAfter self.new (n + tries) }
        ensures best { (n : ℕ) → IsAfter self.old n →
            result ≡ progress.Done → IsBest self.new.problem self.new.walk.best }
        ensures accepted { (n : ℕ) → IsAfter self.old n → result ≡ progress.Done →
            IsAcceptedText self.new.problem self.new.walk.best (letters self.new) }
        ensures few { (n : ℕ) → IsAfter self.old n → length (letters self.new) ≤ 3 * (n + tries) + 1 }
        ensures most { (n : ℕ) → IsAfter self.old n → (standing self.new).tries < 2 ^ length self.new.problem.items }
    {
        self.make(tries);
        self.progress()
    }
}
