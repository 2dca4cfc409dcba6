//! A wide search: a walk with its letters.

ghost use Rattle.std.specs.Prelude.{◌≡◌, ◌↔◌, ◌+◌, ◌*◌, ◌^◌, ◌<◌, ◌≤◌, true, false, IfOk, MatchOption, None};
ghost use Rattle.std.specs.Prelude.{OnErr, OnOk, Some, length};
ghost use Rattle.pick_problem.specs.declared.item.Kind.TheVariants.{Changeless};
ghost use Rattle.pick_problem.specs.declared.position.Progress.TheVariants as progress;
ghost use Rattle.wide_check.specs.Wide.{IsWideBest, IsWideFit, IsWideProblem};
ghost use Rattle.wide_check.specs.WideLetters.{IsWideAcceptedText};

use crate::best::Best;
use crate::prepared::Prepared;
use crate::skip_runs::glide;
use crate::stack::Stack;
use crate::transitions::{begin, step};
use fund_base::Memory;
use pick_problem::{Problem, Progress};
use std::alloc::Global;
use std::marker::Model;

/// The greatest number of tries whose letters, four each, a buffer of at most 2^63 - 1 bytes can hold.
const MOST_TRIES: u64 = 2_305_843_009_213_693_951;

/// A search for the selection of least waste that needs no change, among all lists in the window: worth from `lo` to `hi`,
/// and within the limit of weight. Contracts see it as the walk of its problem, with the number of tries for which there is room. No try takes memory.
pub struct Wide {
    prepared: Prepared,
    stack: Stack,
    next: u32,
    best: Best,
    made: u64,
    done: bool,
    letters: Vec<u8>,
    spare: u64,
}

/// One call, wherever it is dropped.
impl Drop for Wide {
    fn drop(self) {
        let Wide {
            prepared: _,
            stack: _,
            next: _,
            best: _,
            made: _,
            done: _,
            letters: _,
            spare: _,
        } = self;
    }
}

impl Model for Wide {
    ghost use Rattle.std.specs.Prelude.{length};
    ghost use Rattle.std.specs.Vec.{vec_capacity};
    ghost use Rattle.wide_search.specs.Search.{IsKept, IsWideSearch, PlainWide, plain};

    ghost Value = { PlainWide };

    ghost view = { λ s. plain s.prepared s.stack s.next s.best s.made s.done s.letters.items s.spare };

    ghost invariant = { λ s.
        IsWideSearch (plain s.prepared s.stack s.next s.best s.made s.done s.letters.items s.spare)
        × IsKept s.prepared s.stack s.next s.best s.made s.done s.letters.items (vec_capacity s.letters) s.spare };
}

impl Wide {
    ghost use Rattle.wide_search.specs.Search.{IsWideSearch, after, begun, letters};

    /// A new search, for a problem of the kind [`pick_problem::Kind::Changeless`]. It stands at the start of its walk, and
    /// has no room for tries yet. The error is out of memory.
    pub fn new(alloc: Global, problem: &Problem) -> Result<Wide, Memory>
        requires { problem.now.kind ≡ Changeless }
        ensures { IfOk result (λ s. s ≡ begun problem.now) }
    {
        let prepared = Prepared::new(alloc, problem)?;
        let stack = Stack::new(alloc, &prepared)?;
        let best = Best::new(alloc, &prepared)?;
        let mut letters = Vec::with_capacity(alloc, 2)?;
        let stop = begin(&prepared, &mut letters);
        Ok(Wide {
            prepared,
            stack,
            next: stop.next,
            best,
            made: 0,
            done: stop.done,
            letters,
            spare: 0,
        })
    }

    /// Makes room for at least so many tries. Whatever it answers, the walk and its letters stay as they are. The error
    /// is out of memory; for more than 2^61 - 1 tries it always comes, since no buffer holds their letters.
    pub fn reserve(&mut self, tries: u64) -> Result<(), Memory>
        ensures walk { self.new ≡ record self.old { spare = self.new.spare } }
        ensures ok { OnOk result (tries ≤ self.new.spare) }
        ensures kept { OnOk result (self.old.spare ≤ self.new.spare) }
        ensures err { OnErr result (self.new ≡ self.old) }
    {
        if tries <= self.spare {
            return Ok(());
        }
        if tries > MOST_TRIES {
            return Err(Memory);
        }
        self.letters
            .reserve(4 * tries as usize + 2 * self.stack.places.len() + 1)?;
        self.spare = tries;
        Ok(())
    }

    /// For how many more tries there is room.
    pub fn spare(&self) -> u64
        ensures { result ≡ self.now.spare }
    {
        self.spare
    }

    /// The tries made since the search was made.
    pub fn tries(&self) -> u64
        ensures tries { result ≡ self.now.walk.tries }
        ensures problem { IsWideProblem self.now.problem }
    {
        self.made
    }

    /// Whether the walk is done.
    #[inline(always)]
    fn is_done(&self) -> bool
        ensures done { result ≡ self.now.walk.done }
        ensures search { IsWideSearch self.now }
    {
        self.done
    }

    /// The letters of the closing log so far, in ASCII.
    pub fn tokens(&self) -> &[u8]
        ensures { result.now ≡ letters self.now }
    {
        self.letters.as_slice()
    }

    /// The places of the best selection that was met so far; `None` exactly while none was met.
    pub fn best(&self) -> Option<&[u32]>
        ensures places { MatchOption result (self.now.walk.best ≡ None)
            (λ places. self.now.walk.best ≡ Some places.now) }
        ensures fit { IsWideFit self.now.problem self.now.walk.best }
    {
        if self.best.found {
            Some(self.best.places.as_slice())
        } else {
            None
        }
    }

    /// One try.
    #[inline(always)]
    fn turn(&mut self)
        requires open_ { self.old.walk.done ≡ false }
        requires spare { 1 ≤ self.old.spare }
        ensures { self.new ≡ after self.old 1 }
    {
        let stop = step(
            &self.prepared,
            &mut self.best,
            &mut self.stack,
            &mut self.letters,
            self.next,
        );
        self.next = stop.next;
        self.done = stop.done;
        self.made += 1;
        self.spare -= 1;
    }

    /// Tries that are told to drop their place and to change nothing else, at most so many. Gives how many were made.
    #[inline(always)]
    fn glide_on(&mut self, tries: u64) -> u64
        requires open_ { self.old.walk.done ≡ false }
        requires spare { tries ≤ self.old.spare }
        ensures made { self.new ≡ after self.old result }
        ensures few { result ≤ tries }
        ensures open_ { self.new.walk.done ≡ false }
    {
        let run = glide(
            &self.prepared,
            &self.best,
            &self.stack,
            &mut self.letters,
            self.next,
            tries,
        );
        self.next = run.next;
        self.made += run.made;
        self.spare -= run.made;
        run.made
    }

    /// Some tries, at most so many: those of that kind, and the one after them. Gives how many were made.
    #[inline(always)]
    fn make_some(&mut self, tries: u64) -> u64
        requires open_ { self.old.walk.done ≡ false }
        requires some { 1 ≤ tries }
        requires spare { tries ≤ self.old.spare }
        ensures made { self.new ≡ after self.old result }
        ensures some { 1 ≤ result }
        ensures few { result ≤ tries }
    {
        let made = self.glide_on(tries);
        if made == tries {
            return made;
        }
        self.turn();
        made + 1
    }

    /// So many tries, or fewer if the walk is done before.
    fn make(&mut self, tries: u64)
        requires { tries ≤ self.old.spare }
        ensures { self.new ≡ after self.old tries }
    {
        let mut made = 0;
        'trying: while made < tries {
            if self.is_done() {
                return;
            }
            made += self.make_some(tries - made);
        }
    }

    /// Whether there are tries left to make.
    fn progress(&self) -> Progress
        ensures open_ { (result ≡ progress.Open) ↔ (self.now.walk.done ≡ false) }
        ensures done { (result ≡ progress.Done) ↔ (self.now.walk.done ≡ true) }
        ensures search { IsWideSearch self.now }
    {
        if self.is_done() {
            Progress::Done
        } else {
            Progress::Open
        }
    }

    /// Makes so many tries, or fewer if the walk is done before. There has to be room for them, and no memory is taken.
    /// `Open` comes exactly where that many were made and the walk isn't done; room falls by the tries made.
    pub fn advance(&mut self, tries: u64) -> Progress
        requires { tries ≤ self.old.spare }
        // The table's steps are taken from where the walk stands, and their letters are appended.
        ensures walk { self.new ≡ after self.old tries }
        ensures open_ { (result ≡ progress.Open) ↔
            ((self.new.walk.tries ≡ self.old.walk.tries + tries) × (self.new.walk.done ≡ false)) }
        ensures done { (result ≡ progress.Done) ↔ (self.new.walk.done ≡ true) }
        ensures spare { self.new.spare + self.new.walk.tries ≡ self.old.spare + self.old.walk.tries }
        // Once it is done, its best is the best, or there is none, and its letters are a log that is accepted with that.
        ensures best { result ≡ progress.Done → IsWideBest self.new.problem self.new.walk.best }
        ensures accepted { result ≡ progress.Done →
            IsWideAcceptedText self.new.problem self.new.walk.best (letters self.new) }
        ensures few { length (letters self.new) ≤ 4 * self.new.walk.tries + 1 }
        ensures most { self.new.walk.tries < 2 ^ length self.new.problem.items }
    {
        self.make(tries);
        self.progress()
    }
}
