//! The run over steps.

ghost use Rattle.std.specs.Prelude.{◌≡◌, ◌↔◌, ◌<◌, ◌≤◌, ◌+◌, ◌^◌, ◌≢◌, [], ◌∷◌, ℕ, List, true, IfErr, IfOk, IfSome, IsTrue, MatchOption, None, Ok, OnErr, OnOk};
ghost use Rattle.search_run.specs.Judged.{IsRefusedFor, IsRefusedLog, saved_in};
ghost use Rattle.search_run.specs.Kept.{Along, CanGoOn, IsAcceptedAt, first_search, log_of, saved_of, stand_of, tail_of};
ghost use Rattle.search_run.specs.Run.{beginning, end_of, go_on, over};
ghost use Rattle.search_run.specs.Runs.{RunLeads, saved_with};
ghost use Rattle.search_run.specs.Turns.{IsPassed, IsTurn, IsWalkedOn};
ghost use Rattle.search_run.specs.Stands.{IsEndOf, IsStand};
ghost use Rattle.search_run.specs.Step.{AreSteps, PlainStep};
ghost use Rattle.search_run.specs.declared.fault.VerifyFault.TheVariants as verified;

use crate::column_results::{take_ended, take_partial};
use crate::ending::End;
use crate::fault::{RestoreRefused, VerifyFault};
use crate::history::History;
use crate::keeping::{copy_sections, place, tail};
use crate::outcome::leave;
use crate::restoring::resume;
use crate::step::Step;
use crate::verifying::verify;
use crate::walking::{Turn, advance};
use closing_log::{LogText, OpenSection};
use fund_base::Memory;
use search_keep::Saved;
use std::alloc::Global;
use std::marker::Model;
use walk_engine::Search;

/// For how many tries letters are reserved at a time.
const MOST_RESERVED: u64 = 65_536;

/// A run over steps: it makes their searches and draws one after another, within the tries that it is given. Contracts
/// see its seed, its steps, and where it stands. After [`Memory`] a run may stand at a step whose walk is done, or
/// not begun; the next `go`, of no tries too, passes it.
pub struct SearchRun {
    alloc: Global,
    seed: [u8; 32],
    steps: Vec<Step>,
    at: usize,
    walk: Option<Search>,
    past: History,
}

/// One call, wherever it is dropped.
impl Drop for SearchRun {
    fn drop(self) {
        let SearchRun {
            alloc: _,
            seed: _,
            steps: _,
            at: _,
            walk: _,
            past: _,
        } = self;
    }
}

impl Model for SearchRun {
    ghost use Rattle.search_run.specs.Held.{IsRun, run_in};
    ghost use Rattle.search_run.specs.Runs.{PlainRun};

    ghost Value = { PlainRun };

    ghost view = { λ r. run_in r.seed r.steps.items r.at r.walk r.past };

    ghost invariant = { λ r. IsRun r.seed r.steps.items r.at r.walk r.past };
}

impl SearchRun {
    /// A run over these steps that stands at its beginning. Its draws are made by the seed. It takes no memory.
    pub fn new(alloc: Global, seed: [u8; 32], steps: Vec<Step>) -> SearchRun
        requires { AreSteps steps.items }
        ensures { result ≡ record { seed = seed; steps = steps.items; stand = beginning seed steps.items } }
    {
        SearchRun {
            alloc,
            seed,
            steps,
            at: 0,
            walk: None,
            past: History {
                found: Vec::new(alloc),
                closed: Vec::new(alloc),
                tries: 0,
            },
        }
    }

    /// The tries of the run so far, with those from before it was restored.
    pub fn tries(&self) -> u64
        ensures tries { result ≡ self.now.stand.past.tries }
        // What is true of each run: its steps are steps, and it stands where a run over them may stand.
        ensures steps { AreSteps self.now.steps }
        ensures stands { IsStand self.now.seed self.now.steps self.now.stand }
    {
        self.past.tries
    }

    /// Whether no step is left. After an Ok of `go` that is so exactly where the run has come to its end.
    pub fn is_over(&self) -> bool
        ensures over { IsTrue result ↔ self.now.stand.left ≡ [] }
        ensures rests { IsTrue result → self.now.stand ≡ over self.now.stand.past }
    {
        self.at == self.steps.len()
    }

    /// The step at which it stands; `None` exactly where none is left.
    pub fn step(&self) -> Option<&Step>
        ensures { MatchOption result (self.now.stand.left ≡ []) (λ x. (rest : List PlainStep) × (self.now.stand.left ≡ x.now ∷ rest)) }
    {
        self.steps.as_slice().get(self.at)
    }

    /// Makes so many tries of the walk at which it stands, or fewer if that is done before. The error is out of
    /// memory: then no try was made.
    fn walk_on(&mut self, tries: u64) -> Result<Turn, Memory>
        requires fits { self.old.stand.past.tries + tries < 2 ^ 64 }
        requires left { self.old.stand.left ≢ [] }
        ensures ok { IfOk result (λ t. IsWalkedOn self.old tries t self.new) }
        ensures err { OnErr result (self.new ≡ self.old) }
    {
        let mut walk = self.walk.take();
        let turn = advance(self.alloc, &self.steps[self.at], &mut walk, tries);
        self.walk = walk;
        let turn = turn?;
        self.past.tries += turn.made;
        Ok(turn)
    }

    /// Passes the step at which it stands, whose walk is done. The error is out of memory: then it stays there.
    fn pass(&mut self) -> Result<(), Memory>
        requires left { self.old.stand.left ≢ [] }
        requires done { self.old.stand.walk.done ≡ true }
        ensures ok { OnOk result (IsPassed self.old self.new) }
        ensures err { OnErr result (self.new ≡ self.old) }
    {
        self.at = leave(
            self.alloc,
            self.seed,
            self.steps.as_slice(),
            self.at,
            &self.walk,
            &mut self.past,
        )?;
        self.walk = None;
        Ok(())
    }

    /// Makes some of these tries, and passes the step if its walk is done then. The answer is how many were made; or
    /// `None` where all were, and the walk goes on. The error is out of memory, after some of the tries.
    #[tactic(auto, using(crate::proofs::HeldLaws::turn_stays, crate::proofs::HeldLaws::turn_open, crate::proofs::HeldLaws::turn_passed, crate::proofs::HeldLaws::turn_begins, crate::proofs::HeldLaws::turn_waits))]
    fn turn(&mut self, tries: u64) -> Result<Option<u64>, Memory>
        requires fits { self.old.stand.past.tries + tries < 2 ^ 64 }
        requires left { self.old.stand.left ≢ [] }
        ensures goes { IfOk result (λ o. IfSome o (λ made. IsTurn self.old tries made self.new)) }
        ensures stays { result ≡ Ok None → self.new ≡ record self.old { stand = go_on self.old.seed self.old.stand tries } }
        ensures err { OnErr result ((k : ℕ) × (k ≤ tries) × RunLeads self.old k self.new) }
    {
        let turn = self.walk_on(tries.min(MOST_RESERVED))?;
        if turn.done {
            self.pass()?;
            return Ok(Some(turn.made));
        }
        if turn.made == tries {
            return Ok(None);
        }
        Ok(Some(turn.made))
    }

    /// Goes on with at most so many tries. Draws and walks that are done are passed without tries. A run that has come
    /// to its end stays there. Letters are reserved for at most 65,536 tries at a time. The error is out of memory:
    /// the run then stands where some of the tries lead, and a further call goes on from there.
    pub fn go(&mut self, budget: u64) -> Result<(), Memory>
        requires fits { self.old.stand.past.tries + budget < 2 ^ 64 }
        ensures ok { OnOk result (self.new ≡ record self.old { stand = go_on self.old.seed self.old.stand budget }) }
        ensures err { OnErr result ((k : ℕ) × (k ≤ budget) × RunLeads self.old k self.new) }
    {
        let mut left = budget;
        'on: while !self.is_over() {
            match self.turn(left)? {
                None => return Ok(()),
                Some(made) => left -= made,
            }
        }
        Ok(())
    }

    /// What it comes to where it stands, a result being taken for want of tries or not. The error is out of memory.
    fn reached(&self, take: bool) -> Result<End, Memory>
        ensures end { IfOk result (λ e. e ≡ end_of take self.now.seed self.now.stand) }
        ensures steps { AreSteps self.now.steps }
        ensures stands { IsStand self.now.seed self.now.steps self.now.stand }
    {
        let Some(step) = self.steps.as_slice().get(self.at) else {
            return take_ended(self.alloc, self.past.found.as_slice());
        };
        if !take {
            return Ok(End::Unfinished);
        }
        take_partial(
            self.alloc,
            self.seed,
            step,
            &self.steps[self.at + 1..],
            &self.walk,
            self.past.found.as_slice(),
        )
    }

    /// What it comes to where it stands. `take` says whether a result is taken for want of tries, where a step is
    /// left: of the results of the column so far, the best of the walk that goes on, and what the draws of the column
    /// find that are still to come. The error is out of memory.
    pub fn end(&self, take: bool) -> Result<End, Memory>
        ensures end { IfOk result (λ e. e ≡ end_of take self.now.seed self.now.stand) }
        // A result is one of a step, and admissible for its problem.
        ensures admissible { IfOk result (λ e. IsEndOf self.now.steps e) }
    {
        self.reached(take)
    }

    /// The section of the search that goes on; `None` where no step is left. The error is out of memory.
    #[tactic(auto, using(crate::proofs::HeldLaws::tail_is, crate::proofs::HeldLaws::tail_none))]
    fn open_tail(&self) -> Result<Option<OpenSection>, Memory>
        ensures { IfOk result (λ t. t ≡ tail_of self.now.stand self.now.stand.left) }
    {
        let Some(step) = self.step() else {
            return Ok(None);
        };
        let open = tail(self.alloc, step, &self.walk)?;
        Ok(Some(open))
    }

    /// Its log: the searches that are done, and the one that goes on. Where a result was taken for want of tries, the
    /// log is ended, and has the searches that are done alone. The error is out of memory.
    #[tactic(auto, using(crate::proofs::ResultLaws::log_goes, crate::proofs::ResultLaws::log_ends))]
    pub fn log(&self, partial: bool) -> Result<LogText, Memory>
        ensures { IfOk result (λ log. log ≡ log_of partial self.now.stand) }
    {
        let closed = copy_sections(self.alloc, self.past.closed.as_slice())?;
        if partial {
            return Ok(LogText {
                closed,
                tail: None,
                ended: true,
            });
        }
        match self.open_tail()? {
            None => Ok(LogText {
                closed,
                tail: None,
                ended: true,
            }),
            Some(open) => Ok(LogText {
                closed,
                tail: Some(open),
                ended: false,
            }),
        }
    }

    /// What is saved of it beside its log, for this job, so many parts of the log and its digest, if it is kept; `None`
    /// exactly where no step is left. The error is out of memory.
    pub fn saved(
        &self,
        job: [u8; 32],
        parts: u32,
        log: Option<[u8; 32]>,
    ) -> Result<Option<Saved>, Memory>
        ensures { IfOk result (λ saved. saved ≡ saved_with job parts log (saved_of self.now.stand)) }
    {
        let Some(step) = self.steps.as_slice().get(self.at) else {
            return Ok(None);
        };
        let place = place(self.alloc, self.seed, step, &self.walk)?;
        Ok(Some(Saved {
            job,
            tries: self.past.tries,
            row: step.row(),
            stage: step.stage(),
            chosen: place.chosen,
            next: place.next,
            best: place.best,
            parts,
            log,
        }))
    }

    /// Goes on from a saved position and a log, which may be any, wherever it stood before. A refusal is the first that
    /// [`RestoreRefused`] tells of, and leaves the run as it was; `Memory` comes for out of memory alone.
    pub fn restore(&mut self, saved: &Saved, log: &LogText) -> Result<(), RestoreRefused>
        ensures accepts { OnOk result (CanGoOn self.old.seed self.old.steps (saved_in saved.now) log.now) }
        ensures goes_on { OnOk result (self.new ≡ record self.old { stand = stand_of self.old.seed self.old.steps (saved_in saved.now) log.now }) }
        ensures refuses { IfErr result (λ e. IsRefusedFor self.old.seed self.old.steps (saved_in saved.now) log.now e) }
        ensures same { OnErr result (self.new ≡ self.old) }
    {
        let kept = resume(self.alloc, self.seed, self.steps.as_slice(), saved, log)?;
        self.at = kept.at;
        self.walk = Some(kept.walk);
        self.past = kept.past;
        Ok(())
    }

    /// Whether the letters of each finished search are accepted with its answer, by a checker that knows no search.
    /// The fault is that of the first search whose letters aren't. The log of a run from its beginning has none.
    pub fn verify(&self) -> Result<(), VerifyFault>
        ensures accepted { OnOk result (Along IsAcceptedAt self.now.seed (first_search self.now.seed self.now.steps) self.now.stand.past.closed) }
        ensures refused { IfErr result (λ e. IsRefusedLog self.now.seed self.now.steps self.now.stand.past.closed e) }
        // Where each section is accepted, the only error is out of memory.
        ensures made { Along IsAcceptedAt self.now.seed (first_search self.now.seed self.now.steps) self.now.stand.past.closed → IfErr result (λ e. e ≡ verified.Memory) }
    {
        verify(
            self.alloc,
            self.seed,
            self.steps.as_slice(),
            self.past.closed.as_slice(),
        )
    }
}
