//! Plans, and how they go on.

ghost use Rattle.std.specs.Prelude.{◌≡◌, ◌-◌, ◌↔◌, ◌≤◌, min, All, Err, IfErr, IfOk, OnErr, OnOk, None};
ghost use Rattle.coin_candidates.specs.Candidates.{AreCandidates};
ghost use Rattle.wallet_text.specs.WalletRules.{IsWatch};
ghost use Rattle.fund_steps.specs.Plan.{HasEligible, IsBumpFor, IsPlanFault, IsPlan, IsRoomy, IsWithin, ladder_in};
ghost use Rattle.fund_plan.specs.Answer.{ArePayments, HasSelection};
ghost use Rattle.search_keep.specs.declared.fault.SavedFault.TheVariants as saved_fault;
ghost use Rattle.search_run.specs.Kept.{log_of};
ghost use Rattle.search_run.specs.Run.{end_of, go_on};
ghost use Rattle.search_run.specs.Stands.{IsEndOf};
ghost use Rattle.search_run.specs.Step.{AreSteps};
ghost use Rattle.fund_plan.specs.Outcome.{beginning_of, is_partial, most_tries};
ghost use Rattle.fund_plan.specs.Resumed.{AreAccepted, CanRestore, IsCheckFault, IsNotRestored, IsStandOf, restored_at, saved_at};
ghost use Rattle.fund_plan.specs.State.{IsCutShort, IsRunCut, end_in, moved, partial_of, place_of, told};
ghost use Rattle.fund_plan.specs.Steps.{steps_of};
ghost use Rattle.fund_plan.specs.declared.fault.CheckAt.TheVariants as check;
ghost use Rattle.fund_plan.specs.declared.fault.PlanSavedFault.TheVariants as planned;

use crate::fault::{CheckAt, PlanSavedFault};
use crate::funding::PaymentMaker;
use crate::outcome::{Outcome, Place};
use closing_log::{LogText, Mark, text_digest};
use coin_candidates::Candidate;
use fund_base::{MOST_TRIES, Memory};
use fund_steps::{BumpInput, PlanBasis, PlanFault, Prepared};
use request_text::Request;
use search_keep::{Saved, SavedFault};
use search_run::{End, Found, SearchRun};
use std::alloc::Global;
use std::marker::Model;
use wallet_text::Watch;

/// How a request is funded: what it was made from is a request, the script that its change is paid to, the candidates,
/// which are the coins that may be spent, and what it is given where it replaces a payment. It keeps the rules that
/// [`Plan::keeps_rules`] states. It searches row by row, and stands where its tries led.
pub struct Plan {
    funding: PaymentMaker,
    run: SearchRun,
    partial: Option<Found>,
}

/// One call, wherever it is dropped.
impl Drop for Plan {
    fn drop(self) {
        let Plan {
            funding: _,
            run: _,
            partial: _,
        } = self;
    }
}

impl Model for Plan {
    ghost use Rattle.fund_plan.specs.State.{PlanState};
    ghost use Rattle.fund_plan.specs.Kept.{IsRunOf};

    ghost Value = { PlanState };

    ghost view = { λ p. record { plan = p.funding; stand = p.run.stand; partial = p.partial } };

    ghost invariant = { λ p. IsRunOf p.funding p.run p.partial };
}

/// Goes on with at most so many tries, of which all together are at most 10,000,000, and tells how the run ends where it
/// stands then. The error is out of memory.
fn ended(run: &mut SearchRun, take: bool, budget: u64) -> Result<End, Memory>
    ensures run { OnOk result (run.new ≡ record run.old { stand = go_on run.old.seed run.old.stand (min budget (most_tries - run.old.stand.past.tries)) }) }
    ensures end { IfOk result (λ e. e ≡ end_of take run.new.seed run.new.stand) }
    ensures admissible { IfOk result (λ e. IsEndOf run.new.steps e) }
    ensures memory { OnErr result (IsRunCut run.old (min budget (most_tries - run.old.stand.past.tries)) run.new) }
{
    let left = MOST_TRIES.saturating_sub(run.tries());
    run.go(budget.min(left))?;
    let end = run.end(take)?;
    Ok(end)
}

/// The result that was taken for want of tries, if one was.
fn taken(end: End) -> Option<Found>
    ensures { result ≡ partial_of end }
{
    match end {
        End::Partial(found) => Some(found),
        End::Ended(_) | End::Unfinished => None,
    }
}

/// Whether a result was taken for want of tries.
fn is_partial(end: &End) -> bool
    ensures { result ≡ is_partial end.now }
{
    match end {
        End::Partial(_) => true,
        End::Ended(_) | End::Unfinished => false,
    }
}

impl Plan {
    /// The plan of a request, whatever its method. The change script keeps the rules of a wallet's, and the candidates are
    /// at most 100,000, each outpoint once. A bump is given exactly where the request replaces a payment. Its coins and
    /// the candidates are together at most 100,000, each outpoint once, and its burden is at most 1,000,000,000,000,000,000
    /// satoshi. No try is made yet.
    ///
    /// [`PlanFault::Total`] comes exactly where the candidates and the coins of the bump are worth more than 21,000,000
    /// bitcoin together. Otherwise [`PlanFault::NotEligible`] comes exactly where the request lists an outpoint at which
    /// there is no candidate that is safe, or that may be unsafe because the request says `include_unsafe`; it shows the
    /// first such outpoint. Otherwise [`PlanFault::TooMany`] comes exactly where a row of the request's ladder keeps more
    /// than 10,000 groups of the candidates that it doesn't list; it shows the first such row.
    pub fn new(
        alloc: Global,
        request: &Request,
        change: &Watch,
        candidates: Vec<Candidate>,
        bump: Option<BumpInput>,
    ) -> Result<Plan, PlanFault>
        requires bump { IsBumpFor request.now candidates.items bump }
        requires change { IsWatch change.now }
        requires candidates { AreCandidates candidates.items }
        ensures plan { IfOk result (λ s. s.plan ≡ record { request = request.now; change = change.now; candidates = candidates.items; bump = bump }) }
        ensures stand { IfOk result (λ s. s.stand ≡ beginning_of s.plan) }
        ensures partial { IfOk result (λ s. s.partial ≡ None) }
        ensures within { IfOk result (λ s. IsWithin s.plan) }
        ensures eligible { IfOk result (λ s. All (HasEligible s.plan) s.plan.request.coins) }
        ensures roomy { IfOk result (λ s. All (IsRoomy s.plan) (ladder_in s.plan)) }
        ensures fault { IfErr result (IsPlanFault (record { request = request.now; change = change.now; candidates = candidates.items; bump = bump })) }
    {
        let Prepared { funds, steps } = PlanBasis::new(alloc, request, change, candidates, bump)?;
        let run = SearchRun::new(alloc, request.seed, steps);
        let funding = PaymentMaker::new(alloc, request, funds);
        Ok(Plan {
            funding,
            run,
            partial: None,
        })
    }

    /// That the plan keeps its rules: those of the request, of the change script, of the candidates and of a bump; that the
    /// candidates and the coins of a bump are worth at most 21,000,000 bitcoin together; that at each listed outpoint there
    /// is a candidate that the request may list; and that each row of the ladder keeps at most 10,000 groups of the others.
    /// A call does nothing.
    pub fn keeps_rules(&self)
        ensures { IsPlan self.now.plan }
    {
        self.funding.keeps_rules();
    }

    /// That the steps of its run are searches and draws, each with a problem that keeps its rules. A call does nothing.
    pub fn keeps_steps(&self)
        ensures { AreSteps (steps_of self.now.plan) }
    {
        let _ = self.run.tries();
    }

    /// That its run stands where one over its steps may stand: where it begins, or goes on from what is kept, whatever that
    /// is, or where tries lead from there. A call does nothing.
    pub fn keeps_stand(&self)
        ensures { IsStandOf self.now }
    {
        let _ = self.run.tries();
    }

    /// The tries of all its runs, with those from before it was restored.
    pub fn tries(&self) -> u64
        ensures { result ≡ self.now.stand.past.tries }
    {
        self.run.tries()
    }

    /// Goes on with at most so many tries, of which all runs of the plan together make at most 10,000,000, and says what
    /// the plan comes to. One that has come to its end, or of which a result was taken for want of tries, stays there and
    /// answers the same again. The error is out of memory: the plan then stands where some of the tries lead, and a
    /// further call goes on from there.
    pub fn go(&mut self, budget: u64) -> Result<Outcome, Memory>
        ensures moved { OnOk result (self.new ≡ moved self.old budget) }
        ensures told { IfOk result (λ o. o ≡ told self.new) }
        ensures pays { IfOk result (ArePayments self.old.plan) }
        ensures fits { IfOk result (HasSelection self.old.plan.request) }
        ensures memory { OnErr result (IsCutShort self.old budget self.new) }
    {
        if let Some(found) = &self.partial {
            let funded = self.funding.funded(Mark::Partial, found)?;
            return Ok(Outcome::Funded(funded));
        }
        let take = self.funding.take();
        let end = ended(&mut self.run, take, budget)?;
        let outcome = self.funding.outcome(&end)?;
        self.partial = taken(end);
        Ok(outcome)
    }

    /// The row and the stage at which it stands; `None` exactly where its run has come to its end.
    pub fn place(&self) -> Option<Place>
        ensures { result ≡ place_of self.now.stand.left }
    {
        match self.run.step() {
            Some(step) => Some(Place {
                row: step.row(),
                stage: step.stage(),
            }),
            None => None,
        }
    }

    /// Whether a result is taken for want of tries where it stands. The error is out of memory.
    fn is_partial(&self) -> Result<bool, Memory>
        ensures { IfOk result (λ b. b ≡ is_partial (end_in self.now)) }
    {
        if self.partial.is_some() {
            return Ok(true);
        }
        let end = self.run.end(self.funding.take())?;
        Ok(is_partial(&end))
    }

    /// Its log: the searches that are done, and the one that goes on. Where a result was taken for want of tries the log is
    /// ended, and has the searches that are done alone. The error is out of memory.
    pub fn log(&self) -> Result<LogText, Memory>
        ensures { IfOk result (λ log. log ≡ log_of (is_partial (end_in self.now)) self.now.stand) }
    {
        let partial = self.is_partial()?;
        let log = self.run.log(partial)?;
        Ok(log)
    }

    /// What is saved of it beside its log, for this job and so many parts of the log, with the SHA-256 of the log's text;
    /// `None` exactly where it isn't unfinished: a result was taken for want of tries, or its run has come to its end. After
    /// an Ok of `go` a plan can go on from it. The error is out of memory.
    pub fn saved(&self, job: [u8; 32], parts: u32) -> Result<Option<Saved>, Memory>
        ensures { IfOk result (λ saved. saved ≡ saved_at job parts self.now) }
    {
        if self.is_partial()? {
            return Ok(None);
        }
        let log = self.log()?;
        let saved = self.run.saved(job, parts, Some(text_digest(&log)))?;
        Ok(saved)
    }

    /// Goes on from a saved position and a log, which may be any, wherever it stood before; `now` is the digest of the job
    /// now. The fault is the first of these: `JobElse` exactly where another digest is saved; `Spent` exactly where the job
    /// has made 10,000,000 tries or more; `Section` exactly where a section isn't that of the search to which the run comes
    /// at its index, or none is open; `IllFormed` exactly where no search of the open section's problem stands at the saved
    /// position; `Log` with `AnswerNotAdmissible` for the first closed answer that isn't admissible. `Memory` comes for
    /// out of memory alone. A refusal leaves the plan as it was.
    pub fn restore(
        &mut self,
        now: [u8; 32],
        saved: &Saved,
        log: &LogText,
    ) -> Result<(), PlanSavedFault>
        ensures accepts { OnOk result (CanRestore self.old.plan now saved.now log.now) }
        ensures stands { OnOk result (self.new ≡ restored_at self.old.plan saved.now log.now) }
        ensures refuses { IfErr result (IsNotRestored self.old.plan now saved.now log.now) }
        ensures job { (result ≡ Err (planned.Saved (saved_fault.JobElse saved.now.job now))) ↔ (saved.now.job ≡ now → ⊥) }
        ensures spent { (result ≡ Err (planned.Saved saved_fault.Spent)) ↔ ((saved.now.job ≡ now) × (10_000_000 ≤ saved.now.tries)) }
        ensures same { OnErr result (self.new ≡ self.old) }
    {
        let kept = saved.job;
        if kept != now {
            return Err(PlanSavedFault::Saved(SavedFault::JobElse(kept, now)));
        }
        if saved.tries >= MOST_TRIES {
            return Err(PlanSavedFault::Saved(SavedFault::Spent));
        }
        self.run.restore(saved, log)?;
        self.partial = None;
        Ok(())
    }

    /// Whether the letters of each finished search are accepted with its answer, by a checker that knows no search; those
    /// from before it was restored too. The fault is that of the first search whose letters aren't, or out of memory.
    /// It is never `Section`.
    pub fn verify(&self) -> Result<(), CheckAt>
        ensures accepted { OnOk result (AreAccepted self.now.plan self.now.stand.past.closed) }
        ensures refused { IfErr result (IsCheckFault self.now.plan self.now.stand.past.closed) }
        // Where each section is accepted, the only error is out of memory.
        ensures made { AreAccepted self.now.plan self.now.stand.past.closed → IfErr result (λ e. e ≡ check.Memory) }
    {
        self.run.verify()?;
        Ok(())
    }
}
