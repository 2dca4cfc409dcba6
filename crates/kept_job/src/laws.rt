//! Laws of kept jobs. A call of any of them does nothing.

ghost use Rattle.std.specs.Prelude.{◌≡◌, ◌≢◌, ◌<◌, ◌≤◌, ◌+◌, ℕ, List, [], take, Option, Some};
ghost use Rattle.sha2.specs.Sha256.{sha256};
ghost use Rattle.closing_log.specs.LogText.{IsLogText, text_of};
ghost use Rattle.fund_outside.specs.Kept.{KeptJob, parts_in};
ghost use Rattle.fund_plan.specs.Outcome.{IsAnswerOf, most_tries, tries_at};
ghost use Rattle.fund_plan.specs.Resumed.{IsStandOf, log_in};
ghost use Rattle.fund_plan.specs.Selection.{PlainFunded};
ghost use Rattle.fund_plan.specs.State.{PlanState, moved, told};
ghost use Rattle.fund_plan.specs.Steps.{steps_of};
ghost use Rattle.fund_plan.specs.declared.outcome.Outcome.{Outcome};
ghost use Rattle.fund_steps.specs.Plan.{IsPlan, PlainPlan};
ghost use Rattle.search_keep.specs.SavedText.{CanBeSaved, PlainSaved};
ghost use Rattle.search_run.specs.Step.{AreSteps};
ghost use Rattle.kept_job.specs.Continued.{ClaimsNoneOn, ClaimsOn, HasContinued, IsSettled, IsUsedUpOn};
ghost use Rattle.kept_job.specs.Jobs.{HasParts, HasSaved, joined};
ghost use Rattle.kept_job.specs.Kept.{IsAsAfter, IsKeptAt, IsLonger, new_of};
ghost use Rattle.kept_job.specs.Refused.{AreElse, IsNotResumed, IsOfJob};
ghost use Rattle.kept_job.specs.Saving.{IsSavedBehind};
ghost use Rattle.kept_job.specs.SavingRules.{CanBeKept};
ghost use Rattle.kept_job.specs.declared.fault.KeptFault.{KeptFault};

/// The law of saved jobs. A plan that is unfinished can be kept, wherever it had gone on from: in no more parts than its tries
/// and one; and one that went on from a job with a try at least, in one part more than the job. One that is saved behind
/// nothing is kept as its run from the start was left. One that went on from a job that was kept so, and is saved behind that
/// job's parts, is kept as its run from the start would have been left, had it not stopped. The parts that were counted stay,
/// and one is added. A call does nothing.
pub fn saved_jobs_are_kept()
    ensures can { (s : PlanState) (n parts : ℕ) → AreSteps (steps_of s.plan) → IsStandOf s → told (moved s n) ≡ Outcome.Unfinished →
        1 ≤ parts → parts ≤ (moved s n).stand.past.tries + 1 → CanBeKept (moved s n) parts }
    ensures on { (p : PlainPlan) (now : List ℕ) (job : Option KeptJob) (m : ℕ) (s : PlanState) (g : HasContinued ⊥ p now job m s Outcome.Unfinished) → AreSteps (steps_of p) → 1 ≤ m → CanBeSaved g.saved → CanBeKept s (g.saved.parts + 1) }
    ensures first { (p : PlainPlan) (n : ℕ) (digest : List ℕ) (old new : Option KeptJob) → AreSteps (steps_of p) →
        IsSavedBehind digest (moved (new_of p) n) 0 [] old new → IsKeptAt p digest n new }
    ensures more { (p : PlainPlan) (n m : ℕ) (digest : List ℕ) (old new : Option KeptJob) (s : PlanState) (o : Outcome) (g : HasContinued (Unit {0}) p digest old m s o) →
        AreSteps (steps_of p) → IsKeptAt p digest n old → IsSavedBehind digest s g.saved.parts g.bytes old new → IsKeptAt p digest (n + m) new }
    ensures longer { (digest : List ℕ) (s : PlanState) (parts : ℕ) (bytes : List ℕ) (old new : Option KeptJob) → IsSavedBehind digest s parts bytes old new → IsLonger parts old new }
{}

/// The law of digests: what is saved of a plan behind parts that were loaded has the SHA-256 of its joined parts, as they are
/// kept, however they spell the log. A call does nothing.
pub fn saved_jobs_have_their_digest()
    ensures { (digest : List ℕ) (s : PlanState) (parts : ℕ) (bytes : List ℕ) (old new : Option KeptJob) (saved : PlainSaved) →
        IsSavedBehind digest s parts bytes old new → HasParts old parts bytes → HasSaved new saved →
        saved.log ≡ Some (sha256 (joined (take saved.parts (parts_in new)))) }
{}

/// The law of going on: from a job that was left after n tries, m tries more come to what n + m tries come to without a stop:
/// to the same outcome, the same tries and the same log. A call does nothing.
pub fn jobs_go_on()
    ensures { (p : PlainPlan) (n m : ℕ) (digest : List ℕ) (job : Option KeptJob) (s : PlanState) (o : Outcome) → AreSteps (steps_of p) →
        IsKeptAt p digest n job → HasContinued (Unit {0}) p digest job m s o → IsAsAfter p (n + m) s o }
{}

/// The law of kept jobs: one that was left by a run is refused for no fault of its own but that it has made all its tries, and
/// while it has tries left a plan goes on from it. A call does nothing.
pub fn kept_jobs_are_gone_on_with()
    ensures refused { (p : PlainPlan) (n m : ℕ) (digest : List ℕ) (job : Option KeptJob) (fault : KeptFault) → AreSteps (steps_of p) → IsKeptAt p digest n job →
        IsNotResumed p digest job m fault → IsOfJob fault → (fault ≡ KeptFault.Spent) × (most_tries ≤ tries_at p n) }
    ensures goes { (p : PlainPlan) (n m : ℕ) (digest : List ℕ) (job : Option KeptJob) → AreSteps (steps_of p) → IsKeptAt p digest n job → tries_at p n < most_tries →
        (s : PlanState) × (o : Outcome) × HasContinued (Unit {0}) p digest job m s o }
{}

/// The law of resumed plans, whatever was kept: one that comes to an answer has the plan's answer, of all that there is to
/// find. A payment keeps what its mark claims: exhausted and drawn, it is the one of the named row and stage, and the whole
/// log is accepted; partial, it is the one that is taken of what is at hand where the tries are used up. Where there is no
/// selection, the log proves it. Where the plan is unfinished, each try was made that it was given, of those that the job had
/// left, and the next step is a try. Where it comes to an end, its log reads as it is written, if the kept one was read from a
/// text. A call does nothing.
pub fn resumed_plans_claim()
    ensures answer { (p : PlainPlan) (now : List ℕ) (job : Option KeptJob) (m : ℕ) (s : PlanState) (o : Outcome) → AreSteps (steps_of p) →
        HasContinued ⊥ p now job m s o → IsSettled o → IsAnswerOf p o }
    ensures payment { (p : PlainPlan) (now : List ℕ) (job : Option KeptJob) (m : ℕ) (s : PlanState) (f : PlainFunded) (g : HasContinued ⊥ p now job m s (Outcome.Funded f)) →
        IsPlan p → AreSteps (steps_of p) → ClaimsOn p g.saved.tries m s f }
    ensures none { (p : PlainPlan) (now : List ℕ) (job : Option KeptJob) (m : ℕ) (s : PlanState) → HasContinued ⊥ p now job m s Outcome.NoSelection →
        IsPlan p → AreSteps (steps_of p) → ClaimsNoneOn p s }
    ensures unfinished { (p : PlainPlan) (now : List ℕ) (job : Option KeptJob) (m : ℕ) (s : PlanState) (g : HasContinued ⊥ p now job m s Outcome.Unfinished) → IsUsedUpOn p g.saved.tries m s }
    ensures reads { (p : PlainPlan) (now : List ℕ) (job : Option KeptJob) (m : ℕ) (s : PlanState) (o : Outcome) (bytes : List ℕ) (g : HasContinued ⊥ p now job m s o) → AreSteps (steps_of p) →
        IsLogText bytes g.log → o ≢ Outcome.Unfinished → IsLogText (text_of (log_in s)) (log_in s) }
{}

/// The law of refusals: a job is refused for one fault of its own at most, and for none where a plan went on from it. A plan
/// that goes on from a job comes to one place and one outcome. A call does nothing.
pub fn refused_jobs_have_one_fault()
    ensures one { (p : PlainPlan) (now : List ℕ) (job : Option KeptJob) (m : ℕ) (e f : KeptFault) → IsOfJob e → IsOfJob f →
        IsNotResumed p now job m e → IsNotResumed p now job m f → e ≡ f }
    ensures none { (p : PlainPlan) (now : List ℕ) (job : Option KeptJob) (m : ℕ) (s : PlanState) (o : Outcome) (e : KeptFault) → IsOfJob e →
        HasContinued (Unit {0}) p now job m s o → IsNotResumed p now job m e → ⊥ }
    ensures alike { (p : PlainPlan) (now : List ℕ) (job : Option KeptJob) (m : ℕ) (s t : PlanState) (a b : Outcome) →
        HasContinued (Unit {0}) p now job m s a → HasContinued (Unit {0}) p now job m t b → (s ≡ t) × (a ≡ b) }
{}

/// The law of changed parts: a job whose joined parts have another digest than the saved one is refused, before any try, with
/// both digests. It is refused for nothing else of its own, and no plan goes on from it. A call does nothing.
pub fn changed_parts_are_refused()
    ensures refused { (p : PlainPlan) (now : List ℕ) (job : Option KeptJob) (m : ℕ) (kept given : List ℕ) → AreElse now job kept given →
        IsNotResumed p now job m (KeptFault.Parts kept given) }
    ensures alone { (p : PlainPlan) (now : List ℕ) (job : Option KeptJob) (m : ℕ) (kept given : List ℕ) (e : KeptFault) → AreElse now job kept given →
        IsOfJob e → IsNotResumed p now job m e → e ≡ KeptFault.Parts kept given }
    ensures untried { (p : PlainPlan) (now : List ℕ) (job : Option KeptJob) (m : ℕ) (kept given : List ℕ) (s : PlanState) (o : Outcome) → AreElse now job kept given →
        HasContinued (Unit {0}) p now job m s o → ⊥ }
{}
