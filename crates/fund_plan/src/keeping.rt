//! Laws of what is kept of a plan, and of plans that go on from it. A call of any of them does nothing.

ghost use Rattle.std.specs.Prelude.{◌≡◌, ◌≢◌, ◌↔◌, ◌<◌, ◌≤◌, ◌+◌, ℕ, List, [], None, Some};
ghost use Rattle.closing_log.specs.Log.{PlainLog, PlainSection};
ghost use Rattle.search_keep.specs.SavedText.{CanBeSaved, PlainSaved};
ghost use Rattle.search_run.specs.Step.{AreSteps};
ghost use Rattle.fund_steps.specs.Plan.{PlainPlan};
ghost use Rattle.fund_plan.specs.Outcome.{IsAnswerOf, most_tries, stand_after};
ghost use Rattle.fund_plan.specs.Resumed.{AreAccepted, CanRestore, IsCheckFault, IsNotRestored, IsStandOf, log_digest, log_in, restored_at, saved_at};
ghost use Rattle.fund_plan.specs.State.{PlanState, moved, told};
ghost use Rattle.fund_plan.specs.Steps.{steps_of};
ghost use Rattle.fund_plan.specs.declared.fault.CheckAt.{CheckAt};
ghost use Rattle.fund_plan.specs.declared.fault.CheckAt.TheVariants as check;
ghost use Rattle.fund_plan.specs.declared.fault.PlanSavedFault.{PlanSavedFault};
ghost use Rattle.fund_plan.specs.declared.fault.PlanSavedFault.TheVariants as planned;
ghost use Rattle.fund_plan.specs.declared.outcome.Outcome.{Outcome};

/// The law of what is saved: there is something exactly where the plan is unfinished. A call does nothing.
pub fn unfinished_plans_are_saved()
    ensures { (s : PlanState) (job : List ℕ) (parts : ℕ) →
        (told s ≡ Outcome.Unfinished ↔ ((saved : PlainSaved) × (saved_at job parts s ≡ Some saved))) }
{}

/// The law of the digest that is saved: it is that of the log's text, and there always is one, so that what is saved is
/// written as a text of the second version. A call does nothing.
pub fn saved_plans_have_their_digest()
    ensures { (s : PlanState) (job : List ℕ) (parts : ℕ) (saved : PlainSaved) → saved_at job parts s ≡ Some saved → saved.log ≡ Some (log_digest s) }
{}

/// The law of kept plans: what is saved of an unfinished one, with its log, is accepted for the same job while tries are
/// left to it, wherever it had gone on from. It can be written as a text, with one part at least and no more than the
/// tries and one. A call does nothing.
pub fn kept_plans_are_accepted()
    ensures written { (s : PlanState) (n : ℕ) (job : List ℕ) (parts : ℕ) (saved : PlainSaved) → AreSteps (steps_of s.plan) → IsStandOf s →
        saved_at job parts (moved s n) ≡ Some saved → 1 ≤ parts → parts ≤ (moved s n).stand.past.tries + 1 → CanBeSaved saved }
    ensures accepted { (s : PlanState) (n : ℕ) (job : List ℕ) (parts : ℕ) (saved : PlainSaved) → AreSteps (steps_of s.plan) → IsStandOf s →
        saved_at job parts (moved s n) ≡ Some saved → (moved s n).stand.past.tries < most_tries →
        CanRestore s.plan job saved (log_in (moved s n)) }
{}

/// The law of restored plans: one that was left unfinished, saved and restored comes with m tries more to what it would
/// have come to without stopping: to the same outcome, the same tries, the same log, and the same that is saved of it. A
/// call does nothing.
pub fn restored_plans_go_on()
    ensures outcome { (s : PlanState) (n m : ℕ) (job : List ℕ) (parts : ℕ) (saved : PlainSaved) → AreSteps (steps_of s.plan) → IsStandOf s →
        saved_at job parts (moved s n) ≡ Some saved →
        told (moved (restored_at s.plan saved (log_in (moved s n))) m) ≡ told (moved s (n + m)) }
    ensures tries { (s : PlanState) (n m : ℕ) (job : List ℕ) (parts : ℕ) (saved : PlainSaved) → AreSteps (steps_of s.plan) → IsStandOf s →
        saved_at job parts (moved s n) ≡ Some saved →
        (moved (restored_at s.plan saved (log_in (moved s n))) m).stand.past.tries ≡ (moved s (n + m)).stand.past.tries }
    ensures log { (s : PlanState) (n m : ℕ) (job : List ℕ) (parts : ℕ) (saved : PlainSaved) → AreSteps (steps_of s.plan) → IsStandOf s →
        saved_at job parts (moved s n) ≡ Some saved →
        log_in (moved (restored_at s.plan saved (log_in (moved s n))) m) ≡ log_in (moved s (n + m)) }
    ensures saved { (s : PlanState) (n m : ℕ) (job : List ℕ) (parts : ℕ) (saved : PlainSaved) → AreSteps (steps_of s.plan) → IsStandOf s →
        saved_at job parts (moved s n) ≡ Some saved →
        (now : List ℕ) (count : ℕ) →
        saved_at now count (moved (restored_at s.plan saved (log_in (moved s n))) m) ≡ saved_at now count (moved s (n + m)) }
{}

/// The law of verified plans: whatever was kept, a plan whose run comes to its end, and whose whole log is accepted, has
/// the answer, of all that there is to find. A call does nothing.
pub fn verified_plans_have_the_answer()
    ensures stands { (s : PlanState) → AreSteps (steps_of s.plan) → IsStandOf s → s.partial ≡ None → s.stand.left ≡ [] →
        AreAccepted s.plan s.stand.past.closed → IsAnswerOf s.plan (told s) }
    ensures restored { (p : PlainPlan) (now : List ℕ) (saved : PlainSaved) (log : PlainLog) (m : ℕ) → AreSteps (steps_of p) →
        CanRestore p now saved log → (moved (restored_at p saved log) m).stand.left ≡ [] →
        AreAccepted p (moved (restored_at p saved log) m).stand.past.closed →
        IsAnswerOf p (told (moved (restored_at p saved log) m)) }
    // The log of a new plan is accepted wherever it stands.
    ensures made { (p : PlainPlan) (n : ℕ) → AreSteps (steps_of p) → AreAccepted p (stand_after p n).past.closed }
{}

/// The law of refusals: what a plan can go on from is refused for out of memory alone, and two causes of a refusal are the
/// same, unless one is out of memory. The same holds of a log that is verified. A call does nothing.
pub fn kept_faults_have_one_cause()
    ensures none { (p : PlainPlan) (now : List ℕ) (saved : PlainSaved) (log : PlainLog) (e : PlanSavedFault) →
        CanRestore p now saved log → IsNotRestored p now saved log e → e ≡ planned.Memory }
    ensures one { (p : PlainPlan) (now : List ℕ) (saved : PlainSaved) (log : PlainLog) (e f : PlanSavedFault) →
        e ≢ planned.Memory → f ≢ planned.Memory →
        IsNotRestored p now saved log e → IsNotRestored p now saved log f → e ≡ f }
    ensures verified { (p : PlainPlan) (sections : List PlainSection) (e f : CheckAt) → e ≢ check.Memory → f ≢ check.Memory →
        IsCheckFault p sections e → IsCheckFault p sections f → e ≡ f }
{}
