//! Laws of what is kept of a run, and of runs that go on from it. A call of any of them does nothing.

ghost use Rattle.std.specs.Prelude.{◌≡◌, ◌≢◌, ◌↔◌, ◌+◌, [], ℕ, List, Some, Bool, false};
ghost use Rattle.closing_log.specs.Log.{PlainLog, PlainSection};
ghost use Rattle.pick_problem.specs.Problem.{PlainProblem};
ghost use Rattle.pick_problem.specs.Walk.{IsPosition};
ghost use Rattle.search_run.specs.Answer.{AreWhole, IsAnswer};
ghost use Rattle.search_run.specs.Found.{taken};
ghost use Rattle.search_run.specs.Judged.{IsRefusedFor, IsRefusedLog};
ghost use Rattle.search_run.specs.Kept.{Along, CanGoOn, IsAcceptedAt, IsBestAt, PlainSaved, first_search, kept_walk, log_of, saved_of, stand_of};
ghost use Rattle.search_run.specs.Run.{Stand, beginning, end_of, go_on};
ghost use Rattle.search_run.specs.Stands.{IsStand};
ghost use Rattle.search_run.specs.Step.{AreSteps, PlainStep};
ghost use Rattle.search_run.specs.Walks.{kept_position};
ghost use Rattle.search_run.specs.declared.fault.RestoreRefused.{RestoreRefused};
ghost use Rattle.search_run.specs.declared.fault.RestoreRefused.TheVariants as refused;
ghost use Rattle.search_run.specs.declared.fault.VerifyFault.{VerifyFault};
ghost use Rattle.search_run.specs.declared.fault.VerifyFault.TheVariants as verified;
ghost use Rattle.walk_engine.specs.Search.{IsWellFormed, restored};

/// Where runs may stand: where they begin; where they go on from what is kept, whatever that is, if it is accepted;
/// and where tries lead from there.
pub fn runs_stand()
    ensures beginning { (seed : List ℕ) (steps : List PlainStep) → AreSteps steps →
        IsStand seed steps (beginning seed steps) }
    ensures kept { (seed : List ℕ) (steps : List PlainStep) (saved : PlainSaved) (log : PlainLog) → AreSteps steps →
        CanGoOn seed steps saved log → IsStand seed steps (stand_of seed steps saved log) }
    ensures tries { (seed : List ℕ) (steps : List PlainStep) (s : Stand) (m : ℕ) → AreSteps steps →
        IsStand seed steps s → IsStand seed steps (go_on seed s m) }
{}

/// What is kept of a run with a step left is accepted, wherever the run had gone on from.
pub fn kept_runs_are_accepted()
    ensures { (seed : List ℕ) (steps : List PlainStep) (s : Stand) (n : ℕ) (saved : PlainSaved) → AreSteps steps →
        IsStand seed steps s → saved_of (go_on seed s n) ≡ Some saved →
        CanGoOn seed steps saved (log_of false (go_on seed s n)) }
{}

/// A run that goes on from what was kept of it comes to where it would have come without stopping: to the same end,
/// the same log, and the same that is kept of it.
pub fn kept_runs_go_on()
    ensures end { (seed : List ℕ) (steps : List PlainStep) (s : Stand) (n m : ℕ) (saved : PlainSaved) (take : Bool) → AreSteps steps →
        IsStand seed steps s → saved_of (go_on seed s n) ≡ Some saved →
        end_of take seed (go_on seed (stand_of seed steps saved (log_of false (go_on seed s n))) m)
        ≡ end_of take seed (go_on seed s (n + m)) }
    ensures log { (seed : List ℕ) (steps : List PlainStep) (s : Stand) (n m : ℕ) (saved : PlainSaved) (partial : Bool) → AreSteps steps →
        IsStand seed steps s → saved_of (go_on seed s n) ≡ Some saved →
        log_of partial (go_on seed (stand_of seed steps saved (log_of false (go_on seed s n))) m)
        ≡ log_of partial (go_on seed s (n + m)) }
    ensures saved { (seed : List ℕ) (steps : List PlainStep) (s : Stand) (n m : ℕ) (saved : PlainSaved) →
        AreSteps steps →
        IsStand seed steps s → saved_of (go_on seed s n) ≡ Some saved →
        saved_of (go_on seed (stand_of seed steps saved (log_of false (go_on seed s n))) m)
        ≡ saved_of (go_on seed s (n + m)) }
{}

/// Whatever was kept and accepted: a run that goes on from it and comes to its end has the answer, if each section of
/// its whole log is accepted with its answer; for that it is enough that each of these answers is the best.
pub fn verified_runs_have_the_answer()
    ensures accepted { (seed : List ℕ) (steps : List PlainStep) (saved : PlainSaved) (log : PlainLog) (m : ℕ) →
        AreSteps steps → AreWhole steps →
        CanGoOn seed steps saved log → (go_on seed (stand_of seed steps saved log) m).left ≡ [] →
        Along IsAcceptedAt seed (first_search seed steps) (go_on seed (stand_of seed steps saved log) m).past.closed →
        IsAnswer seed steps (taken (go_on seed (stand_of seed steps saved log) m).past.found) }
    ensures best { (seed : List ℕ) (steps : List PlainStep) (saved : PlainSaved) (log : PlainLog) (m : ℕ) →
        AreSteps steps → AreWhole steps →
        CanGoOn seed steps saved log → (go_on seed (stand_of seed steps saved log) m).left ≡ [] →
        Along IsBestAt seed (first_search seed steps) (go_on seed (stand_of seed steps saved log) m).past.closed →
        IsAnswer seed steps (taken (go_on seed (stand_of seed steps saved log) m).past.found) }
{}

/// What is saved, taken as an open position after any letters with as many tries as they tell of, is well formed for
/// a problem exactly where a walk of the problem may stand there; and the search that is restored from it is that
/// walk.
pub fn kept_positions_are_well_formed()
    ensures well { (p : PlainProblem) (saved : PlainSaved) (letters : List ℕ) →
        (IsWellFormed p (kept_position saved letters) letters ↔ IsPosition p (kept_walk saved)) }
    ensures walk { (p : PlainProblem) (saved : PlainSaved) (letters : List ℕ) →
        (restored p (kept_position saved letters) letters).walk ≡ kept_walk saved }
    ensures before { (p : PlainProblem) (saved : PlainSaved) (letters : List ℕ) →
        (restored p (kept_position saved letters) letters).before ≡ letters }
{}

/// What is kept is refused for one cause: what can be gone on from is refused for out of memory alone, and two causes of
/// a refusal are the same, unless one is out of memory.
pub fn refusals_have_one_cause()
    ensures none { (seed : List ℕ) (steps : List PlainStep) (saved : PlainSaved) (log : PlainLog) (e : RestoreRefused) →
        CanGoOn seed steps saved log → IsRefusedFor seed steps saved log e → e ≡ refused.Memory }
    ensures one { (seed : List ℕ) (steps : List PlainStep) (saved : PlainSaved) (log : PlainLog) (e f : RestoreRefused) →
        e ≢ refused.Memory → f ≢ refused.Memory →
        IsRefusedFor seed steps saved log e → IsRefusedFor seed steps saved log f → e ≡ f }
{}

/// A log is refused for one cause: one whose sections are all accepted is refused for out of memory alone, and two
/// causes of a refusal are the same, unless one is out of memory.
pub fn log_faults_have_one_cause()
    ensures none { (seed : List ℕ) (steps : List PlainStep) (sections : List PlainSection) (e : VerifyFault) →
        Along IsAcceptedAt seed (first_search seed steps) sections → IsRefusedLog seed steps sections e → e ≡ verified.Memory }
    ensures one { (seed : List ℕ) (steps : List PlainStep) (sections : List PlainSection) (e f : VerifyFault) →
        e ≢ verified.Memory → f ≢ verified.Memory →
        IsRefusedLog seed steps sections e → IsRefusedLog seed steps sections f → e ≡ f }
{}
