//! What the outcomes of a wide search claim. A call of any of them does nothing.

ghost use Rattle.std.specs.Prelude.{◌≡◌, ℕ, List, None};
ghost use Rattle.fund_plan.specs.Answer.{IsPayment};
ghost use Rattle.fund_plan.specs.Selection.{PlainFunded};
ghost use Rattle.fund_plan.specs.Steps.{steps_of};
ghost use Rattle.fund_steps.specs.Plan.{IsPlan, PlainPlan};
ghost use Rattle.search_run.specs.Step.{AreSteps};
ghost use Rattle.wide_plan.specs.Asked.{IsForWide};
ghost use Rattle.wide_plan.specs.Claims.{Claims, IsLeftOpen, IsProvedNone, IsUsedUp, open_walk};
ghost use Rattle.wide_plan.specs.Rows.{PlainWideSection};
ghost use Rattle.wide_plan.specs.Run.{by_end, run_of};
ghost use Rattle.wide_plan.specs.declared.outcome.WideOutcome.TheVariants.{Funded, NoSelection, Unfinished};
ghost use Rattle.wide_plan.specs.declared.rows.RowsEnd.TheVariants.{Open};

/// The law of wide payments: each pays every recipient exactly, and at least the fee of its declared weight, by the target and
/// the weight limit of its row without change; and its coins are candidates of groups of that row's pool.
pub fn wide_payments_pay()
    ensures { (p : PlainPlan) (f : PlainFunded) → IsPlan p → AreSteps (steps_of p) → IsForWide p.request → p.bump ≡ None → (run_of p).outcome ≡ Funded f → IsPayment p f }
{}

/// The law of marks: what a wide payment claims by its mark is so. Exhausted, its coins are the best of all choices of the first
/// row that has one, and the log has each row up to that, accepted. Partial, the tries are used up, and its coins are the best
/// that the open walk has met.
pub fn wide_payments_keep_their_claims()
    ensures { (p : PlainPlan) (f : PlainFunded) → IsPlan p → AreSteps (steps_of p) → IsForWide p.request → p.bump ≡ None → (run_of p).outcome ≡ Funded f → Claims p f (run_of p).sections (run_of p).tries }
{}

/// The law of no selection: where a wide search comes to that, no choice from any row's pool does for a payment without change,
/// and the log has each row, accepted with no answer.
pub fn wide_none_is_proved()
    ensures { (p : PlainPlan) → IsPlan p → AreSteps (steps_of p) → IsForWide p.request → p.bump ≡ None → (run_of p).outcome ≡ NoSelection → IsProvedNone p (run_of p).sections }
{}

/// The law of unfinished wide searches: each of the tries is made, the next step of the open row's walk is a try, and nothing is
/// taken, since that isn't asked for or nothing was met.
pub fn wide_unfinished_used_its_tries()
    ensures { (p : PlainPlan) (number : ℕ) → AreSteps (steps_of p) → IsForWide p.request → (run_of p).outcome ≡ Unfinished number → IsLeftOpen p number (run_of p).sections (run_of p).tries }
{}

/// The law of tries that are used up. Let the rows before a row be finished without a selection, let all tries be made, and let
/// this row's walk need another. Then the search ends there: it takes the best so far if the request asks for that and there is
/// one, and is unfinished otherwise.
pub fn wide_searches_end_with_their_tries()
    ensures { (p : PlainPlan) (closed : List PlainWideSection) (tries : ℕ) → AreSteps (steps_of p) → IsForWide p.request → (u : IsUsedUp (steps_of p) p.request.tries closed tries) → (run_of p).outcome ≡ by_end p (Open u.step.row (open_walk (steps_of p) p.request.tries closed tries u).best) }
{}
