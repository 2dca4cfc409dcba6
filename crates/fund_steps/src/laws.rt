//! What the definitions of a plan come to.

ghost use Rattle.std.specs.Prelude.{◌≡◌, ◌≢◌, ◌↔◌, [], All, Some, None, false, true};
ghost use Rattle.request_text.specs.declared.request.Method.TheVariants.{Manual};
ghost use Rattle.search_run.specs.Answer.{AreWhole, IsAnswer};
ghost use Rattle.search_run.specs.Step.{AreSteps};
ghost use Rattle.fund_steps.specs.Basis.{Basis, given_in};
ghost use Rattle.fund_steps.specs.Faults.{fault_of};
ghost use Rattle.fund_steps.specs.Plan.{IsPlanFault, IsPlan, PlainPlan};
ghost use Rattle.fund_steps.specs.Reached.{NothingDoes};
ghost use Rattle.fund_steps.specs.Searches.{is_given, rows_in, steps_of};
ghost use Rattle.fund_steps.specs.declared.presets.Presets.TheVariants.{Short};
ghost use Rattle.fund_steps.specs.declared.fault.PlanFault.{PlanFault};

/// The law of a plan's fault: one that keeps a plan from being made is the one that is worked out, and of a plan that
/// keeps its rules none is. A call does nothing.
pub fn faults_are_found()
    ensures fault { (p : PlainPlan) (fault : PlanFault) → IsPlanFault p fault → fault ≢ PlanFault.Memory → fault_of p ≡ Some fault }
    ensures none { (p : PlainPlan) → IsPlan p → fault_of p ≡ None }
{}

/// Steps stand in whole columns. There are none with `manual`, and none where the coins that each payment spends bring all
/// that is needed. Coins that pay alone do bring it.
pub fn steps_stand_in_columns()
    ensures whole { (b : Basis) → AreWhole (steps_of b) }
    ensures manual { (b : Basis) → b.request.method ≡ Manual → steps_of b ≡ [] }
    ensures given { (b : Basis) → is_given b ≡ true → steps_of b ≡ [] }
    ensures alone { (b : Basis) → given_in b ≢ Short → is_given b ≡ true }
{}

/// Where coins are searched for there is no answer exactly where no choice from any row's pool does. With `auto`, none
/// brings from the target to what the least change takes, within the weight that is left without change, and none brings
/// what the least change takes or more, within the weight that is left beside it; with `changeless` it is the first of
/// these alone, and with `weight` and `draw` the second. What a choice brings is summed over its coins, whatever search
/// would find it.
pub fn no_answer_where_nothing_does()
    ensures { (b : Basis) → b.request.method ≢ Manual → is_given b ≡ false → AreSteps (steps_of b) →
        (IsAnswer b.request.seed (steps_of b) None ↔ All (NothingDoes b) (rows_in b)) }
{}
