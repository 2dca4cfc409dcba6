//! Laws of reports that are checked, in words that know no walk and no checker. A call of any of them does nothing.

ghost use Rattle.std.specs.Prelude.{◌≡◌, ℕ, List};
ghost use Rattle.fund_plan.specs.Steps.{steps_of};
ghost use Rattle.fund_report.specs.declared.report.Report.{Report};
ghost use Rattle.report_check.specs.Verdict.{IsPaid};
ghost use Rattle.report_check.specs.Vouched.{Vouches};
ghost use Rattle.search_run.specs.Step.{AreSteps};
ghost use Rattle.command_end.specs.Names.{Sources};
ghost use Rattle.command_inputs.specs.Names.{Payment};
ghost use Rattle.command_check.specs.Outcome.{ComesTo, KeepsRules, Outcome};
ghost use Rattle.command_check.specs.Evidence.{HasReport};
ghost use Rattle.command_check.specs.Words.{StartsWithLine, first_line};

/// The law of outcomes: the files of a report come to one outcome at most, so that a refusal with its cause, the first rule
/// that is broken, and being accepted shut each other out.
pub fn checks_have_one_outcome()
    ensures { (files : List ℕ → List ℕ) (s : Sources) (p : Payment) (report : List ℕ) (a b : Outcome) → ComesTo files s p report a → ComesTo files s p report b → a ≡ b }
{}

/// The law of what an accepted report vouches for, by the files alone, whoever wrote the report and the log. Marked as
/// exhausted, drawn or given, or saying that there is none, it names the plan's answer of all that there is to find;
/// exhausted, its coins are the best selection of the problem of its row and stage. Partial, it is paid as it says, from
/// presets and from candidates that meet its row. Presets are the coins that the request lists, or those of the payment that
/// it replaces. Of a run that goes on it has its form, and no more.
///
/// What is printed of it is the first line of the file.
pub fn accepted_reports_vouch()
    ensures vouches { (files : List ℕ → List ℕ) (s : Sources) (p : Payment) (report : List ℕ) (r : Report) (k : KeepsRules files s p report r) → AreSteps (steps_of k.plan) → Vouches k.plan r }
    ensures pays { (files : List ℕ → List ℕ) (s : Sources) (p : Payment) (report : List ℕ) (r : Report) (k : KeepsRules files s p report r) → IsPaid k.plan r }
    ensures first { (file : List ℕ) (r : Report) → HasReport file r → StartsWithLine file (first_line r) }
{}
