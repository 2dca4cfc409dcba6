//! Laws of reports that are accepted. A call of any of them does nothing.

ghost use Rattle.std.specs.Prelude.{◌≡◌, ◌≢◌, ◌<◌, ◌≤◌, ◌+◌, ◌++◌, [], ℕ, List, All, Contains, None, Some, true};
ghost use Rattle.std.specs.List.{AllByRecursion};
ghost use Rattle.closing_log.specs.Log.{PlainLog};
ghost use Rattle.closing_log.specs.declared.mark.Mark.TheVariants.{Given};
ghost use Rattle.fee_rates.specs.Fee.{fee_of};
ghost use Rattle.fee_rates.specs.Terms.{base_of};
ghost use Rattle.coin_candidates.specs.declared.candidate.Candidate.{Candidate};
ghost use Rattle.fund_plan.specs.Chosen.{funded_at, mark_of};
ghost use Rattle.fund_plan.specs.Outcome.{by_end};
ghost use Rattle.fund_plan.specs.Selection as plans;
ghost use Rattle.fund_plan.specs.Steps.{is_given, steps_of};
ghost use Rattle.fund_plan.specs.declared.outcome.Outcome.TheVariants as outcomes;
ghost use Rattle.fund_report.specs.PlainFunded.{PlainFunded};
ghost use Rattle.fund_report.specs.ReportText.{IsReportText};
ghost use Rattle.fund_report.specs.declared.report.Report.{Report};
ghost use Rattle.fund_report.specs.declared.report.Report.TheVariants as reports;
ghost use Rattle.fund_steps.specs.Amounts.{weight_of};
ghost use Rattle.fund_steps.specs.Listed.{burden_in, presets_in};
ghost use Rattle.fund_steps.specs.Plan.{IsPlan, PlainBump, PlainPlan};
ghost use Rattle.fund_steps.specs.Terms.{load_of};
ghost use Rattle.search_run.specs.Answer.{HasNone, IsFirstTaken};
ghost use Rattle.search_run.specs.Found.{PlainFound};
ghost use Rattle.search_run.specs.Searched.{AreSectionsOf};
ghost use Rattle.search_run.specs.Step.{AreSteps};
ghost use Rattle.search_run.specs.declared.ending.End.TheVariants as ends;
ghost use Rattle.report_check.specs.Payment.{line_of};
ghost use Rattle.report_check.specs.Proved.{HasTries, HasTriesLine, IsEndedText, tries_place};
ghost use Rattle.report_check.specs.Verdict.{BreaksFirst, IsAccepted, IsBacked, IsReportRefusal, IsPaid};
ghost use Rattle.report_check.specs.Vouched.{IsOfPayment, Vouches};
ghost use Rattle.report_check.specs.declared.fault.CheckFault.{CheckFault};

/// The law of what an accepted report vouches for. It rests on the four files alone, whoever wrote the report and the log.
///
/// A payment that isn't partial is the plan's answer, of all that there is to find: mark, row, stage, coins, change and
/// figures are its own, and the PSBT is of its transaction. Exhausted, its coins are the best selection of the problem of
/// its row and stage; drawn, they are what is drawn. Both are taken first of all results, and the waste is theirs with the
/// cost of the presets. Given, the presets alone pay. Partial, the PSBT pays as the report says, from presets and from
/// candidates that meet its row. Presets are the coins that the request lists, or those of the payment that it replaces.
///
/// None: no search and no draw of the plan has a result, and the presets alone don't pay. Unless they bring all that is due,
/// no choice from any row's pool does for what the method looks for.
pub fn accepted_reports_name_the_answer()
    ensures { (p : PlainPlan) (r : Report) (bytes : List ℕ) → IsPlan p → AreSteps (steps_of p) → IsAccepted p r bytes → Vouches p r }
{}

/// The law of first rules: a log that backs a report breaks no rule, and any other breaks one first at most.
pub fn logs_break_one_rule_first()
    ensures apart { (p : PlainPlan) (r : Report) (log : PlainLog) (e : CheckFault) → IsBacked p r log → BreaksFirst p r log e → ⊥ }
    ensures one { (p : PlainPlan) (r : Report) (log : PlainLog) (d e : CheckFault) → BreaksFirst p r log d → BreaksFirst p r log e → d ≡ e }
{}

/// The law of verdicts: a report that is accepted with its log breaks no rule, and any other has one fault at most.
pub fn reports_have_one_verdict()
    ensures apart { (p : PlainPlan) (r : Report) (bytes : List ℕ) (e : CheckFault) → IsAccepted p r bytes → e ≢ CheckFault.Memory → IsReportRefusal p r bytes e → ⊥ }
    ensures one { (p : PlainPlan) (r : Report) (bytes : List ℕ) (d e : CheckFault) → d ≢ CheckFault.Memory → e ≢ CheckFault.Memory → IsReportRefusal p r bytes d → IsReportRefusal p r bytes e → d ≡ e }
{}

/// The place that is told where the tries aren't those of the log is that of their line, in any text of the report.
pub fn tries_have_their_line()
    ensures { (bytes : List ℕ) (r : Report) → IsReportText bytes r → HasTriesLine bytes r }
{}

/// The law of reports of the presets alone, which the mark given tells: no search is made for them. So one that is accepted
/// tells of no try; and one that pays as it says and tells of a try that wasn't made is refused for the line of its tries,
/// beside any log without sections.
pub fn given_reports_tell_no_tries()
    ensures accepted { (p : PlainPlan) (f : PlainFunded) (bytes : List ℕ) → f.mark ≡ Given → IsAccepted p (reports.Funded f) bytes → f.tries ≡ 0 }
    ensures refused { (p : PlainPlan) (f : PlainFunded) (bytes : List ℕ) (log : PlainLog) → f.mark ≡ Given → 0 < f.tries → IsPaid p (reports.Funded f) → IsEndedText bytes log → log.closed ≡ [] → IsReportRefusal p (reports.Funded f) bytes (CheckFault.Report (tries_place (reports.Funded f))) }
{}

/// The law of honest reports: the answer of a plan is accepted, with any log that has an accepted section for each search up
/// to and with its column, and with their tries. So what [`fund_plan`] comes to is accepted with the log of its run.
pub fn honest_reports_are_accepted()
    ensures found { (p : PlainPlan) (f : PlainFunded) (found : PlainFound) (bytes : List ℕ) (log : PlainLog) → IsPlan p → AreSteps (steps_of p) → (first : IsFirstTaken p.request.seed (steps_of p) found) → IsOfPayment p f (funded_at p (mark_of found.stage) found) → IsEndedText bytes log → AreSectionsOf (first.front ++ first.column) log.closed → HasTries (reports.Funded f) log.closed → IsAccepted p (reports.Funded f) bytes }
    ensures given { (p : PlainPlan) (f : PlainFunded) (g : plans.PlainFunded) (bytes : List ℕ) (log : PlainLog) → IsPlan p → is_given p ≡ true → by_end p (ends.Ended None) ≡ outcomes.Funded g → IsOfPayment p f g → IsEndedText bytes log → log.closed ≡ [] → HasTries (reports.Funded f) log.closed → IsAccepted p (reports.Funded f) bytes }
    ensures none { (p : PlainPlan) (tries : ℕ) (bytes : List ℕ) (log : PlainLog) → AreSteps (steps_of p) → AllByRecursion (HasNone p.request.seed) (steps_of p) → by_end p (ends.Ended None) ≡ outcomes.NoSelection → IsEndedText bytes log → AreSectionsOf (steps_of p) log.closed → HasTries (reports.NoSelection tries) log.closed → IsAccepted p (reports.NoSelection tries) bytes }
{}

/// The law of reports of replacements: one that pays as it says, whatever its mark, pays its plan's burden beside the fee of
/// its rate, by its own figures. Its weight is no less than the base and the inputs of the presets alone. And a line of it has
/// each coin that the replaced payment spends (BIP 125, 'Implementation Details', rules 3 and 4).
pub fn paid_reports_pay_the_burden()
    ensures fee { (p : PlainPlan) (f : PlainFunded) → IsPaid p (reports.Funded f) → burden_in p + fee_of p.request.rate f.vsize ≤ f.fee }
    ensures weight { (p : PlainPlan) (f : PlainFunded) → IsPlan p → IsPaid p (reports.Funded f) → base_of (load_of p.request p.change (presets_in p) (burden_in p)) + weight_of (presets_in p) ≤ f.weight }
    ensures coins { (p : PlainPlan) (b : PlainBump) (f : PlainFunded) → p.bump ≡ Some b → IsPlan p → IsPaid p (reports.Funded f) → All (λ (c : Candidate). Contains f.coins (line_of c)) b.presets }
{}
