//! Laws of reports that a command wrote, and another checks. A call of any of them does nothing.

ghost use Rattle.std.specs.Prelude.{◌≡◌, ℕ, List};
ghost use Rattle.fund_plan.specs.Outcome.{tries_at};
ghost use Rattle.fund_report.specs.ReportText.{IsReportText};
ghost use Rattle.fund_report.specs.declared.report.Report.TheVariants as kinds;
ghost use Rattle.fund_files.specs.Chain.{chain_from, history_of};
ghost use Rattle.fund_payment.specs.Report.{psbt_of};
ghost use Rattle.psbt_codec.specs.Text.{IsPsbtTextIn};
ghost use Rattle.command_check.specs.Outcome.{Accepted, ComesTo};
ghost use Rattle.command_check.specs.Evidence.{IsWithin};
ghost use Rattle.command_end.specs.Names.{Sources};
ghost use Rattle.command_inputs.specs.Outcome.{plan_of};
ghost use Rattle.command_inputs.specs.Names.{Payment};
ghost use Rattle.checked_runs.specs.Beside.{IsFunded, IsNotFunded, IsUnfinished, StandWithLog, StandsBeside, reported_of};
ghost use Rattle.checked_runs.specs.Summed.{IsSummed, lines_for, report_for, reported_for};

/// The law of written reports: what a payment from files printed, and the log that it wrote, are accepted from the same
/// files. This holds of every mark: exhausted, drawn, given, and partial; and of no selection. A run that goes on writes no
/// log, and its report is accepted by its form. A log is always short enough to be judged. So is a report but of a payment:
/// its PSBT has whole transactions (BIP 174, the input type 00), and may be too long.
pub fn written_reports_are_accepted()
    ensures funded { (files files' : List ℕ → List ℕ) (s : Sources) (p : Payment) (name report log : List ℕ) (k : IsFunded files s p report log) → IsWithin report → StandWithLog files files' s p name report log → ComesTo files' s p name (Accepted (kinds.Funded (reported_of files s p report log k))) }
    ensures none { (files files' : List ℕ → List ℕ) (s : Sources) (p : Payment) (name report log : List ℕ) (k : IsNotFunded files s p report log) → StandWithLog files files' s p name report log → ComesTo files' s p name (Accepted (kinds.NoSelection (tries_at (plan_of (chain_from k.wallet k.blocks) k.asked) k.asked.tries))) }
    ensures unfinished { (files files' : List ℕ → List ℕ) (s : Sources) (p : Payment) (name report : List ℕ) (k : IsUnfinished files s p report) → StandsBeside files files' s p name report → ComesTo files' s p name (Accepted (kinds.Unfinished (tries_at (plan_of (chain_from k.wallet k.blocks) k.asked) k.asked.tries) k.used_up.step.row k.used_up.step.stage)) }
{}

/// The law of reports of payments: what a payment from files printed is a report that can be read, however long it is, and it
/// tells of that payment. Its PSBT is a text of the payment that is to be signed, in the version that the request asks for:
/// version 0 (BIP 174) or 2 (BIP 370). That is said of a report that is short enough to be judged.
pub fn paid_reports_can_be_read()
    ensures report { (files : List ℕ → List ℕ) (s : Sources) (p : Payment) (report log : List ℕ) (k : IsFunded files s p report log) → IsReportText report (kinds.Funded (reported_of files s p report log k)) }
    ensures psbt { (files : List ℕ → List ℕ) (s : Sources) (p : Payment) (report log : List ℕ) (k : IsFunded files s p report log) → IsWithin report → IsPsbtTextIn k.asked.psbt (reported_of files s p report log k).text (psbt_of (history_of k.wallet k.blocks) k.asked k.wallet.change k.funded) }
{}

/// The law of summaries: where `work` sums up a payment, its report can be read, and tells of that payment. The summary is
/// the command's words, the report's lines in order but for those of coins and of the PSBT, and the SHA-256 of the report.
pub fn summaries_are_of_reports()
    ensures report { (number count : ℕ) (summary : List ℕ) (k : IsSummed number count summary) → IsReportText (report_for number count k.funded) (kinds.Funded (reported_for number count k.funded)) }
    ensures lines { (number count : ℕ) (summary : List ℕ) (k : IsSummed number count summary) → summary ≡ lines_for number count k.funded }
{}
