//! What holds of reports and their texts, whatever the code does.

ghost use Rattle.std.specs.Prelude.{◌≡◌, ℕ, List};
ghost use Rattle.closing_log.specs.Exact.{IsFirstFault};
ghost use Rattle.fund_report.specs.declared.report.Report.{Report};
ghost use Rattle.fund_report.specs.ReportText.{CanBeRead, IsReportText, IsSized, text_of};

/// A text has one report; and what is written of a report that can be read is a text of it.
pub fn texts_have_one_report()
    ensures one { (bytes : List ℕ) (a b : Report) → IsReportText bytes a → IsReportText bytes b → a ≡ b }
    ensures written { (report : Report) → CanBeRead report → IsSized report → IsReportText (text_of report) report }
    ensures can { (bytes : List ℕ) (report : Report) → IsReportText bytes report → CanBeRead report }
{}

/// Bytes leave the texts at one place.
pub fn faults_have_one_place()
    ensures { (bytes : List ℕ) (p q : ℕ) → IsFirstFault IsReportText bytes p → IsFirstFault IsReportText bytes q → p ≡ q }
{}
