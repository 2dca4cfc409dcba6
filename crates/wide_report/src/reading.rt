//! The report of a payment by the wide search, read back.

ghost use Rattle.std.specs.Prelude.{◌≡◌, Err, IfOk, IsOk, MatchResult};
ghost use Rattle.closing_log.specs.declared.log.Stage.TheVariants.{Wide};
ghost use Rattle.fund_report.specs.PlainFunded.{PlainFunded};
ghost use Rattle.fund_report.specs.ReportText.{IsReportText};
ghost use Rattle.fund_report.specs.declared.report.Report.TheVariants as kinds;
ghost use Rattle.wide_report.specs.Reading.{IsWideOf, as_stage, front_at};
ghost use Rattle.wide_report.specs.WideText.{IsWideText};
ghost use Rattle.wide_report.specs.declared.fault.WideReportFault.TheVariants as faults;

use crate::fault::WideReportFault;
use crate::front::{changeless_text, read_front};
use closing_log::Stage;
use fund_report::{FundedReport, Report, ReportFault, read_report};
use std::alloc::Global;

/// The same payment, by the wide search.
fn as_wide(report: FundedReport) -> FundedReport
    ensures { result ≡ as_stage Wide report }
{
    let mut report = report;
    report.stage = Stage::Wide;
    report
}

/// The payment of which the bytes are a report, as one of the wide search.
fn read_changeless(alloc: Global, text: &[u8]) -> Result<FundedReport, WideReportFault>
    ensures found { IfOk result (IsWideOf text.now) }
    ensures only { (f : PlainFunded) → IsReportText text.now (kinds.Funded f) → MatchResult result (λ read. read ≡ as_stage Wide f) (λ e. e ≡ faults.Memory) }
{
    match read_report(alloc, text) {
        Ok(Report::Funded(report)) => Ok(as_wide(report)),
        Ok(Report::NoSelection { .. }) => Err(WideReportFault::Form),
        Ok(Report::Unfinished { .. }) => Err(WideReportFault::Form),
        Err(ReportFault::Form(_)) => Err(WideReportFault::Form),
        Err(ReportFault::Memory) => Err(WideReportFault::Memory),
    }
}

/// The payment by the wide search of which the bytes are a report, txids in either case. [`WideReportFault::Form`] exactly where they
/// are none. No other fault comes but being out of memory. The report is read as one of the search without change, which differs in
/// the word of its stage alone.
pub fn read_wide_report(alloc: Global, bytes: &[u8]) -> Result<FundedReport, WideReportFault>
    // What is read is a payment of which the bytes are a report, and such a report is read.
    ensures found { IfOk result (λ f. IsWideText bytes.now f) }
    ensures only { (f : PlainFunded) → IsWideText bytes.now f → MatchResult result (λ read. read ≡ f) (λ e. e ≡ faults.Memory) }

    // It runs out of memory only where the lines of such a report stand up to that of the stage.
    ensures short { result ≡ Err faults.Memory → IsOk (front_at bytes.now) }
{
    match read_front(bytes) {
        Ok(((mark, row), rest)) => {
            let text = changeless_text(alloc, mark, row, rest)?;
            read_changeless(alloc, &text)
        }
        Err(_) => Err(WideReportFault::Form),
    }
}
