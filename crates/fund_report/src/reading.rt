//! A report read back from its text.

ghost use Rattle.std.specs.Prelude.{◌≡◌, ◌-◌, length, Err, IfErr, IfOk, IsOk, MatchResult};
ghost use Rattle.closing_log.specs.declared.fault.LineFault.TheVariants.{Memory as OutOfMemory};
ghost use Rattle.closing_log.specs.Gives.{Gives, Reads};
ghost use Rattle.closing_log.specs.Reading.{both_at, made_at};
ghost use Rattle.fund_report.specs.declared.fault.ReportFault.TheVariants as faults;
ghost use Rattle.fund_report.specs.declared.report.Report.{Report};
ghost use Rattle.fund_report.specs.Reading.{coins_line, figures_at, funded_at, lines_at, none_at, others_at, paid_at, report_at, row_line, stage_line, start_at, tries_line, unfinished_at, unfinished_of};
ghost use Rattle.fund_report.specs.ReportText.{IsReportText};
ghost use Rattle.fund_report.specs.Reported.{IsReportFault, Agrees};

use crate::amounts::read_figures_paid;
use crate::fault::ReportFault;
use crate::lines::{read_coins_lines, read_search, read_start, read_tries};
use crate::parts::Figures;
use crate::report::{FundedReport, InLine, Report};
use closing_log::{LineFault, Stage, read_word};
use std::alloc::Global;

/// The lines from the coins on.
fn read_from_coins(
    alloc: Global,
    bytes: &[u8],
) -> Result<((Vec<InLine>, (Figures, (Option<u64>, &[u8]))), &[u8]), LineFault<'_>>
    ensures { Gives (λ x. ((x.0.0.items, (x.0.1.0, (x.0.1.1.0, x.0.1.1.1.now))), x.1.now)) result (both_at coins_line (λ c. both_at figures_at (λ f. paid_at)) bytes.now) }
{
    let (coins, rest) = match read_coins_lines(alloc, bytes) {
        Ok(read) => read,
        Err(fault) => return Err(fault),
    };
    let (paid, rest) = read_figures_paid(rest)?;
    Ok(((coins, paid), rest))
}

/// The lines of a payment.
fn read_funded(alloc: Global, bytes: &[u8]) -> Result<(Report, &[u8]), LineFault<'_>>
    ensures gives { Gives (λ x. (x.0, x.1.now)) result (funded_at bytes.now) }
    ensures short { result ≡ Err OutOfMemory → IsOk (start_at bytes.now) }
{
    let (start, rest) = read_start(bytes)?;
    let ((coins, (figures, (change, text))), rest) = match read_from_coins(alloc, rest) {
        Ok(read) => read,
        Err(fault) => return Err(fault),
    };
    let text = Vec::from_slice(alloc, text)?;
    let funded = FundedReport {
        mark: start.mark,
        row: start.row,
        stage: start.stage,
        tries: start.tries,
        coins,
        weight: figures.weight,
        vsize: figures.vsize,
        fee: figures.fee,
        waste: figures.waste,
        change,
        text,
    };
    Ok((Report::Funded(funded), rest))
}

/// The lines where there is no payment.
fn read_none(bytes: &[u8]) -> Result<(Report, &[u8]), &[u8]>
    ensures { Reads (λ x. (x.0, x.1.now)) result (none_at bytes.now) }
{
    let rest = read_word(bytes, b"none\n")?;
    let (tries, rest) = read_tries(rest)?;
    Ok((Report::NoSelection { tries }, rest))
}

/// The tries, the row and the stage of a run that goes on.
fn read_standing(bytes: &[u8]) -> Result<((u64, (u8, Stage)), &[u8]), &[u8]>
    ensures { Reads (λ x. (x.0, x.1.now)) result (both_at tries_line (λ n. both_at row_line (λ r. stage_line)) bytes.now) }
{
    let (tries, rest) = read_tries(bytes)?;
    let (search, rest) = read_search(rest)?;
    Ok(((tries, search), rest))
}

/// The lines of a run that goes on, after its first line.
fn read_unfinished_lines(bytes: &[u8]) -> Result<(Report, &[u8]), &[u8]>
    ensures { Reads (λ x. (x.0, x.1.now)) result (made_at unfinished_of (both_at tries_line (λ n. both_at row_line (λ r. stage_line))) bytes.now) }
{
    let ((tries, (row, stage)), rest) = read_standing(bytes)?;
    Ok((Report::Unfinished { tries, row, stage }, rest))
}

/// The lines of a run that goes on.
fn read_unfinished(bytes: &[u8]) -> Result<(Report, &[u8]), &[u8]>
    ensures { Reads (λ x. (x.0, x.1.now)) result (unfinished_at bytes.now) }
{
    let rest = match read_word(bytes, b"unfinished\n") {
        Ok(rest) => rest,
        Err(stop) => return Err(stop),
    };
    read_unfinished_lines(rest)
}

/// The lines of a report without a payment.
#[tactic(auto, unfolding(closing_log::specs::Lines::either_at))]
fn read_others(bytes: &[u8]) -> Result<(Report, &[u8]), &[u8]>
    ensures { Reads (λ x. (x.0, x.1.now)) result (others_at bytes.now) }
{
    match bytes {
        [] => Err(bytes),
        [b'n', ..] => read_none(bytes),
        _ => read_unfinished(bytes),
    }
}

/// The lines of a report.
#[tactic(auto, unfolding(closing_log::specs::Lines::either_at))]
fn read_lines(alloc: Global, bytes: &[u8]) -> Result<(Report, &[u8]), LineFault<'_>>
    ensures gives { Gives (λ x. (x.0, x.1.now)) result (lines_at bytes.now) }
    ensures short { result ≡ Err OutOfMemory → IsOk (start_at bytes.now) }
{
    match bytes {
        [] => Err(LineFault::Form(bytes)),
        [b'f', ..] => read_funded(alloc, bytes),
        _ => {
            let (report, rest) = read_others(bytes)?;
            Ok((report, rest))
        }
    }
}

/// The fault of a text whose reading stops where these bytes are left.
fn form(whole: &[u8], stop: &[u8]) -> ReportFault
    ensures { result ≡ faults.Form (length whole.now - length stop.now) }
{
    ReportFault::Form(whole.len().saturating_sub(stop.len()) as u64)
}

/// The report of the bytes, read line by line.
#[tactic(auto, using(crate::proofs::ToldLaws::tell_lines, crate::proofs::ToldLaws::tell_end))]
fn read_whole(alloc: Global, bytes: &[u8]) -> Result<Report, ReportFault>
    ensures agrees { Agrees bytes.now result (report_at bytes.now) }
    ensures short { result ≡ Err faults.Memory → IsOk (start_at bytes.now) }
{
    let (report, rest) = match read_lines(alloc, bytes) {
        Ok(read) => read,
        Err(LineFault::Form(stop)) => return Err(form(bytes, stop)),
        Err(LineFault::Memory) => return Err(ReportFault::Memory),
    };
    match rest {
        [] => Ok(report),
        _ => Err(form(bytes, rest)),
    }
}

/// The report of which the bytes are a text, txids in either case. [`ReportFault::Form`] exactly where they are no
/// report: at the first byte at which no report goes on as the bytes do, or at their length where they end too early.
/// No other fault comes but being out of memory.
#[tactic(auto, using(crate::proofs::ToldLaws::tells_found, crate::proofs::ToldLaws::tells_only, crate::proofs::ToldLaws::tells_fault))]
pub fn read_report(alloc: Global, bytes: &[u8]) -> Result<Report, ReportFault>
    // What is read is a report of which the bytes are a text, and such a text is read.
    ensures found { IfOk result (λ report. IsReportText bytes.now report) }
    ensures only { (report : Report) → IsReportText bytes.now report → MatchResult result (λ read. read ≡ report) (λ e. e ≡ faults.Memory) }

    // Where else they leave the texts.
    ensures fault { IfErr result (IsReportFault bytes.now) }

    // It runs out of memory only where the lines of a payment stand up to that of the tries.
    ensures short { result ≡ Err faults.Memory → IsOk (start_at bytes.now) }
{
    read_whole(alloc, bytes)
}
