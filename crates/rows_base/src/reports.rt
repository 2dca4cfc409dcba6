//! Reports as texts: `report text TEXT`, which is the report and, where that is another text, what is written of it, or where the
//! text leaves the grammar; `report wide`: what is written of a run that stands at the stage `wide`, and what reading that comes to.

use closing_log::{Stage, Worded};
use fund_base::Memory;
use fund_report::{FundedReport, Report, ReportFault, read_report, write_report};
use row_columns::{Answer, column, unescaped};

/// Puts the weight, the size, the fee and the waste of a payment.
pub(crate) fn put_figures(out: &mut Answer, weight: u64, vsize: u64, fee: u64, waste: i128) {
    out.number(", weight ", weight);
    out.number(", vsize ", vsize);
    out.number(", fee ", fee);
    out.signed(", waste ", waste);
}

/// Puts what is reported of a payment, its coins and its text by their numbers.
fn put_funded(out: &mut Answer, report: &FundedReport) {
    out.word("funded ");
    out.word(report.mark.word());
    out.number(", row ", u64::from(report.row));
    out.word(", stage ");
    out.word(report.stage.word());
    out.number(", tries ", report.tries);
    out.number(", inputs ", report.coins.len() as u64);
    put_figures(out, report.weight, report.vsize, report.fee, report.waste);
    match report.change {
        Some(amount) => out.number(", change ", amount),
        None => out.word(", change none"),
    }
    out.number(", text of ", report.text.len() as u64);
    out.word(" bytes");
}

/// Puts a report that was read from these bytes, and what is written of it. The error is out of memory.
fn put_read(out: &mut Answer, bytes: &[u8], report: &Report) -> Result<(), Memory> {
    match report {
        Report::Funded(funded) => put_funded(out, funded),
        Report::NoSelection { tries: _ } => out.word("none"),
        Report::Unfinished {
            tries: _,
            row: _,
            stage: _,
        } => out.word("unfinished"),
    }
    let text = write_report(out.alloc, report)?;
    if text.as_slice() != bytes {
        out.again(bytes, &text);
        out.word("\n");
    }
    Ok(())
}

/// Reads a report. The error is out of memory.
fn report(out: &mut Answer, bytes: &[u8]) -> Result<(), Memory> {
    match read_report(out.alloc, bytes) {
        Ok(report) => return put_read(out, bytes, &report),
        Err(ReportFault::Form(place)) => out.number("Form ", place),
        Err(ReportFault::Memory) => return Err(Memory),
    }
    Ok(())
}

/// Puts what is written of a run that stands at the wide search, and what that is read as. The error is out of memory.
fn wide(out: &mut Answer) -> Result<(), Memory> {
    let written = write_report(
        out.alloc,
        &Report::Unfinished {
            tries: 3,
            row: 2,
            stage: Stage::Wide,
        },
    )?;
    out.word("written ");
    out.put(&written);
    report(out, &written)
}

/// Puts what a row comes to. The error is out of memory.
pub(crate) fn row(out: &mut Answer, verb: &str, columns: &[&str]) -> Result<(), Memory> {
    if verb == "wide" {
        return wide(out);
    }
    let bytes = unescaped(out.alloc, column(columns, 0).as_bytes())?;
    report(out, &bytes)
}
