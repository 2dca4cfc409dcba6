//! What is shown to people: payments, what words ask for, and sentences.

use crate::shown::{show, show_column, show_count, show_line, show_number};
use amount_reports::read_shared;
use command_pay::{
    Ending, PaidReport, fee_ceiling, high_fee_text, is_fee_taken, table_text, unwritten_text,
};
use command_sweeping::{Ending as SweepEnding, sweep_table};
use fault_lines::line_sentence;
use fund_base::Memory;
use fund_report::{FundedReport, Report, read_report, write_report};
use max_words::{MaxFault, max_place, max_sentence};
use pay_words::{
    Asked, Way, WordFault, flag_about, flag_word, read_pay, word_place, word_sentence,
};
use payment_files::NewFile;
use row_columns::{column, number_in, unescaped, words_behind};
use std::alloc::Global;
use wide_report::read_wide_report;

/// Prints the report of a payment.
fn show_funded(rt: &HostRuntime, report: FundedReport) -> Result<(), Memory> {
    let text = write_report(rt.alloc(), &Report::Funded(report))?;
    show(rt, &text);
    Ok(())
}

/// Prints the table of a payment whose recipients bear the fee, and its PSBT.
fn show_shared(rt: &HostRuntime, asked: &Asked, report: &PaidReport) -> Result<(), Memory> {
    show(rt, table_text(rt.alloc(), asked, report)?.as_bytes());
    show(rt, b"psbt ");
    show(rt, report.psbt());
    show(rt, b"\n");
    Ok(())
}

/// Prints a payment, and its log.
fn show_payment(
    rt: &HostRuntime,
    asked: &Asked,
    report: PaidReport,
    log: &[u8],
) -> Result<(), Memory> {
    show(rt, b"paid\n");
    match report {
        PaidReport::Whole(report) => show_funded(rt, report)?,
        PaidReport::Shared(report) => show_shared(rt, asked, &PaidReport::Shared(report))?,
    }
    show(rt, log);
    Ok(())
}

/// Prints what was said of a payment that was not made, and what to do.
fn show_unpaid(rt: &HostRuntime, code: u8, said: &[u8]) {
    show_count(rt, b"status ", code as u64);
    show(rt, said);
    match line_sentence(said) {
        Some(sentence) => show_line(rt, sentence),
        None => {}
    }
}

/// Prints that a fee is above the greatest that is taken.
fn show_high(rt: &HostRuntime, fee: u64, most: u64) {
    show_number(rt, b"fee ", fee);
    show_count(rt, b" above ", most);
}

/// Prints how a payment ended.
fn show_ending(rt: &HostRuntime, asked: &Asked, ending: Ending) -> Result<(), Memory> {
    match ending {
        Ending::Paid(report, log) => return show_payment(rt, asked, report, &log),
        Ending::NotPaid(status, said) => show_unpaid(rt, status.code(), &said),
        Ending::FeeAboveMaximum(fee, most) => show_high(rt, fee, most),
        Ending::Unwritten(NewFile::Request) => show(rt, b"request not written\n"),
        Ending::Unwritten(NewFile::Log) => show(rt, b"log not written\n"),
        Ending::Unwritten(NewFile::Report) => show(rt, b"report not written\n"),
        Ending::Unwritten(NewFile::Psbt) => show(rt, b"psbt not written\n"),
        Ending::Memory => return Err(Memory),
    }
    Ok(())
}

/// Prints how a payment ended, or why its words ask for none.
pub(crate) fn show_paid(
    rt: &HostRuntime,
    ended: Result<(Asked, Ending), WordFault>,
) -> Result<(), Memory> {
    match ended {
        Ok((asked, ending)) => show_ending(rt, &asked, ending),
        Err(fault) => {
            show_line(rt, word_sentence(&fault));
            Ok(())
        }
    }
}

/// Prints how a payment of all coins ended that these words ask for.
fn show_sweep(rt: &HostRuntime, asked: &Asked, ending: SweepEnding) -> Result<(), Memory> {
    match ending {
        SweepEnding::Swept(report) => {
            show(rt, b"swept\n");
            let table = sweep_table(rt.alloc(), &asked.payments, &report)?;
            show(rt, table.as_bytes());
        }
        SweepEnding::NotSwept(status, said) => show_unpaid(rt, status.code(), &said),
        SweepEnding::FeeAboveMaximum(fee, most) => show_high(rt, fee, most),
        SweepEnding::Unwritten => show(rt, b"psbt not written\n"),
        SweepEnding::Memory => return Err(Memory),
    }
    Ok(())
}

/// Prints how a payment of all coins ended, or what is wrong with its words.
pub(crate) fn show_swept(
    rt: &HostRuntime,
    ended: Result<(Asked, SweepEnding), WordFault>,
) -> Result<(), Memory> {
    match ended {
        Ok((asked, ending)) => show_sweep(rt, &asked, ending),
        Err(fault) => {
            show_fault(rt, &fault);
            Ok(())
        }
    }
}

/// Prints what is wrong with the words of a payment, behind the place or the flag that it is about.
fn show_fault(rt: &HostRuntime, fault: &WordFault) {
    if let Some(place) = word_place(fault) {
        show_number(rt, b"word ", place as u64);
        show(rt, b": ");
    }
    if let Some(flag) = flag_about(fault) {
        show(rt, flag_word(flag).as_bytes());
        show(rt, b": ");
    }
    show_line(rt, word_sentence(fault));
}

/// Prints words on a line, with blanks between them.
fn show_words(rt: &HostRuntime, words: &[String]) {
    for word in words {
        show(rt, word.as_bytes());
        show(rt, b" ");
    }
    show(rt, b"\n");
}

/// Prints what is wrong with words whose recipient gets all, behind the place that it is about.
fn show_max_fault(rt: &HostRuntime, fault: &MaxFault) {
    if let Some(place) = max_place(fault) {
        show_number(rt, b"word ", place as u64);
        show(rt, b": ");
    }
    match max_sentence(fault) {
        Some(sentence) => show_line(rt, sentence),
        None => show(rt, b"stopped by a file\n"),
    }
}

/// Prints words with the amount in place of `max`, or what is wrong with them.
pub(crate) fn show_filled(
    rt: &HostRuntime,
    filled: Result<Option<Vec<String>>, MaxFault>,
) -> Result<(), Memory> {
    match filled {
        Ok(Some(words)) => show_words(rt, words.as_slice()),
        Ok(None) => show(rt, b"no max\n"),
        Err(MaxFault::Memory) => return Err(Memory),
        Err(MaxFault::Words(fault)) => show_fault(rt, &fault),
        Err(fault) => show_max_fault(rt, &fault),
    }
    Ok(())
}

/// What words ask for, with a drawn seed of zeros. Where they ask for no payment, that is printed.
fn asked_of(rt: &HostRuntime, columns: &[&str]) -> Result<Option<Asked>, Memory> {
    let words = words_behind(rt.alloc(), columns)?;
    match read_pay(rt.alloc(), words.as_slice(), [0; 32]) {
        Ok(asked) => Ok(Some(asked)),
        Err(fault) => {
            show_fault(rt, &fault);
            Ok(None)
        }
    }
}

/// Prints the request of what words ask for.
pub(crate) fn asked(rt: &HostRuntime, columns: &[&str]) -> Result<(), Memory> {
    show_column(rt, column(columns, 0))?;
    if let Some(asked) = asked_of(rt, columns)? {
        show_line(rt, asked.request(rt.alloc())?.as_str());
    }
    Ok(())
}

/// Prints the greatest fee that is taken, and whether this one is.
fn show_fee(rt: &HostRuntime, asked: &Asked, fee: u64) {
    show_number(rt, b"", fee_ceiling(asked.max_fee, &asked.payments));
    if is_fee_taken(fee, asked.max_fee, &asked.payments) {
        show(rt, b" taken\n");
    } else {
        show(rt, b" refused\n");
    }
}

/// Prints the greatest fee that is taken with these words, and whether this one is.
pub(crate) fn fee(rt: &HostRuntime, columns: &[&str]) -> Result<(), Memory> {
    if let Some(asked) = asked_of(rt, columns)? {
        show_fee(rt, &asked, number_in(column(columns, 0), 0));
    }
    Ok(())
}

/// The payment of a report by `fund`.
fn funded_in(alloc: Global, report: &[u8]) -> Option<PaidReport> {
    match read_report(alloc, report) {
        Ok(Report::Funded(report)) => Some(PaidReport::Whole(report)),
        _ => None,
    }
}

/// The payment of a report by the command of this way.
fn payment_in(alloc: Global, way: Way, report: &[u8]) -> Option<PaidReport> {
    match way {
        Way::Fund => funded_in(alloc, report),
        Way::Wide => match read_wide_report(alloc, report) {
            Ok(report) => Some(PaidReport::Whole(report)),
            Err(_) => None,
        },
        Way::Share => match read_shared(alloc, report) {
            Ok(report) => Some(PaidReport::Shared(report)),
            Err(_) => None,
        },
    }
}

/// Prints the payment of a report as a table.
fn show_table(rt: &HostRuntime, asked: &Asked, report: &str) -> Result<(), Memory> {
    let bytes = unescaped(rt.alloc(), report.as_bytes())?;
    match payment_in(rt.alloc(), asked.way, &bytes) {
        Some(report) => show_line(rt, table_text(rt.alloc(), asked, &report)?.as_str()),
        None => show(rt, b"no payment\n"),
    }
    Ok(())
}

/// Prints the payment of a report as a table, beside what these words ask for.
pub(crate) fn table(rt: &HostRuntime, columns: &[&str]) -> Result<(), Memory> {
    match asked_of(rt, columns)? {
        Some(asked) => show_table(rt, &asked, column(columns, 0)),
        None => Ok(()),
    }
}

/// Prints the sentence of a fault line.
pub(crate) fn explain(rt: &HostRuntime, columns: &[&str]) {
    match line_sentence(column(columns, 0).as_bytes()) {
        Some(sentence) => show_line(rt, sentence),
        None => show(rt, b"no fault line\n"),
    }
}

/// Prints what is said of a fee that is too great.
pub(crate) fn high(rt: &HostRuntime, columns: &[&str]) -> Result<(), Memory> {
    let fee = number_in(column(columns, 0), 0);
    let most = number_in(column(columns, 1), 0);
    show_line(rt, high_fee_text(rt.alloc(), fee, most)?.as_str());
    Ok(())
}

/// Prints what is said of a new file that was not written.
pub(crate) fn unwritten(rt: &HostRuntime, columns: &[&str]) -> Result<(), Memory> {
    let earlier_written = column(columns, 1) == "earlier";
    let text = unwritten_text(rt.alloc(), column(columns, 0), earlier_written)?;
    show_line(rt, text.as_str());
    Ok(())
}
