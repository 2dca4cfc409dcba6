//! The command that pays all coins, as people see it.

use crate::json::{SweptSeen, print, sweep_value};
use crate::pay::{
    There, parents_of, refuse, refuse_fee, refuse_file, refuse_run, refuse_words, show_parents,
    show_psbt, show_request, text_of, there_in,
};
use crate::plain::{files_told, show, text_made};
use amount_reports::SweptReport;
use command_end::Status;
use command_pay::NewFileShelf;
use command_sweeping::{Ending, sweep_asked, sweep_table};
use pay_words::Asked;
use payment_files::NewFile;
use people_advice::{none_swept, payee_warning};
use std::io;
use sweep_words::read_sweep;

/// The lines that warn of the script that gets this amount.
fn warnings_of(rt: &HostRuntime, asked: &Asked, amount: u64) -> io::Result<String> {
    match asked.payments.as_slice() {
        [payment, ..] => text_made(payee_warning(rt.alloc(), &payment.to, amount)),
        [] => Ok(String::new(rt.alloc())),
    }
}

/// Shows a payment as a table, and its PSBT where no file is given for it.
fn show_table(rt: &HostRuntime, asked: &Asked, report: &SweptReport, psbt: &str) -> io::Result<u8> {
    let text = match sweep_table(rt.alloc(), &asked.payments, report) {
        Ok(text) => text,
        Err(_) => return show(rt, false, Status::Memory, b"fault memory\n"),
    };
    show_request(rt, asked)?;
    rt.print(text.as_str())?;
    show_parents(rt, parents_of(rt, asked, &report.coins))?;
    rt.print(warnings_of(rt, asked, report.amount)?.as_str())?;
    show_psbt(rt, asked, psbt)?;
    Ok(Status::Done.code())
}

/// Shows a payment whose fee is taken.
fn show_payment(rt: &HostRuntime, asked: &Asked, report: &SweptReport) -> io::Result<u8> {
    let psbt = match str::from_utf8(&report.psbt) {
        Ok(psbt) => psbt,
        Err(_) => "",
    };
    if !asked.json {
        return show_table(rt, asked, report, psbt);
    }
    let seen = SweptSeen {
        parents: parents_of(rt, asked, &report.coins),
        warnings: warnings_of(rt, asked, report.amount)?,
    };
    match sweep_value(rt.alloc(), asked, report, &seen, psbt) {
        Ok(value) => {
            print(rt, &value)?;
            Ok(Status::Done.code())
        }
        Err(_) => show(rt, true, Status::Memory, b"fault memory\n"),
    }
}

/// Shows how a payment of all coins ended.
fn show_ending(rt: &HostRuntime, asked: &Asked, there: There, ending: &Ending) -> io::Result<u8> {
    match ending {
        Ending::Swept(report) => show_payment(rt, asked, report),
        Ending::FeeAboveMaximum(fee, most) => refuse_fee(rt, asked, *fee, *most),
        Ending::NotSwept(Status::NoSelection, said) => refuse(
            rt,
            asked,
            Status::NoSelection,
            text_of(said),
            Some(none_swept()),
        ),
        Ending::NotSwept(status, said) => refuse_run(rt, asked, *status, said),
        Ending::Unwritten => refuse_file(rt, asked, NewFile::Psbt, there),
        Ending::Memory => show(rt, asked.json, Status::Memory, b"fault memory\n"),
    }
}

/// Does `sweep` with the words behind it.
pub fn sweep(rt: &HostRuntime, words: &[String]) -> io::Result<u8> {
    let asked = match read_sweep(rt.alloc(), words, [0; 32]) {
        Ok(asked) => asked,
        Err(fault) => return refuse_words(rt, words, &fault),
    };
    let there = there_in(rt, words)?;
    let files = files_told(rt, words);
    let mut new_files = NewFileShelf::new(rt);
    let (ending, _) = sweep_asked(rt.alloc(), &asked, files, &mut new_files);
    show_ending(rt, &asked, there, &ending)
}
