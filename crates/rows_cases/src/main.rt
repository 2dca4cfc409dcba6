//! Does the rows of its input, and prints what comes of them. A row's columns have tabs between them. In a TEXT `\n`, `\t` and `\\`
//! are a line feed, a tab and a backslash, `\xHH` is the byte HH, and `-` alone is no byte. A COUNT may be left out for 1. What it
//! must print was worked out apart from this program.
//!
//! - `case TEXT READS WRITES PUTS LOADS PARTS SAVES` prints a text and begins anew, without files and jobs. Calls of these numbers,
//!   from 0 on with blanks between them, fail. The rows below count as calls too; columns at the end may be left out.
//! - `file NAME TEXT COUNT` makes a file that is a text so often, `more NAME TEXT COUNT` puts that behind a file.
//! - `do LABEL WORD ..` does the command of these words. It prints the label, which is a text, the status and what was printed.
//!   `sum` does that too, and prints how many lines it was, and its SHA-256. `surely` does it without files and jobs, over an output
//!   that never fails; a file that is missing is an empty one there.
//! - `turn NAME NAMES LABEL WORD ..` does as `do`, and at its first reading the file NAME is what the first file of NAMES is, at its
//!   second what the second is, and so on; it stays the last. NAMES have blanks between them, and no call fails.
//! - `whole LABEL PSBT WALLET BLOCKS KEYS` makes the PSBT of a file whole, with the keys of another where one is named, and prints as
//!   `do`.
//! - `settled LABEL WALLET REQUEST REPORT TX` looks whether a signed transaction settles a payment. It prints the label, the status, and
//!   the table of the payment or what is said in its place.
//! - `log NAME` prints a file.
//! - `save JOB NUMBER SAVED TEXT COUNT` keeps a part of a job with the saved text. `job JOB` prints what is kept of it.
//! - `pay WRITES WORD ..` pays what the words ask for, and prints how that ended. Writes of new files of these numbers fail.
//!   `new NAME` prints one of these. `sweep WRITES WORD ..` pays all coins to whom the words name, and prints that as a table.
//!   `most LABEL WORD ..` prints the words with the amount in place of `max`, or what is wrong with them.
//! - `asked LABEL WORD ..` prints the request of the words of a payment, or what is wrong with them. `fee FEE WORD ..` prints the
//!   greatest fee that is taken with these words, and whether this fee is; `table REPORT WORD ..` the payment of a report, which is
//!   a text, beside what they ask for.
//! - `explain LINE` prints the sentence of a fault line; `high FEE MOST` what is said of a fee that is too great; `unwritten NAME`,
//!   `unwritten NAME earlier` what is said of a new file that was not written, in the second where others were before it.
//! - `wallet NUMBER COUNT` prints the wallet and the request of a workload: some of its coins, its first transaction, and the
//!   SHA-256 of all its transactions one after another. `summary NUMBER COUNT REPORT` prints the summary of a run that came to a
//!   report, which is a text.
#![tactic(auto)]

mod calls;
mod case;
mod columns;
mod people;
mod settled;
mod shown;
mod turning;
mod works;

use case::{Case, surely};
use fund_base::Memory;
use row_columns::column;
use shown::{show, show_column};
use std::io;
use std::io::{BufRead, BufReader, ErrorKind};

/// Begins anew.
fn begin(rt: &HostRuntime, case: &mut Case, columns: &[&str]) -> Result<(), Memory> {
    *case = Case::new(rt.alloc(), columns)?;
    show_column(rt, column(columns, 0))
}

/// Does what a row says that needs no case.
fn plain_row(rt: &HostRuntime, verb: &str, columns: &[&str]) -> Result<(), Memory> {
    match verb {
        "surely" => return surely(rt, columns),
        "asked" => return people::asked(rt, columns),
        "fee" => return people::fee(rt, columns),
        "table" => return people::table(rt, columns),
        "high" => return people::high(rt, columns),
        "unwritten" => return people::unwritten(rt, columns),
        "wallet" | "summary" => return works::work(rt, verb, columns),
        "explain" => people::explain(rt, columns),
        _ => show(rt, b"no such row\n"),
    }
    Ok(())
}

/// Does what a row says of payments and jobs, or of none.
fn other_row(
    rt: &HostRuntime,
    case: &mut Case,
    verb: &str,
    columns: &[&str],
) -> Result<(), Memory> {
    match verb {
        "sum" => return case.sum(rt, columns),
        "turn" => return case.turn(rt, columns),
        "whole" => return case.whole(rt, columns),
        "pay" => return case.pay(rt, columns),
        "settled" => return case.settled(rt, columns),
        "sweep" => return case.sweep(rt, columns),
        "most" => return case.most(rt, columns),
        "save" => return case.save(rt.alloc(), columns),
        "new" => case.new_file(rt, columns),
        "job" => case.job(rt, columns),
        _ => return plain_row(rt, verb, columns),
    }
    Ok(())
}

/// Does what a row says.
fn row(rt: &HostRuntime, case: &mut Case, verb: &str, columns: &[&str]) -> Result<(), Memory> {
    match verb {
        "case" => return begin(rt, case, columns),
        "file" => return case.file(rt.alloc(), columns),
        "more" => return case.more(rt.alloc(), columns),
        "do" => return case.act(rt, columns),
        "log" => case.log(rt, columns),
        _ => return other_row(rt, case, verb, columns),
    }
    Ok(())
}

/// Does a line.
fn line(rt: &HostRuntime, case: &mut Case, text: &str) -> Result<(), Memory> {
    let columns: Vec<&str> = text.split('\t').collect(rt.alloc())?;
    match columns.split_first() {
        Some((verb, rest)) => row(rt, case, verb, rest),
        None => Ok(()),
    }
}

/// An answer in which out of memory is an error of input and output.
fn or_error<T: Drop>(answer: Result<T, Memory>) -> io::Result<T> {
    match answer {
        Ok(value) => Ok(value),
        Err(Memory) => Err(io::Error::from(ErrorKind::OutOfMemory)),
    }
}

fn main(rt: HostRuntime) -> io::Result<()> {
    let alloc = rt.alloc();
    let mut case = or_error(Case::new(alloc, &[]))?;
    for text in BufReader::new(alloc, rt.reader())?.lines(alloc) {
        or_error(line(&rt, &mut case, text?.as_str()))?;
    }
    Ok(())
}
