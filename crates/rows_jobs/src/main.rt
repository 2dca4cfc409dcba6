//! Does the rows of its input over the job file of the current folder, and over files that are stopped, and prints what comes of
//! them. What it must print follows from the rules of a keeper; a keeper in memory says what is to be found. A row's columns have
//! tabs between them: `say TEXT` prints a text, and the modules say what the others are.
//!
//! - `file VERB ..`: files of the current folder (`files`)
//! - `stops ..`: saves that are stopped at each change of a job's two files (`stops`)
//! - all others: keepers and their calls (`keepers`)
#![tactic(auto)]

mod files;
mod findings;
mod keepers;
mod machine;
mod saves;
mod stops;
mod tables;

use fund_outside::KeepFault;
use keepers::Keepers;
use row_columns::{Answer, Rows, answer_rows, column};
use std::io;

/// Puts that a row could not be done.
fn put_fault(out: &mut Answer, fault: KeepFault) {
    match fault {
        KeepFault::Failed => out.word("a database failed\n"),
        KeepFault::Memory => out.lack(),
    }
}

/// Puts what came of a row where it could not be done.
fn put_ended(out: &mut Answer, ended: Result<(), KeepFault>) {
    if let Err(fault) = ended {
        put_fault(out, fault);
    }
}

impl<'a> Rows for Keepers<'a> {
    fn put_row(&mut self, rt: &HostRuntime, out: &mut Answer, columns: &[&str]) -> io::Result<()> {
        let rest = columns.get(1..).unwrap_or(&[]);
        match column(columns, 0) {
            "say" => {
                out.word(column(rest, 0));
                out.word("\n");
            }
            "file" => return files::row(rt, out, rest),
            "stops" => {
                let ended = stops::row(out, rest);
                put_ended(out, ended);
            }
            verb => {
                let ended = self.row(out, verb, rest);
                put_ended(out, ended);
            }
        }
        Ok(())
    }
}

fn main(rt: HostRuntime) -> io::Result<()> {
    let mut keepers = Keepers::new(&rt);
    answer_rows(&rt, &mut keepers)
}
