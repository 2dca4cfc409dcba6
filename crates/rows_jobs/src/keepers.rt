//! Rows of keepers. K is 1 or 2 for two keepers of the job file, and 0 for one in memory.
//!
//! - `anew K`: makes a keeper of the job file anew
//! - `load K LABEL JOB`, `part K LABEL JOB NUMBER` and `save K LABEL JOB FIRST TEXT COUNT SAVED`: prints how a call ended; the part
//!   is a text so many times. Without a label nothing is printed.
//! - `shows K LABEL JOB SAVED`, `holds K LABEL JOB NUMBER TEXT COUNT`: prints whether the saved text, or the part, is this one
//! - `there K LABEL JOB`: prints whether there is such a job
//! - `same K`: prints whether a keeper holds of the jobs a, b and c what the one in memory holds
//! - `kept JOB SAVED`: counts a job if keeper 1 has it with this saved text, and with its name as its one part
//! - `found`: prints how many jobs were counted

use crate::saves::{held, keep, put_line, repeated, say};
use fund_outside::{KeepFault, Keeper, SureKeeper};
use keep_sqlite::SqliteKeeper;
use row_columns::{Answer, column, number_in, short_in};

/// The keepers, and how many jobs were counted.
#[derive(Drop)]
pub(crate) struct Keepers<'a> {
    rt: &'a HostRuntime,
    first: SqliteKeeper<&'a HostRuntime>,
    second: SqliteKeeper<&'a HostRuntime>,
    sure: SureKeeper,
    count: u64,
}

/// How a call ended.
fn ended<T: Drop>(answer: Result<T, KeepFault>) -> &'static str {
    match answer {
        Ok(_) => "done",
        Err(KeepFault::Failed) => "failed",
        Err(KeepFault::Memory) => "memory",
    }
}

/// Whether there are these bytes.
fn are(found: Result<Option<Vec<u8>>, KeepFault>, bytes: &[u8]) -> bool {
    match found {
        Ok(Some(found)) => found.as_slice() == bytes,
        Ok(None) => false,
        Err(_) => false,
    }
}

/// Whether a part of a job is a text so many times.
fn holds<K: Keeper>(out: &Answer, keeper: &mut K, columns: &[&str]) -> Result<bool, KeepFault> {
    let count = number_in(column(columns, 4), 0);
    let part = repeated(out.alloc, column(columns, 3), count)?;
    let found = keeper.part(column(columns, 1), short_in(column(columns, 2)));
    Ok(are(found, &part))
}

/// The word of what a call of a keeper comes to.
fn word_of<K: Keeper>(
    out: &Answer,
    keeper: &mut K,
    verb: &str,
    columns: &[&str],
) -> Result<&'static str, KeepFault> {
    let job = column(columns, 1);
    Ok(match verb {
        "load" => ended(keeper.load(job)),
        "part" => ended(keeper.part(job, short_in(column(columns, 2)))),
        "save" => ended(keep(out.alloc, keeper, columns.get(1..).unwrap_or(&[]))),
        "shows" => say(are(keeper.load(job), column(columns, 2).as_bytes())),
        "holds" => say(holds(out, keeper, columns)?),
        _ => say(keeper.load(job)?.is_some()),
    })
}

/// Does a call, and puts what it comes to behind its label.
fn call<K: Keeper>(
    out: &mut Answer,
    keeper: &mut K,
    verb: &str,
    columns: &[&str],
) -> Result<(), KeepFault> {
    let word = word_of(out, keeper, verb, columns)?;
    put_line(out, column(columns, 0), word);
    Ok(())
}

/// Puts whether a keeper holds the same as one in memory.
fn same<K: Keeper>(
    out: &mut Answer,
    keeper: &mut K,
    sure: &mut SureKeeper,
) -> Result<(), KeepFault> {
    let jobs = ["a", "b", "c"];
    let found = held(out.alloc, keeper, &jobs)?;
    let due = held(out.alloc, sure, &jobs)?;
    put_line(out, "as saved", say(found == due));
    Ok(())
}

/// Whether a job is kept with its text and its one part, which is its name.
fn is_kept<K: Keeper>(keeper: &mut K, job: &str, saved: &str) -> Result<bool, KeepFault> {
    let is_saved = are(keeper.load(job), saved.as_bytes());
    let is_part = are(keeper.part(job, 0), job.as_bytes());
    let more = keeper.part(job, 1)?.is_some();
    Ok(is_saved && is_part && !more)
}

impl<'a> Keepers<'a> {
    /// Keepers made anew.
    pub(crate) fn new(rt: &'a HostRuntime) -> Keepers<'a> {
        Keepers {
            rt,
            first: SqliteKeeper::new(rt),
            second: SqliteKeeper::new(rt),
            sure: SureKeeper::new(rt.alloc()),
            count: 0,
        }
    }

    /// Counts a job that is kept.
    fn count(&mut self, columns: &[&str]) -> Result<(), KeepFault> {
        if is_kept(&mut self.first, column(columns, 0), column(columns, 1))? {
            self.count = self.count.saturating_add(1);
        }
        Ok(())
    }

    /// Makes a keeper of the job file anew.
    fn make(&mut self, number: &str) {
        if number == "1" {
            self.first = SqliteKeeper::new(self.rt);
        } else {
            self.second = SqliteKeeper::new(self.rt);
        }
    }

    /// Does a call of the keeper of this number.
    fn ask(
        &mut self,
        out: &mut Answer,
        verb: &str,
        number: &str,
        columns: &[&str],
    ) -> Result<(), KeepFault> {
        match number {
            "0" => call(out, &mut self.sure, verb, columns),
            "1" => call(out, &mut self.first, verb, columns),
            _ => call(out, &mut self.second, verb, columns),
        }
    }

    /// Does a row.
    pub(crate) fn row(
        &mut self,
        out: &mut Answer,
        verb: &str,
        columns: &[&str],
    ) -> Result<(), KeepFault> {
        let number = column(columns, 0);
        match verb {
            "anew" => self.make(number),
            "same" if number == "1" => return same(out, &mut self.first, &mut self.sure),
            "same" => return same(out, &mut self.second, &mut self.sure),
            "kept" => return self.count(columns),
            "found" => {
                out.number("  found: ", self.count);
                out.word("\n");
            }
            _ => return self.ask(out, verb, number, columns.get(1..).unwrap_or(&[])),
        }
        Ok(())
    }
}
