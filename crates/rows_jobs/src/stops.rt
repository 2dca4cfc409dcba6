//! Rows of saves that are stopped: `stops NAME CLOSED SHORT SAVE MADE ..`, a save that is stopped at each change of the files, and
//! those that were made before. The words of a save are `JOB/FIRST/TEXT/COUNT/SAVED`. `closed` says that the files were closed after
//! the saves that were made, and `short` that the log is copied, and pages are written to it, after two pages each.
//!
//! It prints a line for each stop, and what all of them were found to leave.

use crate::findings::{Due, Findings, Found};
use crate::machine::{Machine, MachineFile};
use crate::saves::{held, keep_all};
use crate::tables::{Step, Work, run};
use fund_outside::{KeepFault, SureKeeper};
use row_columns::{Answer, column};
use sqlite::{Files, Options};
use std::alloc::{AllocError, Global};

/// More changes than any of the runs makes.
const MOST: u64 = 1000;

/// How files are opened, so that few pages are kept in memory.
fn few_pages() -> Options {
    let mut options = Options::new(7);
    options.cache_pages = 20;
    options
}

fn options_of(is_short: bool) -> Options {
    let mut options = few_pages();
    if is_short {
        options.spill_pages = 2;
        options.checkpoint_frames = 2;
    }
    options
}

/// Files of the machine that hold these bytes.
fn files_of<'a>(
    alloc: Global,
    machine: &'a Machine,
    log: &[u8],
    file: &[u8],
) -> Result<Files<MachineFile<'a>>, AllocError> {
    let log = MachineFile::new(alloc, machine, true, log)?;
    let db = MachineFile::new(alloc, machine, false, file)?;
    Ok(Files { log, db })
}

/// What is to be kept before a save and after it, by those that were made before.
fn due_of(alloc: Global, save: &[&str], made: &[&str]) -> Result<Due, KeepFault> {
    let mut sure = SureKeeper::new(alloc);
    keep_all(alloc, &mut sure, made)?;
    let before = held(alloc, &mut sure, &["a"])?;
    let other = held(alloc, &mut sure, &["b"])?;
    keep_all(alloc, &mut sure, save)?;
    let after = held(alloc, &mut sure, &["a"])?;
    Ok(Due {
        before,
        after,
        other,
    })
}

/// What lies in the log and in the file of a database.
#[derive(Drop)]
struct Image {
    log: Vec<u8>,
    file: Vec<u8>,
}

/// The files after the saves that were made.
fn start_of(alloc: Global, made: &[&str], is_closed: bool) -> Result<Image, AllocError> {
    if made.is_empty() {
        return Ok(Image {
            log: Vec::new(alloc),
            file: Vec::new(alloc),
        });
    }
    let machine = Machine::new(u64::MAX);
    let files = files_of(alloc, &machine, &[], &[])?;
    let mut work = Work {
        due: None,
        is_closed,
        found: Found::nothing(),
    };
    let (_, files) = run(alloc, files, few_pages(), made, &mut work);
    let log = Vec::from_slice(alloc, files.log.written())?;
    let file = Vec::from_slice(alloc, files.db.written())?;
    Ok(Image { log, file })
}

/// What is found in files that are opened anew.
fn found_in(alloc: Global, log: &[u8], file: &[u8], due: &Due) -> Result<Found, AllocError> {
    let machine = Machine::new(u64::MAX);
    let files = files_of(alloc, &machine, log, file)?;
    let mut work = Work {
        due: Some(due),
        is_closed: false,
        found: Found::nothing(),
    };
    let _ = run(alloc, files, few_pages(), &[], &mut work);
    let Work {
        due: _,
        is_closed: _,
        found,
    } = work;
    Ok(found)
}

/// Puts what a stop leaves in files, and takes it into the findings.
fn put_found(out: &mut Answer, findings: &mut Findings, step: &Step, word: &str, found: &Found) {
    out.word(word);
    out.word(found.word());
    findings.add(step, found);
}

/// Puts what a stop leaves: in all that was written, in that with half of the write that was refused, and in what was made to last.
fn put_stop(
    out: &mut Answer,
    findings: &mut Findings,
    step: &Step,
    files: &Files<MachineFile<'_>>,
    due: &Due,
) -> Result<(), KeepFault> {
    let (log, file) = (&files.log, &files.db);
    let written = found_in(out.alloc, log.written(), file.written(), due)?;
    put_found(out, findings, step, ": ", &written);
    let torn = found_in(out.alloc, log.torn(), file.torn(), due)?;
    put_found(out, findings, step, ", ", &torn);
    let lasting = found_in(out.alloc, log.lasting(), file.lasting(), due)?;
    put_found(out, findings, step, ", ", &lasting);
    out.word("\n");
    Ok(())
}

/// Stops a run of a save after so many changes, and puts what that leaves. Says whether the run ended by itself.
fn stop(
    out: &mut Answer,
    findings: &mut Findings,
    changes: u64,
    start: &Image,
    due: &Due,
    columns: &[&str],
) -> Result<bool, KeepFault> {
    let machine = Machine::new(changes);
    let files = files_of(out.alloc, &machine, &start.log, &start.file)?;
    let options = options_of(column(columns, 2) == "short");
    let save = columns.get(3..4).unwrap_or(&[]);
    let mut work = Work {
        due: None,
        is_closed: true,
        found: Found::nothing(),
    };
    let (step, files) = run(out.alloc, files, options, save, &mut work);
    out.number("  ", changes);
    out.word(" ");
    out.word(step.word());
    out.word(", ");
    out.word(machine.refused());
    put_stop(out, findings, &step, &files, due)?;
    Ok(matches!(step, Step::Done))
}

/// Stops a run of the row's save at each change.
pub(crate) fn row(out: &mut Answer, columns: &[&str]) -> Result<(), KeepFault> {
    out.word(column(columns, 0));
    out.word("\n");
    let made = columns.get(4..).unwrap_or(&[]);
    let start = start_of(out.alloc, made, column(columns, 1) == "closed")?;
    let due = due_of(out.alloc, columns.get(3..4).unwrap_or(&[]), made)?;
    let mut findings = Findings::new();
    for changes in 0..MOST {
        match stop(out, &mut findings, changes, &start, &due, columns) {
            Ok(true) => break,
            Ok(false) => {}
            Err(fault) => return Err(fault),
        }
    }
    findings.put(out);
    Ok(())
}
