//! Jobs as one string of bytes, in hex.
//!
//! - `packed read BYTES`: the saved text and the parts of the job that the bytes are, or the fault; and the job's packed form where
//!   it is other bytes
//! - `packed write SAVED PART ..`: the packed form of a job
//! - `packed keep NAME=BYTES ..`: a line for each: whether the job was kept, then the packed form of what is kept under the name

use fund_base::Memory;
use fund_outside::SureKeeper;
use packed_jobs::{Job, PackFault, keep_packed, packed_in, read_job, write_job};
use row_columns::{Answer, bytes_in, column};

fn put_fault(out: &mut Answer, fault: PackFault) {
    match fault {
        PackFault::Truncated(place) => out.number("Truncated ", place),
        PackFault::LongCompact(place) => out.number("LongCompact ", place),
        PackFault::Parts => out.word("Parts"),
        PackFault::Trailing(place) => out.number("Trailing ", place),
        PackFault::Memory => out.lack(),
    }
}

/// Puts a job that was read from these bytes.
fn put_job(out: &mut Answer, bytes: &[u8], job: &Job) -> Result<(), Memory> {
    out.digits("saved ", &job.saved);
    for part in job.parts.as_slice() {
        out.digits(" part ", part.as_slice());
    }
    let packed = write_job(out.alloc, job)?;
    if packed.as_slice() != bytes {
        out.digits("\npacked ", &packed);
    }
    Ok(())
}

/// Puts what the bytes are read as. The error is out of memory.
fn read(out: &mut Answer, bytes: &[u8]) -> Result<(), Memory> {
    match read_job(out.alloc, bytes) {
        Ok(job) => put_job(out, bytes, &job),
        Err(fault) => {
            put_fault(out, fault);
            Ok(())
        }
    }
}

/// Puts the packed form of a job. The error is out of memory.
fn write(out: &mut Answer, columns: &[&str]) -> Result<(), Memory> {
    let saved = bytes_in(out.alloc, column(columns, 0));
    let mut parts = Vec::new(out.alloc);
    for number in 1..columns.len() {
        parts.push(bytes_in(out.alloc, column(columns, number)))?;
    }
    let packed = write_job(out.alloc, &Job { saved, parts })?;
    out.digits("", &packed);
    Ok(())
}

/// Keeps a job of a word `NAME=BYTES`, and puts how that ended.
fn keep_one(out: &mut Answer, keeper: &mut SureKeeper, word: &str) {
    let (name, digits) = word.split_once('=').unwrap_or((word, ""));
    out.word(name);
    out.word(": ");
    match keep_packed(out.alloc, keeper, name, &bytes_in(out.alloc, digits)) {
        Ok(()) => out.word("kept"),
        Err(fault) => put_fault(out, fault),
    }
    out.written(", packed ", packed_in(out.alloc, keeper, name));
    out.word("\n");
}

/// Keeps the jobs of these columns, and puts how each ended.
fn keep(out: &mut Answer, columns: &[&str]) {
    let mut keeper = SureKeeper::new(out.alloc);
    for number in 0..columns.len() {
        keep_one(out, &mut keeper, column(columns, number));
    }
}

/// Puts what a row comes to. The error is out of memory.
pub(crate) fn row(out: &mut Answer, verb: &str, columns: &[&str]) -> Result<(), Memory> {
    match verb {
        "read" => {
            let bytes = bytes_in(out.alloc, column(columns, 0));
            read(out, &bytes)
        }
        "write" => write(out, columns),
        _ => {
            keep(out, columns);
            Ok(())
        }
    }
}
