//! Jobs that are kept in memory: `keeper LOADS PARTS SAVES CALL ..`, a line for each call. The loads, parts and saves of
//! these numbers, counted from 0 with blanks between them, fail; where all three are `sure`, nothing can fail. The words of a
//! call have `=` between them.
//!
//! - `load=JOB`: the saved text of a job
//! - `part=JOB=NUMBER`: a part of it
//! - `save=JOB=FIRST=PART=SAVED`: saves a part behind so many first parts

use fund_base::Memory;
use fund_outside::{KeepFault, Keeper, MemKeeper, SureKeeper};
use row_columns::{Answer, column, numbers_in, short_in};

/// Puts what a call answered in place of bytes.
fn put_fault(out: &mut Answer, fault: KeepFault) {
    out.word(match fault {
        KeepFault::Failed => "failed",
        KeepFault::Memory => "memory",
    });
}

/// Puts bytes that were asked for.
fn put_found(out: &mut Answer, columns: &[&str], found: Result<Option<Vec<u8>>, KeepFault>) {
    out.word(column(columns, 0));
    out.word(" ");
    out.word(column(columns, 1));
    out.word(": ");
    match found {
        Ok(Some(bytes)) => out.put(&bytes),
        Ok(None) => out.word("none"),
        Err(fault) => put_fault(out, fault),
    }
}

/// Puts what a save of these words answered.
fn put_saved(out: &mut Answer, columns: &[&str], saved: Result<(), KeepFault>) {
    for number in 0..columns.len() {
        out.word(column(columns, number));
        out.word(" ");
    }
    match saved {
        Ok(()) => out.word("done"),
        Err(fault) => put_fault(out, fault),
    }
}

/// Does a call of these words, and puts what it answered.
fn call<K: Keeper>(out: &mut Answer, keeper: &mut K, columns: &[&str]) {
    let (job, number) = (column(columns, 1), short_in(column(columns, 2)));
    match column(columns, 0) {
        "load" => put_found(out, columns, keeper.load(job)),
        "part" => put_found(out, columns, keeper.part(job, number)),
        _ => {
            let (part, saved) = (column(columns, 3).as_bytes(), column(columns, 4).as_bytes());
            put_saved(out, columns, keeper.save(job, number, part, saved));
        }
    }
}

/// Does the calls of the columns behind the first two, and puts what they answered, a line each. The error is out of memory.
fn put_calls<K: Keeper>(out: &mut Answer, keeper: &mut K, columns: &[&str]) -> Result<(), Memory> {
    for number in 2..columns.len() {
        out.word(if number > 2 { "\n" } else { "" });
        let words: Vec<&str> = column(columns, number).split('=').collect(out.alloc)?;
        call(out, keeper, &words);
    }
    Ok(())
}

/// Puts what a row comes to in which the loads of these numbers fail. The error is out of memory.
pub(crate) fn row(out: &mut Answer, loads: &str, columns: &[&str]) -> Result<(), Memory> {
    if loads == "sure" {
        let mut keeper = SureKeeper::new(out.alloc);
        return put_calls(out, &mut keeper, columns);
    }
    let loads = numbers_in(out.alloc, loads)?;
    let parts = numbers_in(out.alloc, column(columns, 0))?;
    let saves = numbers_in(out.alloc, column(columns, 1))?;
    let mut keeper = MemKeeper::new(out.alloc, loads, parts, saves);
    put_calls(out, &mut keeper, columns)
}
