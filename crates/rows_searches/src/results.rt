//! What runs and selections come to.

use closing_log::Worded;
use fund_base::Memory;
use row_columns::{Answer, column, places_in};
use search_run::{End, Found, Step, choose};
use std::alloc::Global;

/// Puts a word and a result.
fn put_found(out: &mut Answer, word: &str, found: &Found) {
    out.word(word);
    out.number("row ", u64::from(found.row));
    out.word(", stage ");
    out.word(found.stage.word());
    out.places(", places ", found.places.as_slice());
    out.signed(", waste ", found.waste);
    out.number(", coins ", u64::from(found.coins));
}

/// Puts what a run comes to.
pub(crate) fn put_end(out: &mut Answer, end: &End) {
    match end {
        End::Unfinished => out.word("unfinished"),
        End::Ended(None) => out.word("ended none"),
        End::Ended(Some(found)) => put_found(out, "ended ", found),
        End::Partial(found) => put_found(out, "partial ", found),
    }
}

/// Puts these places after others as a result of a step. It answers whether they are admissible.
fn put_in(
    alloc: Global,
    results: &mut Vec<Found>,
    step: &Step,
    column: &str,
) -> Result<bool, Memory> {
    let places = places_in(alloc, column)?;
    let problem = step.problem();
    if !problem.are_places(&places) || !problem.admissible(&places) {
        return Ok(false);
    }
    results.push(Found::new(alloc, step, &places)?)?;
    Ok(true)
}

/// Puts the selections of the columns behind the first after others as results of a step. It answers whether all are admissible.
fn put_all_in(
    alloc: Global,
    results: &mut Vec<Found>,
    step: &Step,
    columns: &[&str],
) -> Result<bool, Memory> {
    for number in 1..columns.len() {
        if !put_in(alloc, results, step, column(columns, number))? {
            return Ok(false);
        }
    }
    Ok(true)
}

/// Puts the result that is taken, and those that it beats.
fn put_taken(out: &mut Answer, taken: &Found, results: &[Found]) {
    put_found(out, "taken ", taken);
    for result in results {
        if taken.beats(result) {
            out.places("; beats ", result.places.as_slice());
        }
    }
}

/// Puts which of these results is taken. The error is out of memory.
fn put_choice(out: &mut Answer, results: &[Found]) -> Result<(), Memory> {
    match choose(results) {
        Some(taken) => {
            let taken = taken.copy(out.alloc)?;
            put_taken(out, &taken, results);
        }
        None => out.word("taken none"),
    }
    Ok(())
}

/// Puts these selections into a list, and puts which of them is taken. The error is out of memory.
fn put_among(
    out: &mut Answer,
    results: &mut Vec<Found>,
    step: &Step,
    columns: &[&str],
) -> Result<(), Memory> {
    if !put_all_in(out.alloc, results, step, columns)? {
        out.word("not admissible");
        return Ok(());
    }
    put_choice(out, results.as_slice())
}

/// Puts which of these selections is taken, and which of them it beats. The error is out of memory.
pub(crate) fn put_chosen(out: &mut Answer, step: &Step, columns: &[&str]) -> Result<(), Memory> {
    let mut results = Vec::new(out.alloc);
    put_among(out, &mut results, step, columns)
}
