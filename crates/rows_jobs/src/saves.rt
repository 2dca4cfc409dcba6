//! Saves of jobs, and all that a keeper holds of some jobs as one text, by which what two keepers hold is compared.

use fund_outside::{KeepFault, Keeper};
use row_columns::{Answer, column, number_in, short_in};
use std::alloc::{AllocError, Global};

/// A yes or a no.
pub(crate) fn say(holds: bool) -> &'static str {
    if holds { "yes" } else { "no" }
}

/// Puts a line of a label and a word; none without a label.
pub(crate) fn put_line(out: &mut Answer, label: &str, word: &str) {
    if !label.is_empty() {
        out.word("  ");
        out.word(label);
        out.word(": ");
        out.word(word);
        out.word("\n");
    }
}

/// A text so many times.
pub(crate) fn repeated(alloc: Global, text: &str, count: u64) -> Result<Vec<u8>, KeepFault> {
    let mut bytes = Vec::new(alloc);
    for _ in 0..count {
        bytes.extend_from_slice(text.as_bytes())?;
    }
    Ok(bytes)
}

/// Has a keeper do the save of the words JOB, FIRST, TEXT, COUNT and SAVED: the part is a text so many times.
pub(crate) fn keep<K: Keeper>(
    alloc: Global,
    keeper: &mut K,
    words: &[&str],
) -> Result<(), KeepFault> {
    let part = repeated(alloc, column(words, 2), number_in(column(words, 3), 0))?;
    let (job, first) = (column(words, 0), short_in(column(words, 1)));
    keeper.save(job, first, &part, column(words, 4).as_bytes())
}

/// Has a keeper do saves, whose words have `/` between them, up to the first that fails.
pub(crate) fn keep_all<K: Keeper>(
    alloc: Global,
    keeper: &mut K,
    saves: &[&str],
) -> Result<(), KeepFault> {
    for save in saves {
        let words: Vec<&str> = save.split('/').collect(alloc)?;
        if let Err(fault) = keep(alloc, keeper, &words) {
            return Err(fault);
        }
    }
    Ok(())
}

/// Writes an answer: the bytes in a line, or that there were none.
fn note(text: &mut Vec<u8>, found: &Option<Vec<u8>>) -> Result<(), AllocError> {
    match found {
        Some(bytes) => {
            text.push(b'=')?;
            text.extend_from_slice(bytes.as_slice())?;
        }
        None => text.push(b'-')?,
    }
    text.push(b'\n')?;
    Ok(())
}

/// Writes what a keeper holds of a part of a job.
fn note_part<K: Keeper>(
    keeper: &mut K,
    text: &mut Vec<u8>,
    job: &str,
    number: u32,
) -> Result<(), KeepFault> {
    let part = keeper.part(job, number)?;
    note(text, &part)?;
    Ok(())
}

/// Writes what a keeper holds of a job: its saved text, and its first six parts.
fn note_job<K: Keeper>(keeper: &mut K, text: &mut Vec<u8>, job: &str) -> Result<(), KeepFault> {
    let saved = keeper.load(job)?;
    note(text, &saved)?;
    for number in 0..6 {
        if let Err(fault) = note_part(keeper, text, job, number) {
            return Err(fault);
        }
    }
    Ok(())
}

/// What a keeper holds of jobs, with their first six parts.
pub(crate) fn held<K: Keeper>(
    alloc: Global,
    keeper: &mut K,
    jobs: &[&str],
) -> Result<Vec<u8>, KeepFault> {
    let mut text = Vec::new(alloc);
    for job in jobs {
        if let Err(fault) = note_job(keeper, &mut text, job) {
            return Err(fault);
        }
    }
    Ok(text)
}
