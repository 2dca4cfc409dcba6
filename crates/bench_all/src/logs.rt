//! Makes a log of 30,000,021 letters in 21 sections, writes its text and reads it back. Told are how many bytes the
//! text has, how many sections were read, and whether the letters are those of the log; if asked to, how long each took
//! too.

use closing_log::{LogText, Section, Stage, read_sections, write_sections};
use fund_base::{Memory, Places};
use row_columns::Answer;
use std::alloc::Global;
use std::io;
use std::time::Instant;

/// The letters of a closing tree.
const LETTERS: [u8; 10] = *b"ITSOHMWLFA";

/// So many letters.
fn letters(alloc: Global, count: usize) -> Result<Vec<u8>, Memory> {
    let mut letters = Vec::with_capacity(alloc, count)?;
    for place in 0..count {
        letters.push(LETTERS[place % 10])?;
    }
    Ok(letters)
}

/// A section of so many letters.
fn section(alloc: Global, row: u8, count: usize) -> Result<Section, Memory> {
    let tokens = letters(alloc, count)?;
    let places = Vec::from_slice(alloc, &[u32::from(row)])?;
    Ok(Section {
        row,
        stage: Stage::LeanSmall,
        digest: [row; 32],
        tokens,
        answer: Some(Places::new(places)),
    })
}

/// Puts sections of 1,500,000 letters behind others, and one of 21.
fn put_sections(alloc: Global, closed: &mut Vec<Section>) -> Result<(), Memory> {
    for row in 1..=20 {
        closed.push(section(alloc, row, 1_500_000)?)?;
    }
    closed.push(section(alloc, 21, 21)?)?;
    Ok(())
}

/// Twenty sections of 1,500,000 letters, and one of 21.
fn made(alloc: Global) -> Result<LogText, Memory> {
    let mut closed = Vec::new(alloc);
    put_sections(alloc, &mut closed)?;
    Ok(LogText {
        closed,
        tail: None,
        ended: true,
    })
}

/// Whether these are the letters that a section was made with.
fn are_made(letters: &[u8]) -> bool {
    for place in 0..letters.len() {
        if letters[place] != LETTERS[place % 10] {
            return false;
        }
    }
    true
}

/// Whether each section has the letters that it was made with.
fn is_whole(log: &LogText) -> bool {
    let mut count = 0;
    for section in &log.closed {
        if !are_made(&section.tokens) {
            return false;
        }
        count = section.tokens.len().saturating_add(count);
    }
    count == 30_000_021
}

/// Puts what was read, and tells whether it is the log that was made.
fn put_log(out: &mut Answer, text: &[u8], log: &LogText) -> bool {
    let whole = is_whole(log);
    out.number("", text.len() as u64);
    out.number(" bytes, ", log.closed.len() as u64);
    out.flag(" sections, ", whole);
    out.word("\n");
    whole
}

/// Reads the text, and puts what was read and, if asked to, how long that and the writing took.
fn read(
    rt: &HostRuntime,
    out: &mut Answer,
    text: &[u8],
    timed: bool,
    writing: u128,
) -> io::Result<bool> {
    let start = Instant::now(rt)?;
    let Ok(log) = read_sections(out.alloc, text) else {
        out.word("the text wasn't read\n");
        return Ok(false);
    };
    let reading = start.elapsed(rt)?.as_micros();
    if timed {
        out.large("written in ", writing);
        out.large(" us, read in ", reading);
        out.word(" us\n");
    }
    Ok(put_log(out, text, &log))
}

/// The text of the log, which is then let go. The error is out of memory.
fn written(alloc: Global, log: LogText) -> Result<Vec<u8>, Memory> {
    write_sections(alloc, &log)
}

/// Writes the log, which is then let go, and reads its text.
pub(crate) fn write_and_read(rt: &HostRuntime, out: &mut Answer, timed: bool) -> io::Result<bool> {
    let Ok(log) = made(out.alloc) else {
        out.lack();
        return Ok(false);
    };
    let start = Instant::now(rt)?;
    let Ok(text) = written(out.alloc, log) else {
        out.lack();
        return Ok(false);
    };
    let writing = start.elapsed(rt)?.as_micros();
    read(rt, out, &text, timed, writing)
}
