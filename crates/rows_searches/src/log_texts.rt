//! Logs, in words and as texts.

use closing_log::{
    LogText, LogTextFault, OpenSection, Section, Stage, Worded, read_sections, write_sections,
    write_tail,
};
use fund_base::Memory;
use row_columns::{Answer, places_of};

/// Puts a word, and the row, the stage, the digest and the letters of a section; `-` where it has no letters.
fn put_search(out: &mut Answer, word: &str, row: u8, stage: Stage, digest: &[u8], letters: &[u8]) {
    out.number(word, u64::from(row));
    out.word(" ");
    out.word(stage.word());
    out.digits(" ", digest);
    out.word(" tokens ");
    out.put(letters);
    out.word(if letters.is_empty() { "-" } else { "" });
}

/// Puts a search that is done.
pub(crate) fn put_closed(out: &mut Answer, closed: &Section) {
    let (digest, letters) = (closed.digest.as_slice(), closed.tokens.as_slice());
    put_search(out, "", closed.row, closed.stage, digest, letters);
    out.best(" answer ", places_of(&closed.answer));
}

/// Puts a search that goes on.
pub(crate) fn put_open(out: &mut Answer, open: &OpenSection) {
    let (digest, letters) = (open.digest.as_slice(), open.tokens.as_slice());
    put_search(out, "open ", open.row, open.stage, digest, letters);
}

/// Puts the sections of a log that was read from these bytes, each with `; ` after it, and `end` or the section that goes on;
/// then what is written of it. The error is out of memory.
fn put_read(out: &mut Answer, bytes: &[u8], log: &LogText) -> Result<(), Memory> {
    for closed in &log.closed {
        put_closed(out, closed);
        out.word("; ");
    }
    match &log.tail {
        Some(open) => put_open(out, open),
        None => out.word("end"),
    }
    let text = write_sections(out.alloc, log)?;
    out.again(bytes, &text);
    if !log.ended {
        let from = (text.len() as u64).saturating_sub(3);
        out.bytes("\ntail ", write_tail(out.alloc, log, from));
    }
    Ok(())
}

/// Reads a log. The error is out of memory.
pub(crate) fn log(out: &mut Answer, bytes: &[u8]) -> Result<(), Memory> {
    match read_sections(out.alloc, bytes) {
        Ok(log) => put_read(out, bytes, &log),
        Err(LogTextFault::Form { place, sections }) => {
            out.number("Form ", place);
            out.number(" ", sections);
            Ok(())
        }
        Err(LogTextFault::Memory) => Err(Memory),
    }
}
