//! Rows of texts: `text VERB TEXT`. In a text `\n`, `\t` and `\\` are a line feed, a tab and a backslash, `\xHH` is the byte HH,
//! and `-` alone is no byte.
//!
//! - `word`, `stage`, `number`, `digest`, `places`: what a reader of a log's lines reads, and how many bytes are left, of the
//!   word `tries `, the stages `lean-big` and `lean-small`, and a number of at most 255 that a line feed ends
//! - `log`: the log, or where the text leaves the grammar and how many sections stand before that place; after a log the text
//!   that is written of it, where that is another one, and the last three bytes of a log that goes on, written as what stands
//!   after the others
//! - `saved`: the saved position, and below it what is written of it, where that is another text; or where the text leaves the
//!   grammar

use crate::log_texts::log;
use crate::saved_texts::saved;
use closing_log::{
    LineFault, Stage, Worded, read_choice, read_digest, read_number, read_places, read_word,
    write_digest, write_places,
};
use fund_base::Memory;
use row_columns::{Answer, column, unescaped};

/// Puts how many bytes are left where no part of a text is read.
fn put_left(out: &mut Answer, name: &str, stop: &[u8]) {
    out.number(name, stop.len() as u64);
    out.word(" left");
}

/// Puts how many bytes stand behind a part of a text.
fn put_behind(out: &mut Answer, rest: &[u8]) {
    out.number(", ", rest.len() as u64);
    out.word(" behind it");
}

/// Reads a word.
fn put_word(out: &mut Answer, bytes: &[u8]) {
    match read_word(bytes, b"tries ") {
        Ok(rest) => {
            out.word("word");
            put_behind(out, rest);
        }
        Err(stop) => put_left(out, "no word, ", stop),
    }
}

/// Reads a stage.
fn put_stage(out: &mut Answer, bytes: &[u8]) {
    match read_choice(bytes, &[Stage::LeanBig, Stage::LeanSmall]) {
        Ok((stage, rest)) => {
            out.word(stage.word());
            put_behind(out, rest);
        }
        Err(stop) => put_left(out, "no stage, ", stop),
    }
}

/// Reads a number and what ends it.
fn put_number(out: &mut Answer, bytes: &[u8]) {
    match read_number(bytes, 255, b"\n") {
        Ok(((number, end), rest)) => {
            out.number("", number);
            out.number(" and ", u64::from(end));
            put_behind(out, rest);
        }
        Err(stop) => put_left(out, "no number, ", stop),
    }
}

/// Reads a digest, and puts the length and the first digit of what is written of it. The error is out of memory.
fn put_digest(out: &mut Answer, bytes: &[u8]) -> Result<(), Memory> {
    let read = match read_digest(bytes) {
        Ok(read) => read,
        Err(stop) => {
            put_left(out, "no digest, ", stop);
            return Ok(());
        }
    };
    let (digest, rest) = read;
    let mut text = Vec::new(out.alloc);
    write_digest(&mut text, &digest)?;
    out.number("", text.len() as u64);
    out.word(" digits, the first ");
    out.put(text.get(..1).unwrap_or(b"-"));
    put_behind(out, rest);
    Ok(())
}

/// Reads places, and puts the length of what is written of them and of the number of bytes behind them. The error is out of
/// memory.
fn put_places(out: &mut Answer, bytes: &[u8]) -> Result<(), Memory> {
    match read_places(out.alloc, bytes) {
        Ok((places, rest)) => {
            let mut text = Vec::new(out.alloc);
            write_places(&mut text, places.as_slice())?;
            let mut behind = Answer::new(out.alloc);
            behind.number("", rest.len() as u64);
            let length = text.len().saturating_add(behind.text().len());
            out.number("", places.len() as u64);
            out.number(" places in ", length as u64);
            out.word(" bytes");
        }
        Err(LineFault::Form(stop)) => put_left(out, "no places, ", stop),
        Err(LineFault::Memory) => return Err(Memory),
    }
    Ok(())
}

/// Puts what a verb comes to at a text. The error is out of memory.
fn at_text(out: &mut Answer, verb: &str, bytes: &[u8]) -> Result<(), Memory> {
    match verb {
        "word" => put_word(out, bytes),
        "stage" => put_stage(out, bytes),
        "number" => put_number(out, bytes),
        "digest" => return put_digest(out, bytes),
        "places" => return put_places(out, bytes),
        "log" => return log(out, bytes),
        _ => return saved(out, bytes),
    }
    Ok(())
}

/// Puts what a row of a text comes to. The error is out of memory.
pub(crate) fn text_row(out: &mut Answer, columns: &[&str]) -> Result<(), Memory> {
    let bytes = unescaped(out.alloc, column(columns, 1).as_bytes())?;
    at_text(out, column(columns, 0), &bytes)
}
