//! A file that lists payments.

use crate::plain::{is_given, show, tell};
use command_end::{Status, refuse_read};
use fund_base::Memory;
use fund_shelf::{FileShelf, ReadError, SureSink, read_whole};
use pay_words::{
    Asked, LineFault, PAY_FILE_LIMIT, line_of, line_words, pay_file_sentence, refused_payment,
};
use std::io;
use std::io::ErrorKind;

/// A file whose lines were read as words behind others.
#[derive(Drop)]
pub struct Listed {
    /// The name of the file.
    pub name: String,
    /// How many words stand before those of its lines.
    pub before: usize,
    /// How many lines it has.
    pub count: usize,
}

/// A line of a file, as it is told: its number is counted from 1.
fn line_text(rt: &HostRuntime, name: &str, number: usize) -> io::Result<String> {
    let number = number.wrapping_add(1);
    Ok(format!(in rt.alloc(); "{}: line {}", name, number)?)
}

/// The line of which the word at this place is, as it is told; none where it is of none.
pub fn line_at(rt: &HostRuntime, listed: &Listed, place: usize) -> io::Result<Option<String>> {
    match line_of(listed.before, place) {
        Some(number) => Ok(Some(line_text(rt, listed.name.as_str(), number)?)),
        None => Ok(None),
    }
}

/// The line for which the request of what is asked is refused, as it is told; none where it is refused for another cause.
pub fn refused_line(
    rt: &HostRuntime,
    listed: &Listed,
    asked: &Asked,
) -> io::Result<Option<String>> {
    let place = match refused_payment(rt.alloc(), asked) {
        Ok(Some(place)) => place,
        Ok(None) => return Ok(None),
        Err(Memory) => return Err(io::Error::from(ErrorKind::OutOfMemory)),
    };
    let before = asked.payments.len().saturating_sub(listed.count);
    match (place as usize).checked_sub(before) {
        Some(number) => Ok(Some(line_text(rt, listed.name.as_str(), number)?)),
        None => Ok(None),
    }
}

/// Says that the file isn't read.
fn refuse_reading(rt: &HostRuntime, words: &[String], name: &str) -> io::Result<u8> {
    let mut out = SureSink::new(rt.alloc());
    let status = refuse_read(name, &mut out);
    show(rt, is_given(words, "--json"), status, out.written())
}

/// Says why the file lists no payments.
fn refuse_lines(
    rt: &HostRuntime,
    words: &[String],
    name: &str,
    fault: LineFault,
) -> io::Result<u8> {
    let status = match fault {
        LineFault::TooLong => Status::Limit,
        LineFault::Memory => Status::Memory,
        _ => Status::Input,
    };
    let json = is_given(words, "--json");
    let sentence = Some(pay_file_sentence(&fault));
    match fault {
        LineFault::NoComma(number) => {
            let about = line_text(rt, name, number)?;
            tell(rt, json, status, about.as_str(), sentence)
        }
        _ => tell(rt, json, status, name, sentence),
    }
}

/// The words of the lines of a file; or the status where it isn't read or is refused, which is said.
pub fn lines_in(
    rt: &HostRuntime,
    words: &[String],
    name: &str,
) -> io::Result<Result<Vec<String>, u8>> {
    let mut shelf = FileShelf::new(rt);
    let read = match read_whole(rt.alloc(), &mut shelf, name, PAY_FILE_LIMIT) {
        Ok(bytes) => line_words(rt.alloc(), &bytes),
        Err(ReadError::Failed) => return Ok(Err(refuse_reading(rt, words, name)?)),
        Err(ReadError::TooLong) => Err(LineFault::TooLong),
        Err(ReadError::Memory) => Err(LineFault::Memory),
    };
    match read {
        Ok(lines) => Ok(Ok(lines)),
        Err(fault) => Ok(Err(refuse_lines(rt, words, name, fault)?)),
    }
}
