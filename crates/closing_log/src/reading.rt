//! A log read back from its text.

ghost use Rattle.std.specs.Prelude.{◌≡◌, ◌≤◌, ◌+◌, ◌-◌, drop, length, IfErr, IfOk, MatchResult};
ghost use Rattle.std.specs.List.{list_all, prefix_len};
ghost use Rattle.closing_log.specs.declared.fault.LogTextFault.TheVariants as faults;
ghost use Rattle.closing_log.specs.Gives.{Gives, IsLogTextFault, Reads, Agrees};
ghost use Rattle.closing_log.specs.Log.{PlainLog};
ghost use Rattle.closing_log.specs.LogText.{IsLogText};
ghost use Rattle.closing_log.specs.Reading.{answer_at, closing_at, head_at, is_letter, letters_at, log_at, part_at, section_rest};

use crate::fault::{LineFault, LogTextFault};
use crate::lines::{read_choice, read_digest, read_number, read_places, read_word};
use crate::log::{LogText, OpenSection, Section, Stage};
use crate::part::{Head, Lead, Part};
use fund_base::Places;
use std::alloc::Global;

/// The line of a section behind its first word, and the word before its letters.
fn read_head(bytes: &[u8]) -> Result<(Head, &[u8]), &[u8]>
    ensures { Reads (λ x. (x.0, x.1.now)) result (head_at bytes.now) }
{
    let ((row, _), rest) = read_number(bytes, 255, b" ")?;
    let (stage, rest) = read_choice(rest, &[Stage::Changeless, Stage::LeanBig, Stage::LeanSmall])?;
    let rest = read_word(rest, b" ")?;
    let (digest, rest) = read_digest(rest)?;
    let rest = read_word(rest, b"\ntokens ")?;
    let head = Head {
        row: row as u8,
        stage,
        digest,
    };
    Ok((head, rest))
}

/// Whether a byte can be a letter: it is from 33 to 126.
fn is_letter_byte(byte: u8) -> bool
    ensures { result ≡ is_letter byte }
{
    (33..=126).contains(&byte)
}

/// How many bytes are tested together.
const BLOCK: usize = 64;

/// Whether all bytes can be letters. No branch hangs on a byte.
#[tactic(auto, using(std::proofs::lemmas::List::Folds::list_all_more))]
fn are_letters(bytes: &[u8]) -> bool
    ensures { result ≡ list_all is_letter bytes.now }
{
    let mut all = true;
    for byte in bytes {
        all &= is_letter_byte(*byte);
    }
    all
}

/// The length of the whole blocks in front that have letters alone.
fn blocks_len(bytes: &[u8]) -> usize
    ensures within { result ≤ length bytes.now }
    ensures letters { result + prefix_len is_letter (drop result bytes.now) ≡ prefix_len is_letter bytes.now }
{
    let mut front = 0;
    while bytes.len() - front >= BLOCK {
        if !are_letters(&bytes[front..front + BLOCK]) {
            return front;
        }
        front += BLOCK;
    }
    front
}

/// How many letters stand in front, counted one by one.
#[tactic(auto, using(crate::proofs::Loops::prefix_found, crate::proofs::Loops::prefix_whole))]
fn single_letters_len(bytes: &[u8]) -> usize
    ensures within { result ≤ length bytes.now }
    ensures value { result ≡ prefix_len is_letter bytes.now }
{
    for (i, byte) in bytes.iter().enumerate() {
        if !is_letter_byte(*byte) {
            return i;
        }
    }
    bytes.len()
}

/// How many letters stand in front.
fn letters_len(bytes: &[u8]) -> usize
    ensures within { result ≤ length bytes.now }
    ensures value { result ≡ prefix_len is_letter bytes.now }
{
    let front = blocks_len(bytes);
    front + single_letters_len(&bytes[front..])
}

/// Letters up to the end of the bytes, or some letters and a line feed; whether it was the line feed.
#[tactic(auto, unfolding(crate::specs::Reading::letters_end))]
fn read_letters(bytes: &[u8]) -> Result<((&[u8], bool), &[u8]), &[u8]>
    ensures { Reads (λ x. ((x.0.0.now, x.0.1), x.1.now)) result (letters_at bytes.now) }
{
    let (letters, rest) = bytes.split_at(letters_len(bytes));
    match rest {
        [] => Ok(((letters, false), rest)),
        [b'\n', after @ ..] if !letters.is_empty() => Ok(((letters, true), after)),
        _ => Err(rest),
    }
}

/// Places or `none`, up to a line feed.
#[tactic(auto, unfolding(crate::specs::Reading::answer_at))]
fn read_answer(alloc: Global, bytes: &[u8]) -> Result<(Option<Places>, &[u8]), LineFault<'_>>
    ensures { Gives (λ x. (x.0, x.1.now)) result (answer_at bytes.now) }
{
    match bytes {
        [] => Err(LineFault::Form(bytes)),
        [b'n', ..] => {
            let rest = read_word(bytes, b"none\n")?;
            Ok((None, rest))
        }
        _ => {
            let (places, rest) = read_places(alloc, bytes)?;
            Ok((Some(Places::new(places)), rest))
        }
    }
}

/// The line of the answer, and the section that it closes.
fn read_closing<'a>(
    alloc: Global,
    head: Head,
    letters: &[u8],
    bytes: &'a [u8],
) -> Result<(Part, &'a [u8]), LineFault<'a>>
    ensures { Gives (λ x. (x.0, x.1.now)) result (closing_at head letters.now bytes.now) }
{
    let rest = read_word(bytes, b"answer ")?;
    let (answer, rest) = read_answer(alloc, rest)?;
    let section = Section {
        row: head.row,
        stage: head.stage,
        digest: head.digest,
        tokens: Vec::from_slice(alloc, letters)?,
        answer,
    };
    Ok((Part::Closed(section), rest))
}

/// A section behind its head.
fn read_section(alloc: Global, head: Head, bytes: &[u8]) -> Result<(Part, &[u8]), LineFault<'_>>
    ensures { Gives (λ x. (x.0, x.1.now)) result (section_rest head bytes.now) }
{
    let ((letters, closed), rest) = read_letters(bytes)?;
    if closed {
        return read_closing(alloc, head, letters, rest);
    }
    let section = OpenSection {
        row: head.row,
        stage: head.stage,
        digest: head.digest,
        tokens: Vec::from_slice(alloc, letters)?,
    };
    Ok((Part::Open(section), rest))
}

/// The next part of a log's text.
#[tactic(auto, unfolding(crate::specs::Reading::part_at))]
fn read_part(alloc: Global, bytes: &[u8]) -> Result<(Part, &[u8]), LineFault<'_>>
    ensures { Gives (λ x. (x.0, x.1.now)) result (part_at bytes.now) }
{
    let (lead, rest) = read_choice(bytes, &[Lead::Ends, Lead::Begins])?;
    match lead {
        Lead::Ends => match rest {
            [] => Ok((Part::End, rest)),
            _ => Err(LineFault::Form(rest)),
        },
        Lead::Begins => {
            let (head, rest) = read_head(rest)?;
            read_section(alloc, head, rest)
        }
    }
}

/// The fault of a text whose reading stops where these bytes are left.
fn form(whole: &[u8], stop: &[u8], sections: usize) -> LogTextFault
    ensures { result ≡ faults.Form (length whole.now - length stop.now) sections }
{
    LogTextFault::Form {
        place: whole.len().saturating_sub(stop.len()) as u64,
        sections: sections as u64,
    }
}

/// The log of the bytes, read part by part.
#[tactic(auto, using(crate::proofs::LogLaws::tell_word, crate::proofs::LogLaws::log_begins, crate::proofs::LogLaws::tell_part, crate::proofs::LogLaws::tell_out, crate::proofs::LogLaws::tell_end, crate::proofs::LogLaws::tell_open, crate::proofs::Loops::body_more))]
fn read_parts(alloc: Global, bytes: &[u8]) -> Result<LogText, LogTextFault>
    ensures { Agrees bytes.now result (log_at bytes.now) }
{
    let mut rest = match read_word(bytes, b"fund-log 1\n") {
        Ok(rest) => rest,
        Err(stop) => return Err(form(bytes, stop, 0)),
    };
    let mut closed = Vec::new(alloc);
    for _ in 0..rest.len() {
        let (part, after) = match read_part(alloc, rest) {
            Ok(read) => read,
            Err(LineFault::Form(stop)) => return Err(form(bytes, stop, closed.len())),
            Err(LineFault::Memory) => return Err(LogTextFault::Memory),
        };
        rest = after;
        match part {
            Part::End => {
                return Ok(LogText {
                    closed,
                    tail: None,
                    ended: true,
                });
            }
            Part::Open(section) => {
                return Ok(LogText {
                    closed,
                    tail: Some(section),
                    ended: false,
                });
            }
            Part::Closed(section) => closed.push(section)?,
        }
    }
    Err(form(bytes, rest, closed.len()))
}

/// The log of which the bytes are a text, digests in either case. [`LogTextFault::Form`] exactly where they are no
/// text of a log: at the first byte at which no text goes on as the bytes do, or at their length where they end too
/// early.
#[tactic(auto, using(crate::proofs::LogLaws::tells_found, crate::proofs::LogLaws::tells_only, crate::proofs::LogLaws::tells_fault))]
pub fn read_sections(alloc: Global, bytes: &[u8]) -> Result<LogText, LogTextFault>
    // What is read is a log of which the bytes are a text, and such a text is read.
    ensures found { IfOk result (λ log. IsLogText bytes.now log) }
    ensures only { (log : PlainLog) → IsLogText bytes.now log → MatchResult result (λ read. read ≡ log) (λ e. e ≡ faults.Memory) }

    // Where else they leave the texts, and how many sections stand before that place.
    ensures fault { IfErr result (IsLogTextFault bytes.now) }
{
    read_parts(alloc, bytes)
}
