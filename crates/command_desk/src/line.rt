//! What a line of a script says.

ghost use Rattle.std.specs.Prelude.{◌≡◌, true, Some, None, option_copied, if◌then◌else◌};
ghost use Rattle.fund_outside.specs.JobName.{is_job_name};
ghost use Rattle.command_desk.specs.Lent.{is_job_verb, plain_line, txid_word};
ghost use Rattle.command_desk.specs.Line.{by_one, by_two, is_file_word, line_of};

use crate::script::next_word;
use fund_base::{MOST_TRIES, Txid, read_decimal};
use fund_outside::is_job_name;
use std::str;

/// A line: a command, with the names of its files; or any other line. A name is that of a job: 1 to 32 letters, digits and
/// hyphens.
#[derive(Clone, Copy)]
pub enum Line<'a> {
    /// `open NAME FILE`: a job for the request in the file.
    Open { name: &'a str, file: &'a str },
    /// `turn NAME TRIES`: 1 to 10,000,000 tries more for a job.
    Turn { name: &'a str, tries: u64 },
    /// `commit NAME`: the payment that a job found.
    Commit { name: &'a str },
    /// `close NAME`: an end to a job.
    Close { name: &'a str },
    /// `release TXID`: the coins of the payment of this txid, which the line shows from its last byte to its first.
    Release { txid: Txid },
    /// `blocks FILE`: the blocks of the file.
    Blocks { file: &'a str },
    /// `pending HEX`: a transaction that waits, as the line has it, whether it is hex or not.
    Pending { hex: &'a [u8] },
    /// No command.
    Other,
}

/// The word, if it is a name.
fn name_of(word: &[u8]) -> Option<&str>
    ensures { option_copied result ≡ (if is_job_name word.now then Some word.now else None) }
{
    if !is_job_name(word) {
        return None;
    }
    match str::from_utf8(word) {
        Ok(name) => Some(name),
        Err(_) => None,
    }
}

/// The word, if it is a file's name.
fn file_of(word: &[u8]) -> Option<&str>
    ensures { option_copied result ≡ (if is_file_word word.now then Some word.now else None) }
{
    if word.is_empty() {
        return None;
    }
    match str::from_utf8(word) {
        Ok(file) => Some(file),
        Err(_) => None,
    }
}

/// The txid that the word shows, from its last byte to its first, if it is 64 hex digits.
fn txid_of(word: &[u8]) -> Option<Txid>
    ensures { result ≡ txid_word word.now }
{
    let mut bytes = [0; 32];
    match hex::decode_to_slice(word, &mut bytes) {
        Ok(()) => {
            bytes.reverse();
            Some(Txid(bytes))
        }
        Err(_) => None,
    }
}

/// The line of a verb and two words.
fn of_two<'a>(verb: &[u8], first: &'a [u8], second: &'a [u8]) -> Line<'a>
    ensures { plain_line result ≡ by_two verb.now first.now second.now }
{
    if verb == b"open".as_slice() {
        match (name_of(first), file_of(second)) {
            (Some(name), Some(file)) => Line::Open { name, file },
            _ => Line::Other,
        }
    } else if verb == b"turn".as_slice() {
        match (name_of(first), read_decimal(second, MOST_TRIES)) {
            (Some(name), Some(tries)) if tries >= 1 => Line::Turn { name, tries },
            _ => Line::Other,
        }
    } else {
        Line::Other
    }
}

/// The line of a verb that names a job, and a word.
fn of_job<'a>(verb: &[u8], word: &'a [u8]) -> Line<'a>
    requires { is_job_verb verb.now ≡ true }
    ensures { plain_line result ≡ by_one verb.now word.now }
{
    match name_of(word) {
        Some(name) if verb == b"commit".as_slice() => Line::Commit { name },
        Some(name) => Line::Close { name },
        None => Line::Other,
    }
}

/// The line of a verb and a word.
fn of_one<'a>(verb: &[u8], word: &'a [u8]) -> Line<'a>
    ensures { plain_line result ≡ by_one verb.now word.now }
{
    if verb == b"commit".as_slice() || verb == b"close".as_slice() {
        of_job(verb, word)
    } else if verb == b"release".as_slice() {
        match txid_of(word) {
            Some(txid) => Line::Release { txid },
            None => Line::Other,
        }
    } else if verb == b"blocks".as_slice() {
        match file_of(word) {
            Some(file) => Line::Blocks { file },
            None => Line::Other,
        }
    } else if verb == b"pending".as_slice() && !word.is_empty() {
        Line::Pending { hex: word }
    } else {
        Line::Other
    }
}

/// What a line says, given without its line feed. Its words stand with one blank between them, and a verb is in small letters.
/// What isn't exactly a command is any other line.
#[tactic(auto, unfolding(crate::specs::Script::words_of))]
pub fn parse(line: &[u8]) -> Line<'_>
    ensures { plain_line result ≡ line_of line.now }
{
    let (verb, behind) = next_word(line);
    let Some(behind) = behind else {
        return Line::Other;
    };
    let (first, behind) = next_word(behind);
    let Some(behind) = behind else {
        return of_one(verb, first);
    };
    match next_word(behind) {
        (second, None) => of_two(verb, first, second),
        (_, Some(_)) => Line::Other,
    }
}
