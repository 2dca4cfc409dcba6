//! The command that checks the report of a payment and its log.

use crate::plain::{by_words, names_in, refuse};
use crate::settle::{is_flag, name_behind};
use std::io;

/// What is said of words that don't name the files.
const USAGE: &str =
    "check takes five names, WALLET BLOCKS REQUEST REPORT LOG, or each behind its flag: --wallet FILE --blocks FILE --request FILE --report FILE --log FILE.";

/// The flags, in the order of the names.
const FLAGS: [&str; 5] = ["--wallet", "--blocks", "--request", "--report", "--log"];

/// Whether the words are flags with a name behind each.
fn has_flags(words: &[String]) -> bool {
    match words {
        [_, first, ..] => is_flag(first.as_str()),
        _ => false,
    }
}

/// The command with the names that stand behind flags, in their order; none where one is missing, or a word is left over.
fn names_by_flags(rt: &HostRuntime, words: &[String]) -> io::Result<Option<Vec<String>>> {
    let alloc = rt.alloc();
    let mut names = Vec::new(alloc);
    names.push(String::from_str(alloc, "check")?)?;
    for flag in FLAGS {
        match name_behind(words, flag) {
            Some(name) => names.push(String::from_str(alloc, name)?)?,
            None => return Ok(None),
        }
    }
    if words.len() != 11 {
        return Ok(None);
    }
    Ok(Some(names))
}

/// Does `check` with these words, of which it is the first. `given` are the same with the flags that each command takes.
fn check_names(rt: &HostRuntime, given: &[String], names: &Vec<String>) -> io::Result<u8> {
    if names.len() != 6 {
        return refuse(rt, given, USAGE);
    }
    by_words(rt, given, names)
}

/// Does `check`, which is the first of the words, with the names behind it.
pub fn check(rt: &HostRuntime, words: &[String]) -> io::Result<u8> {
    let names = names_in(rt, words)?;
    if !has_flags(names.as_slice()) {
        return check_names(rt, words, &names);
    }
    match names_by_flags(rt, names.as_slice())? {
        Some(names) => check_names(rt, words, &names),
        None => refuse(rt, words, USAGE),
    }
}
