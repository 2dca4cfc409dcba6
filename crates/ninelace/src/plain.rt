//! The commands that take names alone.

use crate::json::{print, said_value};
use crate::prices::list_priced;
use command_complete::complete as complete_psbt;
use command_end::{Sources, Status};
use command_keys::complete_keyed;
use command_pay::ProgressShelf;
use fault_lines::line_sentence;
use fund_base::Memory;
use fund_outside::{Keeper, SureKeeper};
use fund_shelf::{FileShelf, Shelf, Sink, SureSink};
use fund_top::run;
use pay_words::{WordFault, word_sentence};
use people_advice::{status_numbered, status_sentence};
use request_making::read_rate;
use std::alloc::Global;
use std::io;
use std::io::{ErrorKind, IsTerminal};

/// The files of the system. It is told how far they are read where a word asks for it, or the standard error is a terminal.
pub fn files_told<'a>(
    rt: &'a HostRuntime,
    words: &[String],
) -> ProgressShelf<'a, HostRuntime, FileShelf<&'a HostRuntime>> {
    let told = is_given(words, "--progress") || rt.stderr().is_terminal();
    ProgressShelf::new(rt, FileShelf::new(rt), told)
}

/// Whether a word is among the words.
pub fn is_given(words: &[String], wanted: &str) -> bool {
    for word in words {
        if word.as_str() == wanted {
            return true;
        }
    }
    false
}

/// The words without the two flags that each command takes.
pub fn names_in(rt: &HostRuntime, words: &[String]) -> io::Result<Vec<String>> {
    let alloc = rt.alloc();
    let mut names = Vec::new(alloc);
    for word in words {
        if word.as_str() != "--json" && word.as_str() != "--progress" {
            names.push(String::from_str(alloc, word.as_str())?)?;
        }
    }
    Ok(names)
}

/// A text that was made, or the error of too little memory.
pub fn text_made(made: Result<String, Memory>) -> io::Result<String> {
    match made {
        Ok(text) => Ok(text),
        Err(Memory) => Err(io::Error::from(ErrorKind::OutOfMemory)),
    }
}

/// Shows lines, and the sentence that says what to do, where there is one; and answers the status.
pub fn tell(
    rt: &HostRuntime,
    json: bool,
    status: Status,
    lines: &str,
    sentence: Option<&str>,
) -> io::Result<u8> {
    if json {
        return match said_value(rt.alloc(), status.code(), lines, sentence) {
            Ok(value) => {
                print(rt, &value)?;
                Ok(status.code())
            }
            Err(Memory) => Err(io::Error::from(ErrorKind::OutOfMemory)),
        };
    }
    for line in lines.lines() {
        rt.println(line)?;
    }
    if let Some(sentence) = sentence {
        rt.println(sentence)?;
    }
    Ok(status.code())
}

/// Shows what a command said, and what to do where it was refused; and answers its status.
pub fn show(rt: &HostRuntime, json: bool, status: Status, said: &[u8]) -> io::Result<u8> {
    let lines = match str::from_utf8(said) {
        Ok(lines) => lines,
        Err(_) => "",
    };
    tell(rt, json, status, lines, line_sentence(said))
}

/// Says how the words of a command are.
pub fn refuse(rt: &HostRuntime, words: &[String], usage: &str) -> io::Result<u8> {
    tell(
        rt,
        is_given(words, "--json"),
        Status::Usage,
        "",
        Some(usage),
    )
}

/// Does the command of these words over these files and jobs.
fn done_by_words<H: Shelf, O: Sink, K: Keeper>(
    alloc: Global,
    words: &Vec<String>,
    shelf: &mut H,
    out: &mut O,
    keeper: &mut K,
) -> Status {
    run(alloc, words, shelf, out, keeper)
}

/// Does the command of these words. `given` are they with the flags that each command takes.
pub fn by_words(rt: &HostRuntime, given: &[String], words: &Vec<String>) -> io::Result<u8> {
    let alloc = rt.alloc();
    let mut shelf = files_told(rt, given);
    let mut out = SureSink::new(alloc);
    let mut keeper = SureKeeper::new(alloc);
    let status = done_by_words(alloc, words, &mut shelf, &mut out, &mut keeper);
    show(rt, is_given(given, "--json"), status, out.written())
}

/// Lists the coins of a wallet with their prices at the rate that a word is.
fn coins_at(rt: &HostRuntime, words: &[String], sources: &Sources, rate: &str) -> io::Result<u8> {
    match read_rate(rate.as_bytes()) {
        Ok(rate) => coins_listed(rt, words, sources, rate),
        Err(fault) => refuse(rt, words, word_sentence(&WordFault::Rate(0, fault))),
    }
}

/// Lists the coins of a wallet with their prices at this rate, and what they come to. At rate 0 none has a price.
fn coins_listed(
    rt: &HostRuntime,
    words: &[String],
    sources: &Sources,
    rate: u64,
) -> io::Result<u8> {
    let mut shelf = files_told(rt, words);
    let mut out = SureSink::new(rt.alloc());
    let status = list_priced(rt.alloc(), sources, rate, &mut shelf, &mut out);
    show(rt, is_given(words, "--json"), status, out.written())
}

/// Lists the coins of a wallet, with their prices where a fee rate is given behind the names.
pub fn coins(rt: &HostRuntime, words: &[String]) -> io::Result<u8> {
    let names = names_in(rt, words)?;
    match names.as_slice() {
        [_, wallet, blocks, flag, rate] if flag.as_str() == "--fee-rate" => {
            let sources = Sources {
                wallet: wallet.as_str(),
                blocks: blocks.as_str(),
            };
            coins_at(rt, words, &sources, rate.as_str())
        }
        [_, wallet, blocks] => {
            let sources = Sources {
                wallet: wallet.as_str(),
                blocks: blocks.as_str(),
            };
            coins_listed(rt, words, &sources, 0)
        }
        _ => refuse(
            rt,
            words,
            "coins takes two names, and a rate if you like: WALLET BLOCKS --fee-rate RATE.",
        ),
    }
}

/// Makes the PSBT of a file of these files whole.
fn made_whole<H: Shelf, O: Sink>(
    alloc: Global,
    sources: &Sources,
    psbt: &str,
    shelf: &mut H,
    out: &mut O,
) -> Status {
    complete_psbt(alloc, sources, psbt, shelf, out)
}

/// Makes the PSBT of a file of these files whole, with the keys of the file `keys`.
fn made_whole_with_keys<H: Shelf, O: Sink>(
    alloc: Global,
    sources: &Sources,
    psbt: &str,
    keys: &str,
    shelf: &mut H,
    out: &mut O,
) -> Status {
    complete_keyed(alloc, sources, psbt, keys, shelf, out)
}

/// Makes a PSBT whole, with the keys of a file where one is named.
fn complete_named(
    rt: &HostRuntime,
    words: &[String],
    psbt: &str,
    sources: &Sources,
    keys: Option<&str>,
) -> io::Result<u8> {
    let alloc = rt.alloc();
    let mut shelf = files_told(rt, words);
    let mut out = SureSink::new(alloc);
    let status = match keys {
        Some(keys) => made_whole_with_keys(alloc, sources, psbt, keys, &mut shelf, &mut out),
        None => made_whole(alloc, sources, psbt, &mut shelf, &mut out),
    };
    show(rt, is_given(words, "--json"), status, out.written())
}

/// Makes a PSBT whole.
pub fn complete(rt: &HostRuntime, words: &[String]) -> io::Result<u8> {
    let names = names_in(rt, words)?;
    match names.as_slice() {
        [psbt, wallet, blocks] => {
            let sources = Sources {
                wallet: wallet.as_str(),
                blocks: blocks.as_str(),
            };
            complete_named(rt, words, psbt.as_str(), &sources, None)
        }
        [psbt, wallet, blocks, keys] => {
            let sources = Sources {
                wallet: wallet.as_str(),
                blocks: blocks.as_str(),
            };
            complete_named(rt, words, psbt.as_str(), &sources, Some(keys.as_str()))
        }
        _ => refuse(
            rt,
            words,
            "complete takes three names, or four with a keys file: PSBT WALLET BLOCKS KEYS.",
        ),
    }
}

/// The words as one line, with blanks between them.
fn line_of(rt: &HostRuntime, words: &[String]) -> io::Result<String> {
    let mut line = String::new(rt.alloc());
    for word in words {
        if !line.is_empty() {
            line.push(' ')?;
        }
        line.push_str(word.as_str())?;
    }
    Ok(line)
}

/// Says this sentence of a line.
fn explain_by(rt: &HostRuntime, json: bool, line: &str, sentence: &str) -> io::Result<u8> {
    if json {
        return tell(rt, true, Status::Done, line, Some(sentence));
    }
    rt.println(sentence)?;
    Ok(Status::Done.code())
}

/// Says what a status means by its number, or what may be the cause of a line that stops a command; and what to do.
pub fn explain(rt: &HostRuntime, words: &[String]) -> io::Result<u8> {
    let json = is_given(words, "--json");
    let names = names_in(rt, words)?;
    let line = line_of(rt, names.as_slice())?;
    if let Some(status) = status_numbered(line.as_str()) {
        return explain_by(rt, json, line.as_str(), status_sentence(status));
    }
    match line_sentence(line.as_bytes()) {
        Some(sentence) => explain_by(rt, json, line.as_str(), sentence),
        None => refuse(
            rt,
            words,
            "This line stops no command: give one as it was printed, from its first word on, or the number of a status.",
        ),
    }
}
