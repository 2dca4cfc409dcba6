//! The program for people: it pays, lists coins, checks reports, completes PSBTs, looks at signed payments and explains fault lines.
#![tactic(auto)]

mod checking;
mod figures;
mod help;
mod json;
mod keyed;
mod listed;
mod most;
mod pay;
mod plain;
mod prices;
mod settle;
mod sweep;

use checking::check;
use command_end::Status;
use fund_base::Memory;
use pay::pay;
use pay_words::spread_words;
use people_advice::{is_other_command, is_psbt_text, other_command_sentence, psbt_text_sentence};
use plain::{coins, complete, explain, is_given, refuse, show, tell};
use settle::settle;
use std::io::ErrorKind;
use std::process::ExitCode;
use std::{env, io};
use sweep::sweep;

/// The words of the command line, without the program's name; or how the program ends where the system doesn't give them as
/// text, or there is no memory for them.
fn words(rt: &HostRuntime) -> Result<Vec<String>, Status> {
    let args = match env::args(rt) {
        Ok(args) => args,
        Err(error) if error.kind() == ErrorKind::OutOfMemory => return Err(Status::Memory),
        Err(_) => return Err(Status::Usage),
    };
    let mut words = Vec::new(rt.alloc());
    for word in args.skip(1) {
        if words.push(word).is_err() {
            return Err(Status::Memory);
        }
    }
    Ok(words)
}

/// Shows what the program says of itself and of each command.
fn help_whole(rt: &HostRuntime, status: Status) -> io::Result<u8> {
    rt.print(help::COMMANDS)?;
    for part in help::ALL {
        rt.println("")?;
        rt.print(part)?;
    }
    Ok(status.code())
}

/// The same words, with two in place of each that is a flag with its value behind `=`.
fn spread(rt: &HostRuntime, words: &[String]) -> io::Result<Vec<String>> {
    match spread_words(rt.alloc(), words) {
        Ok(words) => Ok(words),
        Err(Memory) => Err(io::Error::from(ErrorKind::OutOfMemory)),
    }
}

/// Whether the text of a PSBT is among the words.
fn has_psbt_text(words: &[String]) -> bool {
    for word in words {
        if is_psbt_text(word.as_str()) {
            return true;
        }
    }
    false
}

/// Does a command.
fn command(rt: &HostRuntime, words: &[String], verb: &str, rest: &[String]) -> io::Result<u8> {
    match verb {
        "pay" => {
            let words = spread(rt, rest)?;
            pay(rt, words)
        }
        "sweep" => {
            let words = spread(rt, rest)?;
            sweep(rt, words.as_slice())
        }
        "coins" => coins(rt, words),
        "check" => {
            let words = spread(rt, words)?;
            check(rt, words.as_slice())
        }
        "complete" | "settle" if has_psbt_text(rest) => refuse(rt, words, psbt_text_sentence()),
        "complete" => complete(rt, rest),
        "settle" => {
            let words = spread(rt, rest)?;
            settle(rt, words.as_slice())
        }
        "explain" => explain(rt, rest),
        _ if is_other_command(verb) => refuse(rt, words, other_command_sentence()),
        _ => refuse(
            rt,
            words,
            "These words are no command: ninelace --help shows the commands with examples.",
        ),
    }
}

/// The words behind the first, and the first behind them.
fn turned(rt: &HostRuntime, first: &str, rest: &[String]) -> io::Result<Vec<String>> {
    let alloc = rt.alloc();
    let mut words = Vec::new(alloc);
    for word in rest {
        words.push(String::from_str(alloc, word.as_str())?)?;
    }
    words.push(String::from_str(alloc, first)?)?;
    Ok(words)
}

/// Does what words say that begin with a flag which each command takes: the same as with the flag behind them.
fn act_turned(rt: &HostRuntime, flag: &str, rest: &[String]) -> io::Result<u8> {
    let words = turned(rt, flag, rest)?;
    match words.as_slice() {
        [verb, rest @ ..] => act_by(rt, words.as_slice(), verb.as_str(), rest),
        [] => help_whole(rt, Status::Usage),
    }
}

/// Does the command of this name, or shows what the program says of it.
fn act_by(rt: &HostRuntime, words: &[String], name: &str, rest: &[String]) -> io::Result<u8> {
    match help::of_command(name) {
        Some(text) if is_given(rest, "--help") || is_given(rest, "-h") => {
            rt.print(text)?;
            Ok(Status::Done.code())
        }
        _ => command(rt, words, name, rest),
    }
}

/// Does what the words say, and answers the status with which the program ends.
fn act(rt: &HostRuntime, words: &[String]) -> io::Result<u8> {
    match words {
        [] => help_whole(rt, Status::Usage),
        [verb, rest @ ..] => match verb.as_str() {
            "--help" | "-h" | "help" => help_whole(rt, Status::Done),
            "--version" | "version" => {
                rt.println(help::VERSION)?;
                Ok(Status::Done.code())
            }
            "--json" | "--progress" => act_turned(rt, verb.as_str(), rest),
            name => act_by(rt, words, name, rest),
        },
    }
}

/// Says on the standard error why nothing more is shown, and answers the status.
fn stopped(rt: &HostRuntime, error: &io::Error) -> Status {
    if error.kind() == ErrorKind::OutOfMemory {
        let _ = rt.eprintln("The machine has too little memory: try again with less beside it.");
        return Status::Memory;
    }
    let _ = rt.eprintln(
        "What was to be shown could not be: the standard output is closed or full.",
    );
    Status::WriteFault
}

/// Says why there are no words.
fn wordless(rt: &HostRuntime, status: Status) -> io::Result<u8> {
    match status {
        Status::Memory => show(rt, false, status, b"fault memory\n"),
        _ => tell(
            rt,
            false,
            status,
            "",
            Some("A word is no text of UTF-8: name the files otherwise."),
        ),
    }
}

fn main(rt: HostRuntime) -> ExitCode {
    let done = match words(&rt) {
        Ok(words) => act(&rt, words.as_slice()),
        Err(status) => wordless(&rt, status),
    };
    match done {
        Ok(code) => ExitCode::from(code),
        Err(error) => ExitCode::from(stopped(&rt, &error).code()),
    }
}
