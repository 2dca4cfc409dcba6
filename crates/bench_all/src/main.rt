//! The calls that the benchmarks time, each a command that prints what it counted, or the first fault:
//!
//! - `feed BLOCKS` reads a block file, from 32 zero bytes and height 0 to its end;
//! - `walk FILE TRIES ROUNDS` walks the problem of a file ROUNDS times, each with TRIES tries;
//! - `wide FILE TRIES ROUNDS` walks it so as a wide search, which a problem without change can be;
//! - `run FILE TRIES TURN` makes TRIES tries of a run over the problem of a file, TURN of them a turn;
//! - `log` writes a log of 30,000,021 letters as a text and reads it back, and `log timed` prints the times too;
//! - `draw ITEMS KEPT SEEDS` draws among made-up items, and with `timed` after it prints the time of a draw too;
//! - `check FILE` checks the log of a file, and with `timed` after it prints how long that took;
//! - `groups COUNT` finds the pool of made-up coins, and with `timed` after it prints the times too.
//!
//! Commands are parted by the word `then`. A word that is no number is read as 0. The status is 1 where one of them failed.
#![tactic(auto)]

mod checker;
mod draws;
mod feed;
mod groups;
mod logs;
mod turns;
mod walk;

use row_columns::Answer;
use std::process::ExitCode;
use std::{env, io};

/// The word of this number; empty where there is none.
fn word(words: &[String], number: usize) -> &str {
    match words.get(number) {
        Some(word) => word.as_str(),
        None => "",
    }
}

/// Does a command, and tells whether it went well. The error is of a file or of the clock.
fn done(rt: &HostRuntime, out: &mut Answer, words: &[String]) -> io::Result<bool> {
    let (name, second, third) = (word(words, 1), word(words, 2), word(words, 3));
    match word(words, 0) {
        "feed" => Ok(feed::read_blocks(rt, out, name)),
        "walk" => walk::walk_file(rt, out, name, second, third, false),
        "wide" => walk::walk_file(rt, out, name, second, third, true),
        "run" => turns::run_file(rt, out, name, second, third),
        "log" => logs::write_and_read(rt, out, name == "timed"),
        "draw" => draws::draw_words(rt, out, name, second, third, word(words, 4) == "timed"),
        "check" => checker::check_file(rt, out, name, second == "timed"),
        "groups" => groups::find(rt, out, name, second == "timed"),
        _ => {
            out.word("feed BLOCKS | groups COUNT [timed]\n");
            out.word("walk FILE TRIES ROUNDS | wide FILE TRIES ROUNDS\n");
            out.word("run FILE TRIES TURN | check FILE [timed]\n");
            out.word("log [timed] | draw ITEMS KEPT SEEDS [timed]\n");
            Ok(false)
        }
    }
}

/// Does a command, prints what it counted, and tells whether it went well.
fn act(rt: &HostRuntime, words: &[String]) -> io::Result<bool> {
    let mut out = Answer::new(rt.alloc());
    let went_well = done(rt, &mut out, words)?;
    out.print(rt)?;
    Ok(went_well)
}

/// Does the commands of the words behind the program's name, and tells whether all of them went well.
fn act_all(rt: &HostRuntime, words: &[String]) -> io::Result<bool> {
    let (mut first, mut went_well) = (1, true);
    for place in 0..words.len() {
        if word(words, place) == "then" {
            went_well = act(rt, words.get(first..place).unwrap_or(&[]))? && went_well;
            first = place.saturating_add(1);
        }
    }
    Ok(act(rt, words.get(first..).unwrap_or(&[]))? && went_well)
}

fn main(rt: HostRuntime) -> io::Result<ExitCode> {
    let words: Vec<String> = env::args(&rt)?.collect(rt.alloc())?;
    Ok(if act_all(&rt, &words)? {
        ExitCode::SUCCESS
    } else {
        ExitCode::FAILURE
    })
}
