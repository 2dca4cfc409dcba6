//! Rows of runs: `run SEED STEPS CALL ..`, a line for each call. The seed is in hex; the steps have `|` between them, `-` for
//! none. The words of a step have `;` between them: `ROW;STAGE;ENDING;last` or `more;KIND;LO;HI;WEIGHT;ITEMS;SIZES`. The words
//! of a call have `=` between them; in a text `\n` stands for a line feed.
//!
//! - `go=TRIES`: goes on, and tells the tries so far and the step at which it stands
//! - `end=stop` or `end=take`: what it comes to, a result being taken for want of tries or not
//! - `log=whole` or `log=partial`: the text of its log
//! - `saved=JOB=PARTS=LOG`: the text of what is saved of it, with this digest of its log; without one where the last word is left out
//! - `restore=SAVED=LOG`: goes on from two texts, or tells why not
//! - `verify`: whether its log is accepted
//! - `step`: the step at which it stands
//! - `walk=TRIES`: the section of a new search of that step after so many tries
//! - `choose=PLACES=PLACES..`: which of these selections is taken as that step's result

use crate::checking::put_log_fault;
use crate::log_texts::{put_closed, put_open};
use crate::results::{put_chosen, put_end};
use crate::steps::steps_in;
use closing_log::{LogText, Worded, read_sections, write_sections};
use fund_base::Memory;
use pick_problem::Progress;
use row_columns::{Answer, column, digest_in, number_in, short_in, unescaped};
use search_keep::{Saved, read_saved, write_saved};
use search_run::{RestoreRefused, SearchRun, Step, VerifyFault, open_section, section};
use walk_engine::Search;

/// Puts where a run stands: its tries, and the row and the stage of its step.
fn put_stand(out: &mut Answer, run: &SearchRun) {
    out.number("tries ", run.tries());
    out.flag(", over ", run.is_over());
    if let Some(step) = run.step() {
        out.number(", row ", u64::from(step.row()));
        out.word(", stage ");
        out.word(step.stage().word());
    }
}

/// Goes on with so many tries. The error is out of memory.
fn go(out: &mut Answer, run: &mut SearchRun, tries: u64) -> Result<(), Memory> {
    if tries > u64::MAX - run.tries() {
        out.word("too many tries");
        return Ok(());
    }
    run.go(tries)?;
    put_stand(out, run);
    Ok(())
}

/// Puts the text of what is saved of a run. The error is out of memory.
fn put_saved(out: &mut Answer, run: &SearchRun, columns: &[&str]) -> Result<(), Memory> {
    let Some(job) = digest_in(column(columns, 1)) else {
        out.word("no job");
        return Ok(());
    };
    let log = digest_in(column(columns, 3));
    match run.saved(job, short_in(column(columns, 2)), log)? {
        Some(saved) => out.bytes("saved ", write_saved(out.alloc, &saved)),
        None => out.word("saved none"),
    }
    Ok(())
}

/// Goes on from what was saved and a log, and puts where the run stands, or why it doesn't go on.
fn put_restored(out: &mut Answer, run: &mut SearchRun, saved: &Saved, log: &LogText) {
    match run.restore(saved, log) {
        Ok(()) => put_stand(out, run),
        Err(RestoreRefused::Section(index)) => out.number("refused Section ", index),
        Err(RestoreRefused::IllFormed) => out.word("refused IllFormed"),
        Err(RestoreRefused::Answer(index)) => out.number("refused Answer ", index),
        Err(RestoreRefused::Memory) => out.lack(),
    }
}

/// Goes on from the texts of what was saved and of a log.
fn restore(out: &mut Answer, run: &mut SearchRun, saved: &[u8], log: &[u8]) {
    let Ok(saved) = read_saved(out.alloc, saved) else {
        return out.word("no saved text");
    };
    let Ok(log) = read_sections(out.alloc, log) else {
        return out.word("no log text");
    };
    put_restored(out, run, &saved, &log);
}

/// Goes on from the texts of two words. The error is out of memory.
fn restored(out: &mut Answer, run: &mut SearchRun, columns: &[&str]) -> Result<(), Memory> {
    let saved = unescaped(out.alloc, column(columns, 1).as_bytes())?;
    let log = unescaped(out.alloc, column(columns, 2).as_bytes())?;
    restore(out, run, &saved, &log);
    Ok(())
}

/// Puts whether the log of a run is accepted.
fn put_verified(out: &mut Answer, run: &SearchRun) {
    match run.verify() {
        Ok(()) => out.word("accepted"),
        Err(VerifyFault::Log(index, fault)) => {
            out.number("refused Log ", index);
            put_log_fault(out, " ", fault);
        }
        Err(VerifyFault::Memory) => out.lack(),
    }
}

/// Puts a step's row, stage, ending and place in its column, its problem's digest, and how many coins stand at each place.
fn put_step(out: &mut Answer, step: &Step) {
    out.number("row ", u64::from(step.row()));
    out.word(", stage ");
    out.word(step.stage().word());
    out.number(", ending ", step.ending());
    out.word(if step.is_last() {
        ", last, "
    } else {
        ", more, "
    });
    out.word(if step.is_drawn() { "draw" } else { "search" });
    out.digits(", digest ", &step.problem().digest());
    out.word(", sizes");
    for size in step.sizes() {
        out.number(" ", u64::from(*size));
    }
}

/// Puts the section of a new search of a step after so many tries. The error is out of memory.
fn put_section(out: &mut Answer, step: &Step, tries: u64) -> Result<(), Memory> {
    let mut walk = Search::new(out.alloc, step.problem())?;
    walk.reserve(tries)?;
    match walk.advance(tries) {
        Progress::Open => {
            let open = open_section(out.alloc, step, &walk)?;
            put_open(out, &open);
        }
        Progress::Done => {
            let closed = section(out.alloc, step, &walk)?;
            out.word("closed ");
            put_closed(out, &closed);
        }
    }
    Ok(())
}

/// Puts what a call at the step of a run comes to. The error is out of memory.
fn at_step(out: &mut Answer, run: &SearchRun, columns: &[&str]) -> Result<(), Memory> {
    let Some(step) = run.step() else {
        out.word("no step");
        return Ok(());
    };
    match column(columns, 0) {
        "step" => put_step(out, step),
        "walk" => return put_section(out, step, number_in(column(columns, 1), 0)),
        _ => return put_chosen(out, step, columns),
    }
    Ok(())
}

/// Puts the text of a run's log. The error is out of memory.
fn put_log(out: &mut Answer, run: &SearchRun, partial: bool) -> Result<(), Memory> {
    let log = run.log(partial)?;
    out.bytes("log ", write_sections(out.alloc, &log));
    Ok(())
}

/// Puts what a call of these words comes to. The error is out of memory.
fn call(out: &mut Answer, run: &mut SearchRun, columns: &[&str]) -> Result<(), Memory> {
    let word = column(columns, 1);
    match column(columns, 0) {
        "go" => return go(out, run, number_in(word, 0)),
        "end" => {
            let end = run.end(word == "take")?;
            put_end(out, &end);
        }
        "log" => return put_log(out, run, word == "partial"),
        "saved" => return put_saved(out, run, columns),
        "restore" => return restored(out, run, columns),
        "verify" => put_verified(out, run),
        _ => return at_step(out, run, columns),
    }
    Ok(())
}

/// Puts what the calls of the columns behind the first two come to, a line each. The error is out of memory.
fn put_calls(out: &mut Answer, run: &mut SearchRun, columns: &[&str]) -> Result<(), Memory> {
    for number in 2..columns.len() {
        out.word(if number > 2 { "\n" } else { "" });
        let words: Vec<&str> = column(columns, number).split('=').collect(out.alloc)?;
        call(out, run, &words)?;
    }
    Ok(())
}

/// Puts what a row of a run comes to. The error is out of memory.
pub(crate) fn run_row(out: &mut Answer, columns: &[&str]) -> Result<(), Memory> {
    let Some(seed) = digest_in(column(columns, 0)) else {
        out.word("no seed");
        return Ok(());
    };
    let Some(steps) = steps_in(out.alloc, column(columns, 1))? else {
        out.word("no steps");
        return Ok(());
    };
    let mut run = SearchRun::new(out.alloc, seed, steps);
    put_calls(out, &mut run, columns)
}
