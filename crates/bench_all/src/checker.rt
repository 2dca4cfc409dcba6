//! Checking the log of a file over made-up items. The file has a line with the kind, `lo`, `hi`, the limit of weight
//! and the number of items, a line with the places of the answer, and the letters.

use fund_base::Memory;
use log_checker::{Checker, LogFault};
use pick_problem::{Item, Kind, Problem, are_items};
use row_columns::{Answer, column, number_in, places_in};
use std::alloc::Global;
use std::rc::Rc;
use std::time::Instant;
use std::{fs, io};

/// The greatest number of items.
const MOST: u64 = 10_000;

/// An item that looks like none before it.
fn item(n: u32) -> Item {
    let mixed = n.wrapping_mul(2_654_435_761);
    Item {
        value: 1_000 + u64::from(mixed % 5_000_000),
        weight: 230 + u64::from(mixed % 3) * 42,
        cost: 100 + i64::from(mixed % 7),
    }
}

/// So many items, in the order of a pool.
fn items(alloc: Global, count: u32) -> Result<Vec<Item>, Memory> {
    let mut items = Vec::new(alloc);
    for n in 0..count {
        items.push(item(n))?;
    }
    items.sort_by(|a, b| {
        b.value
            .cmp(&a.value)
            .then(a.weight.cmp(&b.weight))
            .then(a.cost.cmp(&b.cost))
    })?;
    Ok(items)
}

/// The problem of these items and of the words of a head. `None` where there can't be one.
fn problem_of(alloc: Global, items: Vec<Item>, words: &[&str]) -> Result<Option<Problem>, Memory> {
    let lo = number_in(column(words, 1), 0);
    let hi = number_in(column(words, 2), 0);
    let limit = number_in(column(words, 3), 0);
    if !are_items(&items) || lo < 1 || lo > hi {
        return Ok(None);
    }
    let items = Rc::new(alloc, items)?;
    Ok(Some(match column(words, 0) {
        "changeless" => Problem::new(items, lo, hi, limit, Kind::Changeless),
        _ => Problem::new(items, lo, lo, limit, Kind::Lean),
    }))
}

/// The problem of a head. `None` where there can't be one.
fn problem(alloc: Global, head: &str) -> Result<Option<Problem>, Memory> {
    let words: Vec<&str> = head.split(' ').collect(alloc)?;
    let count = number_in(column(&words, 4), 0).min(MOST) as u32;
    let items = items(alloc, count)?;
    problem_of(alloc, items, &words)
}

/// What a checker says of letters.
fn check(alloc: Global, problem: &Problem, answer: &[u32], letters: &[u8]) -> Result<(), LogFault> {
    let mut checker = Checker::new(alloc, problem, Some(answer))?;
    checker.feed(letters)?;
    checker.end()
}

/// Puts what is said of letters; if asked to, how long that took too.
fn put_said(
    rt: &HostRuntime,
    out: &mut Answer,
    problem: &Problem,
    answer: &[u32],
    letters: &[u8],
    timed: bool,
) -> io::Result<()> {
    let start = Instant::now(rt)?;
    let said = check(out.alloc, problem, answer, letters);
    let time = start.elapsed(rt)?;
    out.number("", letters.len() as u64);
    out.word(" letters: ");
    out.word(match said {
        Ok(()) => "ok",
        Err(LogFault::Open) => "open",
        Err(_) => "refused",
    });
    if timed {
        out.large("\n", time.as_millis());
        out.word(" ms");
    }
    out.word("\n");
    Ok(())
}

/// The problem and the answer of the first two lines; `None` where there is no problem.
fn question(alloc: Global, lines: &[&str]) -> Result<Option<(Problem, Vec<u32>)>, Memory> {
    let answer = places_in(alloc, column(lines, 1))?;
    match problem(alloc, column(lines, 0))? {
        Some(problem) => Ok(Some((problem, answer))),
        None => Ok(None),
    }
}

/// Checks the log of three lines, and puts what is said of it.
fn run(rt: &HostRuntime, out: &mut Answer, lines: &[&str], timed: bool) -> io::Result<bool> {
    let Ok(question) = question(out.alloc, lines) else {
        out.lack();
        return Ok(false);
    };
    let Some((problem, answer)) = question else {
        out.word("there is no problem\n");
        return Ok(false);
    };
    let letters = column(lines, 2).as_bytes();
    put_said(rt, out, &problem, &answer, letters, timed)?;
    Ok(true)
}

/// Checks the log of a file, and puts how many letters it has and what the checker says.
pub(crate) fn check_file(
    rt: &HostRuntime,
    out: &mut Answer,
    name: &str,
    timed: bool,
) -> io::Result<bool> {
    let text = fs::read_to_string(rt, name)?;
    let lines: Vec<&str> = text.split('\n').collect(out.alloc)?;
    run(rt, out, &lines, timed)
}
