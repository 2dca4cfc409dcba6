//! Searches for the least waste of all lists in a window, and what the checker of their logs says. Each row begins with the five
//! columns of a problem: `changeless`, the least and the greatest value, the limit of weight, and the items.
//!
//! - `walk PROBLEM TRIES`: after the last of the numbers of tries whether the walk is done, its best, the waste of that, the tries
//!   made and the letters, with tabs between them; behind a tab, where it stands after each of the numbers, made in pieces
//! - `check PROBLEM ANSWER LETTERS`: what the checker says of a log, and where that differs what it says of the letters one by one

ghost use Rattle.std.specs.Prelude.{◌≡◌, ◌≤◌};
ghost use Rattle.pick_problem.specs.declared.item.Kind.TheVariants.{Changeless};

use fund_base::Memory;
use pick_problem::{Kind, Problem, Progress};
use row_columns::{Answer, best_in, column, numbers_in, places_of, problem_in, unescaped};
use std::alloc::Global;
use wide_check::{WideChecker, WideFault};
use wide_search::Wide;

/// Makes so many tries, for which it takes room first. It answers the word of how far the walk has come.
fn make(walk: &mut Wide, tries: u64) -> Result<&'static str, Memory> {
    walk.reserve(tries)?;
    Ok(match walk.advance(tries) {
        Progress::Open => "open",
        Progress::Done => "done",
    })
}

/// Puts the best of a walk, its waste, the tries made, and the letters.
fn put_end(out: &mut Answer, problem: &Problem, walk: &Wide) {
    out.best("\t", walk.best());
    match walk.best() {
        Some(places) if problem.are_places(places) => {
            out.signed("\t", problem.score(places).first);
        }
        _ => out.word("\tnone"),
    }
    out.number("\t", walk.tries());
    out.word("\t");
    out.put(walk.tokens());
}

/// Grants tries to a walk up to each of these numbers in turn, and puts where it stands then. The error is out of memory.
fn put_pieces(out: &mut Answer, walk: &mut Wide, budgets: &[u64]) -> Result<(), Memory> {
    let mut granted = 0_u64;
    let mut before = "\t";
    for budget in budgets {
        let state = make(walk, budget.saturating_sub(granted))?;
        granted = *budget;
        out.number(before, granted);
        out.word(" ");
        out.word(state);
        out.best(", best ", walk.best());
        out.number(", tokens ", walk.tokens().len() as u64);
        before = "; ";
    }
    Ok(())
}

/// Puts what a walk comes to at each of some numbers of tries, which rise; another one makes them all at once. The error is out
/// of memory.
fn put_walks(out: &mut Answer, problem: &Problem, column: &str) -> Result<(), Memory>
    requires { problem.now.kind ≡ Changeless }
{
    let budgets = numbers_in(out.alloc, column)?;
    let mut all = Wide::new(out.alloc, problem)?;
    out.word(make(&mut all, budgets.last().copied().unwrap_or(0))?);
    put_end(out, problem, &all);
    let mut walk = Wide::new(out.alloc, problem)?;
    put_pieces(out, &mut walk, &budgets)
}

/// Puts a word, and a fault of a log with its place.
fn put_fault(out: &mut Answer, word: &str, fault: WideFault) {
    out.word(word);
    match fault {
        WideFault::UnknownToken(place) => out.number("UnknownToken ", place),
        WideFault::ReasonFalse(place) => out.number("ReasonFalse ", place),
        WideFault::TooLong(place) => out.number("TooLong ", place),
        WideFault::Open => out.word("Open"),
        WideFault::AnswerNotMet => out.word("AnswerNotMet"),
        WideFault::BetterMet(place) => out.number("BetterMet ", place),
        WideFault::AnswerNotAdmissible => out.word("AnswerNotAdmissible"),
        WideFault::Memory => out.lack(),
    }
}

/// Feeds letters in pieces of this length.
fn feed(checker: &mut WideChecker, letters: &[u8], length: usize) -> Result<(), WideFault>
    requires { 1 ≤ length }
{
    for piece in letters.chunks(length) {
        if let Err(fault) = checker.feed(piece) {
            return Err(fault);
        }
    }
    Ok(())
}

/// Puts what a checker says of letters that are fed in pieces of this length; a fault behind the call that gives it.
fn put_fed(out: &mut Answer, checker: &mut WideChecker, letters: &[u8], length: usize)
    requires { 1 ≤ length }
{
    if let Err(fault) = feed(checker, letters, length) {
        return put_fault(out, "feed ", fault);
    }
    match checker.end() {
        Ok(()) => out.word("ok"),
        Err(fault) => put_fault(out, "end ", fault),
    }
}

/// What a checker says of a log whose letters are fed in pieces of this length.
fn verdict(
    alloc: Global,
    problem: &Problem,
    answer: Option<&[u32]>,
    letters: &[u8],
    length: usize,
) -> Answer
    requires length { 1 ≤ length }
    requires kind { problem.now.kind ≡ Changeless }
{
    let mut out = Answer::new(alloc);
    match WideChecker::new(alloc, problem, answer) {
        Ok(mut checker) => put_fed(&mut out, &mut checker, letters, length),
        Err(fault) => put_fault(&mut out, "new ", fault),
    }
    out
}

/// Puts what is said of a log in one piece, and, where that differs, letter by letter. The error is out of memory.
fn put_verdicts(out: &mut Answer, problem: &Problem, columns: &[&str]) -> Result<(), Memory>
    requires { problem.now.kind ≡ Changeless }
{
    let answer = best_in(out.alloc, column(columns, 0))?;
    let letters = unescaped(out.alloc, column(columns, 1).as_bytes())?;
    let whole = verdict(out.alloc, problem, places_of(&answer), &letters, usize::MAX);
    let parts = verdict(out.alloc, problem, places_of(&answer), &letters, 1);
    out.add("", &whole);
    if whole.text() != parts.text() {
        out.add(", in pieces ", &parts);
    }
    Ok(())
}

/// Puts what a verb comes to at a problem. The error is out of memory.
fn at_problem(
    out: &mut Answer,
    verb: &str,
    problem: &Problem,
    columns: &[&str],
) -> Result<(), Memory>
    requires { problem.now.kind ≡ Changeless }
{
    match verb {
        "walk" => put_walks(out, problem, column(columns, 0)),
        "check" => put_verdicts(out, problem, columns),
        _ => {
            out.word("no such verb");
            Ok(())
        }
    }
}

/// Puts what a row comes to. The error is out of memory.
pub(crate) fn row(out: &mut Answer, verb: &str, columns: &[&str]) -> Result<(), Memory> {
    if columns.len() < 5 {
        out.word("no problem");
        return Ok(());
    }
    let Some(problem) = problem_in(out.alloc, &columns[0..5])? else {
        out.word("no problem");
        return Ok(());
    };
    match problem.kind() {
        Kind::Changeless => at_problem(out, verb, &problem, &columns[5..]),
        Kind::Lean => {
            out.word("no wide problem");
            Ok(())
        }
    }
}
