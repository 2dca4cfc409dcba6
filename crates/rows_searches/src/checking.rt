//! What a checker that knows no search says of logs.

ghost use Rattle.std.specs.Prelude.{◌≤◌};

use fund_base::Memory;
use log_checker::{Checker, LogFault};
use pick_problem::Problem;
use row_columns::{Answer, best_in, column, places_of, unescaped};
use std::alloc::Global;

/// Puts a word, and a fault of a log with its place.
pub(crate) fn put_log_fault(out: &mut Answer, word: &str, fault: LogFault) {
    out.word(word);
    match fault {
        LogFault::UnknownToken(place) => out.number("UnknownToken ", place),
        LogFault::ReasonFalse(place) => out.number("ReasonFalse ", place),
        LogFault::TooLong(place) => out.number("TooLong ", place),
        LogFault::Open => out.word("Open"),
        LogFault::AnswerNotMet => out.word("AnswerNotMet"),
        LogFault::BetterMet(place) => out.number("BetterMet ", place),
        LogFault::AnswerNotAdmissible => out.word("AnswerNotAdmissible"),
        LogFault::Memory => out.lack(),
    }
}

/// Feeds letters in pieces of this length.
fn feed(checker: &mut Checker, letters: &[u8], length: usize) -> Result<(), LogFault>
    requires { 1 ≤ length }
{
    for piece in letters.chunks(length) {
        if let Err(fault) = checker.feed(piece) {
            return Err(fault);
        }
    }
    Ok(())
}

/// Puts what a checker says of letters that are fed in pieces of this length; a fault behind the call that gives it.
fn put_fed(out: &mut Answer, checker: &mut Checker, letters: &[u8], length: usize)
    requires { 1 ≤ length }
{
    if let Err(fault) = feed(checker, letters, length) {
        return put_log_fault(out, "feed ", fault);
    }
    match checker.end() {
        Ok(()) => out.word("ok"),
        Err(fault) => put_log_fault(out, "end ", fault),
    }
}

/// What a checker says of a log whose letters are fed in pieces of this length.
fn verdict(
    alloc: Global,
    problem: &Problem,
    answer: Option<&[u32]>,
    letters: &[u8],
    length: usize,
) -> Answer
    requires { 1 ≤ length }
{
    let mut out = Answer::new(alloc);
    match Checker::new(alloc, problem, answer) {
        Ok(mut checker) => put_fed(&mut out, &mut checker, letters, length),
        Err(fault) => put_log_fault(&mut out, "new ", fault),
    }
    out
}

/// Puts what is said of a log in one piece, and, where that differs, letter by letter.
fn put_verdicts(out: &mut Answer, problem: &Problem, answer: Option<&[u32]>, letters: &[u8]) {
    let whole = verdict(out.alloc, problem, answer, letters, usize::MAX);
    let parts = verdict(out.alloc, problem, answer, letters, 1);
    out.add("", &whole);
    if whole.text() != parts.text() {
        out.add(", in pieces ", &parts);
    }
}

/// Puts what is said of a log: its answer and its letters. The error is out of memory.
pub(crate) fn check(out: &mut Answer, problem: &Problem, columns: &[&str]) -> Result<(), Memory> {
    let answer = best_in(out.alloc, column(columns, 0))?;
    let letters = unescaped(out.alloc, column(columns, 1).as_bytes())?;
    put_verdicts(out, problem, places_of(&answer), &letters);
    Ok(())
}
