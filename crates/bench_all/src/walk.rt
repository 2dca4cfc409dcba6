//! Walking a problem, as often as is asked.

ghost use Rattle.std.specs.Prelude.{◌≡◌};

use fund_base::Memory;
use pick_problem::{Kind, Problem};
use row_columns::{Answer, number_in, problem_in};
use search_keep::Walk;
use std::alloc::Global;
use std::{fs, io};
use wide_search::Wide;

/// The sum of letters, each time 31 times what it was and the letter.
fn sum_of(letters: &[u8]) -> u64 {
    let mut sum: u64 = 0;
    for letter in letters {
        sum = sum.wrapping_mul(31).wrapping_add(u64::from(*letter));
    }
    sum
}

/// Puts the tries of a walk, how many letters it has, their sum in 64 bits, and its best places.
fn put_walked(out: &mut Answer, tries: u64, letters: &[u8], best: Option<&[u32]>) {
    out.number("tries ", tries);
    out.number("\nletters ", letters.len() as u64);
    out.number(" ", sum_of(letters));
    out.best("\nbest ", best);
    out.word("\n");
}

/// A walk by the problem's kind with room for these tries, which it makes.
fn walked(alloc: Global, problem: &Problem, tries: u64) -> Result<Walk, Memory> {
    let mut walk = Walk::new(alloc, problem)?;
    walk.reserve(tries)?;
    walk.advance(tries);
    Ok(walk)
}

/// Makes so many walks, of which there is one at least, and puts the last.
fn put_walks(out: &mut Answer, problem: &Problem, tries: u64, rounds: u64) -> Result<(), Memory> {
    for _ in 1..rounds {
        walked(out.alloc, problem, tries)?;
    }
    let walk = walked(out.alloc, problem, tries)?;
    let made = walk.position(out.alloc)?.tries;
    put_walked(out, made, walk.tokens(), walk.best());
    Ok(())
}

/// A wide walk with room for these tries, which it makes.
fn widely_walked(alloc: Global, problem: &Problem, tries: u64) -> Result<Wide, Memory>
    requires { problem.now.kind ≡ Kind.Changeless }
{
    let mut walk = Wide::new(alloc, problem)?;
    walk.reserve(tries)?;
    walk.advance(tries);
    Ok(walk)
}

/// Makes so many wide walks, of which there is one at least, and puts the last.
fn put_wide_walks(
    out: &mut Answer,
    problem: &Problem,
    tries: u64,
    rounds: u64,
) -> Result<(), Memory>
    requires { problem.now.kind ≡ Kind.Changeless }
{
    for _ in 1..rounds {
        widely_walked(out.alloc, problem, tries)?;
    }
    let walk = widely_walked(out.alloc, problem, tries)?;
    put_walked(out, walk.tries(), walk.tokens(), walk.best());
    Ok(())
}

/// The problem of a text, whose lines are its columns; `None` where it holds none.
pub(crate) fn problem_of(alloc: Global, text: &str) -> Result<Option<Problem>, Memory> {
    let columns: Vec<&str> = text.split('\n').collect(alloc)?;
    problem_in(alloc, &columns)
}

/// Walks the problem of a text so many times, by its kind or as a wide search. It tells whether there is such a problem.
fn walks(
    out: &mut Answer,
    text: &str,
    tries: u64,
    rounds: u64,
    is_wide: bool,
) -> Result<bool, Memory> {
    let Some(problem) = problem_of(out.alloc, text)? else {
        return Ok(false);
    };
    match problem.kind() {
        Kind::Changeless if is_wide => put_wide_walks(out, &problem, tries, rounds)?,
        Kind::Lean if is_wide => return Ok(false),
        _ => put_walks(out, &problem, tries, rounds)?,
    }
    Ok(true)
}

/// Puts what comes of a problem that may not be there, and tells whether it is. The error was out of memory.
pub(crate) fn put_ended(out: &mut Answer, ended: Result<bool, Memory>) -> bool {
    match ended {
        Ok(true) => return true,
        Ok(false) => out.word("no problem\n"),
        Err(_) => out.lack(),
    }
    false
}

/// Puts what the last of so many walks of a file's problem comes to, each with so many tries.
pub(crate) fn walk_file(
    rt: &HostRuntime,
    out: &mut Answer,
    name: &str,
    tries: &str,
    rounds: &str,
    is_wide: bool,
) -> io::Result<bool> {
    let text = fs::read_to_string(rt, name)?;
    let (tries, rounds) = (number_in(tries, 0), number_in(rounds, 0));
    let ended = walks(out, text.as_str(), tries, rounds, is_wide);
    Ok(put_ended(out, ended))
}
