//! Rows of a walk by itself, behind the columns of its problem.
//!
//! - `walk TRIES`: after the last of the numbers of tries whether the walk is done, its best, that one's score, the tries that
//!   were made, and the letters; where it stands after each of them, made in pieces; and at how many of these positions a walk
//!   that is restored there goes on to the same end
//! - `restore CHOSEN NEXT BEST TRIES STATE LETTERS`: what a walk that is restored there comes to in 1,000 tries, or that there
//!   is none
//! - `resume SAVED JOB LETTERS TRIES`: where the search that goes on from a saved text stands after so many tries, after these
//!   letters, JOB being the digest of the job now; or why it isn't resumed

use crate::saved_texts::put_saved_fault;
use fund_base::{Memory, Places};
use pick_problem::{Position, Problem, Progress, RestoreFault};
use row_columns::{
    Answer, best_in, column, digest_in, number_in, numbers_in, places_in, places_of, short_in,
    unescaped,
};
use search_keep::{SavedFault, Walk, read_saved, resume};
use std::alloc::Global;

/// Makes so many tries, for which it takes room first. It answers the word of how far the walk has come.
fn make(walk: &mut Walk, tries: u64) -> Result<&'static str, Memory> {
    walk.reserve(tries)?;
    Ok(match walk.advance(tries) {
        Progress::Open => "open",
        Progress::Done => "done",
    })
}

/// Puts where a walk stands.
fn put_position(out: &mut Answer, position: &Position) {
    out.places(", chosen ", position.chosen.as_slice());
    out.number(", next ", u64::from(position.next));
    out.best(", best ", places_of(&position.best));
}

/// Puts the tries of a walk, and its letters.
fn put_letters(out: &mut Answer, tries: u64, walk: &Walk) {
    out.number(", tries ", tries);
    out.word(", tokens ");
    out.put(walk.tokens());
}

/// Puts the best of a walk and its score, the tries made, and the letters. The error is out of memory.
fn put_end(out: &mut Answer, problem: &Problem, walk: &Walk) -> Result<(), Memory> {
    let position = walk.position(out.alloc)?;
    out.best(", best ", walk.best());
    match walk.best() {
        Some(places) if problem.are_places(places) => {
            let score = problem.score(places);
            out.signed(", score ", score.first);
            out.large(" ", score.second);
        }
        _ => out.word(", score none"),
    }
    put_letters(out, position.tries, walk);
    Ok(())
}

/// Whether a walk without room, which makes these tries, stands then where the whole one stands.
fn ends_alike(walk: &mut Walk, tries: u64, all: &Walk) -> Result<bool, Memory> {
    if walk.spare() != 0 {
        return Ok(false);
    }
    make(walk, tries)?;
    Ok(walk.tokens() == all.tokens() && walk.best() == all.best())
}

/// Whether a walk that is restored at a position, and makes these tries, stands where the whole one stands.
fn goes_on(
    alloc: Global,
    problem: &Problem,
    position: &Position,
    walk: &Walk,
    tries: u64,
    all: &Walk,
) -> Result<bool, Memory> {
    match Walk::restore(alloc, problem, position, walk.tokens()) {
        Ok(mut again) => ends_alike(&mut again, tries, all),
        Err(RestoreFault::IllFormed) => Ok(false),
        Err(RestoreFault::Memory) => Err(Memory),
    }
}

/// Puts where a walk stands to which so many tries are granted. It answers whether a walk that is restored there, and makes the
/// tries that are left, goes on as the whole one does.
fn put_piece(
    out: &mut Answer,
    problem: &Problem,
    walk: &Walk,
    granted: u64,
    left: u64,
    all: &Walk,
) -> Result<bool, Memory> {
    let position = walk.position(out.alloc)?;
    out.number("\n", granted);
    out.word(if position.done { " done" } else { " open" });
    put_position(out, &position);
    out.number(", tokens ", walk.tokens().len() as u64);
    goes_on(out.alloc, problem, &position, walk, left, all)
}

/// Grants tries to a walk up to each of these numbers in turn, and puts where it stands then. It answers at how many of these
/// places a walk goes on as the whole one does.
fn put_pieces(
    out: &mut Answer,
    problem: &Problem,
    walk: &mut Walk,
    budgets: &[u64],
    all: &Walk,
) -> Result<u64, Memory> {
    let most = budgets.last().copied().unwrap_or(0);
    let (mut granted, mut same) = (0, 0_u64);
    for budget in budgets {
        make(walk, budget.saturating_sub(granted))?;
        granted = *budget;
        let left = most.saturating_sub(granted);
        if put_piece(out, problem, walk, granted, left, all)? {
            same = same.saturating_add(1);
        }
    }
    Ok(same)
}

/// Puts what a walk comes to at each of some numbers of tries, which rise; another one makes them all at once. The error is out
/// of memory.
fn put_walks(
    out: &mut Answer,
    problem: &Problem,
    walk: &mut Walk,
    budgets: &[u64],
    all: &mut Walk,
) -> Result<(), Memory> {
    out.word(make(all, budgets.last().copied().unwrap_or(0))?);
    put_end(out, problem, all)?;
    let same = put_pieces(out, problem, walk, budgets, all)?;
    out.number("\nrestored ", same);
    Ok(())
}

/// Puts what two walks of a problem come to by the numbers of tries of a column. The error is out of memory.
fn walk_told(out: &mut Answer, problem: &Problem, column: &str) -> Result<(), Memory> {
    let budgets = numbers_in(out.alloc, column)?;
    let mut all = Walk::new(out.alloc, problem)?;
    let mut walk = Walk::new(out.alloc, problem)?;
    put_walks(out, problem, &mut walk, &budgets, &mut all)
}

/// The position of five columns.
fn position_in(alloc: Global, columns: &[&str]) -> Result<Position, Memory> {
    Ok(Position {
        chosen: Places::new(places_in(alloc, column(columns, 0))?),
        next: short_in(column(columns, 1)),
        best: best_in(alloc, column(columns, 2))?,
        tries: number_in(column(columns, 3), u64::MAX),
        done: column(columns, 4) == "done",
    })
}

/// Puts what a restored walk comes to in 1,000 tries. The error is out of memory.
fn put_restored(out: &mut Answer, walk: &mut Walk) -> Result<(), Memory> {
    make(walk, 1000)?;
    out.best("restored ", walk.best());
    out.word(" ");
    out.put(walk.tokens());
    Ok(())
}

/// Puts what a walk comes to that is restored at five columns, with the letters of the sixth. The error is out of memory.
fn restored(out: &mut Answer, problem: &Problem, columns: &[&str]) -> Result<(), Memory> {
    let position = position_in(out.alloc, columns)?;
    match Walk::restore(out.alloc, problem, &position, column(columns, 5).as_bytes()) {
        Ok(mut walk) => return put_restored(out, &mut walk),
        Err(RestoreFault::IllFormed) => out.word("IllFormed"),
        Err(RestoreFault::Memory) => out.lack(),
    }
    Ok(())
}

/// Puts where a resumed search stands after so many tries. The error is out of memory.
fn put_stand(out: &mut Answer, walk: &mut Walk, tries: u64) -> Result<(), Memory> {
    let state = make(walk, tries)?;
    out.word(match walk {
        Walk::Bnb(_) => "bnb ",
        Walk::Grinder(_) => "grinder ",
    });
    out.word(state);
    let position = walk.position(out.alloc)?;
    put_position(out, &position);
    put_letters(out, position.tries, walk);
    Ok(())
}

/// The search that goes on from the saved text of the first column. A job that is no digest is one of zeros.
fn resumed_in(alloc: Global, problem: &Problem, columns: &[&str]) -> Result<Walk, SavedFault> {
    let text = unescaped(alloc, column(columns, 0).as_bytes())?;
    let saved = read_saved(alloc, &text)?;
    let job = digest_in(column(columns, 1)).unwrap_or([0; 32]);
    resume(alloc, &saved, job, problem, column(columns, 2).as_bytes())
}

/// Puts where a search stands that goes on from a saved text, or why it doesn't. The error is out of memory.
fn resumed(out: &mut Answer, problem: &Problem, columns: &[&str]) -> Result<(), Memory> {
    match resumed_in(out.alloc, problem, columns) {
        Ok(mut walk) => put_stand(out, &mut walk, number_in(column(columns, 3), 0)),
        Err(fault) => {
            put_saved_fault(out, fault);
            Ok(())
        }
    }
}

/// Puts what a verb comes to at a problem. The error is out of memory.
pub(crate) fn walk_row(
    out: &mut Answer,
    verb: &str,
    problem: &Problem,
    columns: &[&str],
) -> Result<(), Memory> {
    match verb {
        "walk" => walk_told(out, problem, column(columns, 0)),
        "restore" => restored(out, problem, columns),
        "resume" => resumed(out, problem, columns),
        _ => {
            out.word("no such row");
            Ok(())
        }
    }
}
