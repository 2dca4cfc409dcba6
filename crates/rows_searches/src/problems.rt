//! Rows of problems: `problem VERB KIND LO HI WEIGHT ITEMS`, and what the verb needs. The five columns of the problem are
//! `changeless` or `lean`, the least and the greatest value, the limit of weight, and the items with blanks between them, as
//! VALUE/WEIGHT/COST, `-` for none.
//!
//! - `digest`: the digest of the problem
//! - `best`: its best selection and that one's score
//! - `sums PLACES`: what the places come to
//! - `tails`: of each place and the one after the last, the later value and the least weight, and of each place the end of its
//!   run of twins
//! - `draw SEED`: the first four words of a seed in hex, the order of the places, and what is drawn of a lean problem
//! - `check ANSWER LETTERS`: what a checker says of a log, and where that differs what it says of the letters one by one
//! - `walk`, `restore` and `resume`: `walks` says what they are

ghost use Rattle.std.specs.Prelude.{◌<◌, ◌≡◌, length};

use crate::checking::check;
use crate::walks::walk_row;
use fund_base::Memory;
use pick_problem::{Kind, Problem, Tails, best_by_trying};
use rand_chacha::ChaCha20Rng;
use rand_core::SeedableRng;
use rand_core::utils::NextWord;
use random_draw::{draw, order};
use row_columns::{Answer, column, digest_in, places_in, places_of, problem_in};

/// Puts the best selection of the problem, found by trying all, its score, and whether it is admissible. The error is out of
/// memory.
fn put_best(out: &mut Answer, problem: &Problem) -> Result<(), Memory> {
    if problem.items().len() > 16 {
        out.word("more than 16 items");
        return Ok(());
    }
    match best_by_trying(out.alloc, problem)? {
        Some(best) => {
            let places = best.as_slice();
            let score = problem.score(places);
            out.places("", places);
            out.signed(" score ", score.first);
            out.large(" ", score.second);
            out.flag(" admissible ", problem.admissible(places));
        }
        None => out.word("none"),
    }
    Ok(())
}

/// Puts what these places of the problem come to, and the problem's numbers.
fn put_sums(out: &mut Answer, problem: &Problem, places: &[u32]) {
    if !problem.are_places(places) {
        return out.word("no places");
    }
    out.large("value ", problem.value(places));
    out.number(" weight ", problem.weight(places));
    out.signed(" cost ", problem.cost(places));
    out.word(match problem.kind() {
        Kind::Changeless => " of changeless",
        Kind::Lean => " of lean",
    });
    out.number(" ", problem.lo());
    out.number(" ", problem.hi());
    out.number(" ", problem.most_weight());
}

/// Puts the digest of a copy of the problem, or what the places of a column come to in it. The error is out of memory.
fn put_copy(out: &mut Answer, problem: &Problem, sums: bool, column: &str) -> Result<(), Memory> {
    let copy = problem.copy()?;
    if sums {
        let places = places_in(out.alloc, column)?;
        put_sums(out, &copy, &places);
    } else {
        out.digits("", &copy.digest());
    }
    Ok(())
}

/// Puts the later value and the least weight of a place or of the one after the last.
fn put_tail(out: &mut Answer, tails: &Tails, t: u32)
    requires { t < length tails.now }
{
    out.number("", u64::from(t));
    out.large(": ", tails.later_value(t));
    match tails.least_weight(t) {
        Some(weight) => out.number(" ", weight),
        None => out.word(" none"),
    }
}

/// Puts what the problem has from each place on. The error is out of memory.
fn put_tails(out: &mut Answer, problem: &Problem) -> Result<(), Memory> {
    let tails = Tails::new(out.alloc, problem)?;
    let count = problem.items().len() as u32;
    for t in 0..count {
        put_tail(out, &tails, t);
        out.number(" ", u64::from(tails.run_end(t)));
        out.word("; ");
    }
    put_tail(out, &tails, count);
    Ok(())
}

/// Puts the first four words of a seed.
fn put_words(out: &mut Answer, seed: [u8; 32]) {
    let mut words = ChaCha20Rng::from_seed(seed);
    out.word("words");
    for _ in 0..4 {
        out.digits(" ", &words.next_word().to_be_bytes());
    }
}

/// Puts the order of the places and what is drawn. The error is out of memory.
fn put_draw(out: &mut Answer, problem: &Problem, seed: [u8; 32]) -> Result<(), Memory>
    requires { problem.now.kind ≡ Kind.Lean }
{
    let order = order(out.alloc, problem.items().len() as u32, seed)?;
    out.places(", order ", order.as_slice());
    let found = draw(out.alloc, problem, seed)?;
    out.best(", found ", places_of(&found));
    Ok(())
}

/// Draws by the seed of a column. The error is out of memory.
fn drawn(out: &mut Answer, problem: &Problem, column: &str) -> Result<(), Memory> {
    let Some(seed) = digest_in(column) else {
        out.word("no seed");
        return Ok(());
    };
    put_words(out, seed);
    match problem.kind() {
        Kind::Lean => return put_draw(out, problem, seed),
        Kind::Changeless => out.word("no draw"),
    }
    Ok(())
}

/// Puts what a verb comes to at a problem. The error is out of memory.
fn at_problem(
    out: &mut Answer,
    verb: &str,
    problem: &Problem,
    columns: &[&str],
) -> Result<(), Memory> {
    match verb {
        "digest" => put_copy(out, problem, false, ""),
        "best" => put_best(out, problem),
        "sums" => put_copy(out, problem, true, column(columns, 0)),
        "tails" => put_tails(out, problem),
        "draw" => drawn(out, problem, column(columns, 0)),
        "check" => check(out, problem, columns),
        _ => walk_row(out, verb, problem, columns),
    }
}

/// Puts what a row of a problem comes to. The error is out of memory.
pub(crate) fn problem_row(out: &mut Answer, columns: &[&str]) -> Result<(), Memory> {
    if columns.len() < 6 {
        out.word("no problem");
        return Ok(());
    }
    match problem_in(out.alloc, &columns[1..6])? {
        Some(problem) => at_problem(out, columns[0], &problem, &columns[6..]),
        None => {
            out.word("no problem");
            Ok(())
        }
    }
}
