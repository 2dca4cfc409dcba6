//! Rows of what has no problem and no text: `plain VERB`, and what the verb needs.
//!
//! - `wastes`: those of a payment without change and of one with it
//! - `positions`: a position, and whether what may be the matter with one is told apart
//! - `tokens`: the letters of the tokens of letters, and what those of F and of a letter of none are
//! - `before PLACES PLACES`: whether the first list comes before the second

use fund_base::{Memory, Places};
use pick_problem::{Ending, Position, Progress, Reason, RestoreFault, Token, before, waste};
use row_columns::{Answer, column, places_in};

/// Puts a position, and whether what may be the matter with one is told apart.
fn put_positions(out: &mut Answer) {
    let at = Position {
        chosen: Places::new(Vec::new(out.alloc)),
        next: 1,
        best: None,
        tries: 1,
        done: false,
    };
    let are_apart = Progress::Open != Progress::Done
        && RestoreFault::IllFormed != RestoreFault::Memory
        && RestoreFault::from(Memory) == RestoreFault::Memory;
    out.number("position ", u64::from(at.next));
    out.number(" ", at.tries);
    out.flag(" ", at.done);
    out.flag(", faults apart ", are_apart);
}

/// Puts the letters of the tokens of letters, and what those of F and of a letter of none are.
fn put_tokens(out: &mut Answer) {
    out.word("tokens ");
    for letter in b"ITSOHMWLFA" {
        match Token::of(*letter) {
            Some(token) => out.put(&[token.letter()]),
            None => out.word("-"),
        }
    }
    match (Token::of(b'F'), Token::of(b'i')) {
        (Some(Token::Close(Reason::Far)), None) => out.word(" far none"),
        _ => out.word(" others"),
    }
}

/// Puts whether the places of the first column come before those of the second. The error is out of memory.
fn put_before(out: &mut Answer, columns: &[&str]) -> Result<(), Memory> {
    let first = places_in(out.alloc, column(columns, 1))?;
    let second = places_in(out.alloc, column(columns, 2))?;
    out.flag("", before(&first, &second));
    Ok(())
}

/// Puts what such a row comes to. The error is out of memory.
pub(crate) fn plain_row(out: &mut Answer, columns: &[&str]) -> Result<(), Memory> {
    match column(columns, 0) {
        "wastes" => {
            out.signed("wastes ", waste(-680, Ending::Excess(990)));
            out.signed(" ", waste(-272, Ending::Change(866)));
        }
        "positions" => put_positions(out),
        "tokens" => put_tokens(out),
        "before" => return put_before(out, columns),
        _ => out.word("no such row"),
    }
    Ok(())
}
