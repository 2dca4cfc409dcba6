//! Answers each row of its input. A row's columns have tabs between them: a family, a verb, and what the verb is about; a line
//! without a tab is printed itself. Bytes are in hex, `-` for none. What it must print was worked out apart from this program.
//! The module of each family says what its rows are.
#![tactic(auto)]

mod addresses;
mod advice;
mod base58;
mod books;
mod bumps;
mod candidates;
mod copies;
mod faults;
mod feeds;
mod fields;
mod files;
mod keys;
mod listings;
mod named_faults;
mod pieces;
mod psbts;
mod requests;
mod shown;
mod states;
mod transactions;
mod words;

use row_columns::{Answer, Rows, answer_rows};
use std::io;

/// Answers a row.
fn row(out: &mut Answer, family: &str, verb: &str, columns: &[&str]) {
    match family {
        "tx" => transactions::row(out, verb, columns),
        "psbt" => psbts::row(out, verb, columns),
        "feed" => feeds::row(out, verb, columns),
        "address" => addresses::row(out, verb, columns),
        "base58" => base58::row(out, verb, columns),
        "json" => fields::row(out, verb, columns),
        "file" => files::row(out, verb, columns),
        "keys" => keys::row(out, verb, columns),
        "words" => words::row(out, verb, columns),
        "advice" => advice::row(out, verb, columns),
        "plain" => copies::row(out),
        _ => out.word("no such family"),
    }
}

/// What answers the rows of this program.
#[derive(Clone, Copy)]
struct Families;

impl Rows for Families {
    fn put_row(&mut self, _rt: &HostRuntime, out: &mut Answer, columns: &[&str]) -> io::Result<()> {
        match columns {
            [family, verb, columns @ ..] => row(out, family, verb, columns),
            [text] => out.word(text),
            [] => {}
        }
        out.end_line();
        Ok(())
    }
}

fn main(rt: HostRuntime) -> io::Result<()> {
    answer_rows(&rt, &mut Families)
}
