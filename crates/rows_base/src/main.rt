//! Answers each row of its input. A row's columns have tabs between them: a family, a verb, and what the verb is about; a line
//! without a tab is printed itself. Bytes are in hex, `-` for none. What it must print was worked out apart from this program.
//! The module of each family says what its rows are.
#![tactic(auto)]

mod bytes;
mod coins;
mod fees;
mod keepers;
mod outside;
mod packed;
mod plans;
mod pools;
mod reports;
mod sharing;
mod shelves;
mod sinks;
mod wide;

use fund_base::Memory;
use row_columns::{Answer, Rows, answer_rows};
use std::io;

/// Answers a row. The error is out of memory.
fn row(
    rt: &HostRuntime,
    out: &mut Answer,
    family: &str,
    verb: &str,
    columns: &[&str],
) -> Result<(), Memory> {
    match family {
        "fees" => fees::row(out, verb, columns),
        "bytes" => bytes::row(out, verb, columns),
        "outside" => outside::row(rt, out, verb),
        "keeper" => return keepers::row(out, verb, columns),
        "packed" => return packed::row(out, verb, columns),
        "wide" => return wide::row(out, verb, columns),
        "shares" => return sharing::row(out, columns),
        "coins" => return pools::row(out, verb, columns),
        "report" => return reports::row(out, verb, columns),
        _ => out.word("no such family"),
    }
    Ok(())
}

/// What answers the rows of this program.
#[derive(Clone, Copy)]
struct Families;

impl Rows for Families {
    fn put_row(&mut self, rt: &HostRuntime, out: &mut Answer, columns: &[&str]) -> io::Result<()> {
        match columns {
            [family, verb, columns @ ..] => {
                let ended = row(rt, out, family, verb, columns);
                out.end(ended);
            }
            [text] => out.word(text),
            [] => {}
        }
        out.end_line();
        Ok(())
    }
}

fn main(rt: HostRuntime) -> io::Result<()> {
    answer_rows(&rt, &mut Families)
}
