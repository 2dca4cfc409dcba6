//! Reads rows, and prints what each comes to. What it must print was worked out apart from this program. A row's columns have
//! tabs between them; the first names what the row is of, and the module of that says what stands in the others:
//!
//! - `run`: a run over steps and its calls (`runs`)
//! - `problem`: a problem, its selections, draws, logs and walks (`problems`, `walks`)
//! - `text`: logs, saved positions and parts of their lines (`readings`)
//! - `plain`: what has none of these (`plain`)
#![tactic(auto)]

mod checking;
mod log_texts;
mod plain;
mod problems;
mod readings;
mod results;
mod runs;
mod saved_texts;
mod steps;
mod walks;

use fund_base::Memory;
use row_columns::{Answer, Rows, answer_rows};
use std::io;

/// Puts what a row comes to behind its first column. The error is out of memory.
fn row(out: &mut Answer, family: &str, columns: &[&str]) -> Result<(), Memory> {
    match family {
        "run" => runs::run_row(out, columns),
        "problem" => problems::problem_row(out, columns),
        "text" => readings::text_row(out, columns),
        _ => plain::plain_row(out, columns),
    }
}

/// What answers the rows of this program.
#[derive(Clone, Copy)]
struct Searches;

impl Rows for Searches {
    fn put_row(&mut self, _rt: &HostRuntime, out: &mut Answer, columns: &[&str]) -> io::Result<()> {
        if let Some((family, rest)) = columns.split_first() {
            let ended = row(out, family, rest);
            out.end(ended);
        }
        out.word("\n");
        Ok(())
    }
}

fn main(rt: HostRuntime) -> io::Result<()> {
    answer_rows(&rt, &mut Searches)
}
