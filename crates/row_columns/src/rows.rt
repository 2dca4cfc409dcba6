//! Rows that are read from the input, each with what is printed of it.

use crate::answer::Answer;
use std::io;
use std::io::{BufRead, BufReader};

/// What answers the rows of a program.
pub trait Rows {
    /// Puts what a row of these columns comes to, of which there is one at least. The error is of a file.
    fn put_row(&mut self, rt: &HostRuntime, out: &mut Answer, columns: &[&str]) -> io::Result<()>;
}

/// Puts what a line comes to.
fn put_line<R: Rows>(
    rt: &HostRuntime,
    rows: &mut R,
    out: &mut Answer,
    line: &str,
) -> io::Result<()> {
    let columns: Vec<&str> = line.split('\t').collect(out.alloc)?;
    rows.put_row(rt, out, &columns)
}

/// Answers a line, and prints the answer.
fn show<R: Rows>(rt: &HostRuntime, rows: &mut R, line: &str) -> io::Result<()> {
    let mut out = Answer::new(rt.alloc());
    put_line(rt, rows, &mut out, line)?;
    out.print(rt)
}

/// Answers each line of the input, whose columns have tabs between them. The error is of the input, of the output or of a file,
/// or out of memory.
pub fn answer_rows<R: Rows>(rt: &HostRuntime, rows: &mut R) -> io::Result<()> {
    for line in BufReader::new(rt.alloc(), rt.reader())?.lines(rt.alloc()) {
        show(rt, rows, line?.as_str())?;
    }
    Ok(())
}
