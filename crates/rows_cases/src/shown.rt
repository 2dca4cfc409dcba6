//! What is printed.

use fund_base::Memory;
use fund_shelf::{StdSink, put_all};
use itoa::Buffer;
use row_columns::unescaped;

/// Prints bytes.
pub(crate) fn show(rt: &HostRuntime, bytes: &[u8]) {
    let mut out = StdSink::new(rt);
    let _ = put_all(&mut out, bytes);
}

/// Prints a line.
pub(crate) fn show_line(rt: &HostRuntime, line: &str) {
    show(rt, line.as_bytes());
    show(rt, b"\n");
}

/// Prints what a column stands for.
pub(crate) fn show_column(rt: &HostRuntime, column: &str) -> Result<(), Memory> {
    show(rt, &unescaped(rt.alloc(), column.as_bytes())?);
    Ok(())
}

/// Prints words and a number.
pub(crate) fn show_number(rt: &HostRuntime, words: &[u8], number: u64) {
    let mut digits = Buffer::new();
    show(rt, words);
    show(rt, digits.format(number).as_bytes());
}

/// Prints words and a number on a line.
pub(crate) fn show_count(rt: &HostRuntime, words: &[u8], number: u64) {
    show_number(rt, words, number);
    show(rt, b"\n");
}
