//! Outputs in memory and of the system, where a put fails.

ghost use Rattle.std.specs.Prelude.{◌≤◌, length, IfOk};

use crate::shelves::put_end;
use fund_base::Memory;
use fund_shelf::{MemSink, Sink, StdSink, SureSink, put_all};
use row_columns::Answer;
use std::fmt::Display;
use std::io::{self, ErrorKind, Print};

/// An output that isn't the standard one.
#[derive(Clone, Copy, Drop)]
enum Output {
    /// It fails.
    Fails,
    /// It says that it has taken nothing.
    TakesNothing,
    /// It takes a byte at a time.
    TakesOne,
}

fn broken() -> io::Error {
    io::Error::from(ErrorKind::BrokenPipe)
}

impl Print for Output {
    fn print<D: Display + Drop>(&self, _value: D) -> io::Result<()> {
        Err(broken())
    }

    fn println<D: Display + Drop>(&self, _value: D) -> io::Result<()> {
        Err(broken())
    }

    fn write_all(&self, _bytes: &[u8]) -> io::Result<()> {
        Err(broken())
    }

    fn write_some(&self, bytes: &[u8]) -> io::Result<usize>
        ensures bound { IfOk result (λ n. n ≤ length bytes.now) }
    {
        match self {
            Output::Fails => Err(broken()),
            Output::TakesNothing => Ok(0),
            Output::TakesOne => Ok(bytes.len().min(1)),
        }
    }
}

/// Puts bytes on an output, and puts how that ended.
fn put_put<O: Sink>(out: &mut Answer, sink: &mut O, what: &str, bytes: &[u8]) {
    out.word(what);
    put_end(out, put_all(sink, bytes));
}

/// The put numbered 1 fails.
pub(crate) fn mem(out: &mut Answer) -> Result<(), Memory> {
    let mut sink = MemSink::new(out.alloc, Vec::from_slice(out.alloc, &[1])?);
    for bytes in [b"one ".as_slice(), b"two ", b"three"] {
        put_put(out, &mut sink, "put: ", bytes);
    }
    out.digits("written: ", sink.written());
    Ok(())
}

/// No put fails.
pub(crate) fn sure(out: &mut Answer) {
    let mut sink = SureSink::new(out.alloc);
    put_put(out, &mut sink, "put: ", b"all");
    out.digits("written: ", sink.written());
}

/// The standard output.
pub(crate) fn standard(rt: &HostRuntime, out: &mut Answer) {
    put_put(out, &mut StdSink::new(rt), "put: ", b"put\n");
}

/// Outputs that fail.
pub(crate) fn failing(out: &mut Answer) {
    put_put(
        out,
        &mut StdSink::new(Output::Fails),
        "an output that fails: ",
        b"some bytes",
    );
    let mut nothing = StdSink::new(Output::TakesNothing);
    put_put(
        out,
        &mut nothing,
        "an output that takes nothing: ",
        b"some bytes",
    );
    let mut one = StdSink::new(Output::TakesOne);
    put_put(
        out,
        &mut one,
        "an output that takes a byte at a time: ",
        b"some bytes",
    );
}
