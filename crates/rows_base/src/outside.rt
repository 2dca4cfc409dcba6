//! The outside: files in memory whose reads or writes fail (`reads`, `writes`) or never do (`sure`), a file of the system (`file`),
//! what the system refuses (`refused`), outputs in memory (`mem-sink`, `sure-sink`), the standard output (`std-sink`), and outputs
//! that fail (`failing-sinks`).

use crate::{shelves, sinks};
use fund_base::Memory;
use row_columns::Answer;

/// Answers a row that may lack memory.
fn answer(out: &mut Answer, verb: &str) -> Result<(), Memory> {
    match verb {
        "reads" => shelves::reads(out),
        "writes" => shelves::writes(out),
        "sure" => shelves::sure(out),
        _ => sinks::mem(out),
    }
}

pub(crate) fn row(rt: &HostRuntime, out: &mut Answer, verb: &str) {
    match verb {
        "file" => shelves::file(rt, out),
        "refused" => shelves::refused(rt, out),
        "std-sink" => sinks::standard(rt, out),
        "failing-sinks" => sinks::failing(out),
        "sure-sink" => sinks::sure(out),
        _ => {
            let ended = answer(out, verb);
            out.end(ended);
        }
    }
}
