//! The summary of a workload's run.

ghost use Rattle.std.specs.Prelude.{◌≡◌, ◌++◌, codes, IfOk, OnOk};
ghost use Rattle.std.specs.Fmt.{decimal};
ghost use Rattle.fund_base.specs.Writer.{Feeds};
ghost use Rattle.command_work.specs.Summary.{digest_line, summary_of, summary_text, title_of};

use crate::lines::put_short;
use closing_log::{write_decimal, write_digest};
use fund_base::{Memory, Writer};
use fund_report::{Report, write_report};
use sha2::{Digest, Sha256};
use std::alloc::Global;

/// Writes the number and the count.
fn write_words<W: Writer>(out: &mut W, number: u64, count: u32) -> Result<(), W::Error>
    ensures { OnOk result (Feeds W.holds out.old out.new (decimal number ++ (codes " " ++ decimal count))) }
{
    write_decimal(out, number)?;
    out.write_bytes(b" ")?;
    write_decimal(out, u64::from(count))
}

/// Writes the first line.
fn write_title<W: Writer>(out: &mut W, number: u64, count: u32) -> Result<(), W::Error>
    ensures { OnOk result (Feeds W.holds out.old out.new (title_of number count)) }
{
    out.write_bytes(b"work ")?;
    write_words(out, number, count)?;
    out.write_bytes(b"\n")
}

/// Writes the last line, of the report with this text.
fn write_name<W: Writer>(out: &mut W, text: &[u8]) -> Result<(), W::Error>
    ensures { OnOk result (Feeds W.holds out.old out.new (digest_line text.now)) }
{
    let digest = Sha256::digest(text);
    out.write_bytes(b"report ")?;
    write_digest(out, &digest)?;
    out.write_bytes(b"\n")
}

/// The summary of the run of a number and a count, by the text of its report: `work` with both, the lines of the report
/// but for those of coins and of the PSBT, and `report` with the SHA-256 of the whole text in hex. The error is to be out
/// of memory.
pub fn summarize(alloc: Global, number: u64, count: u32, report: &[u8]) -> Result<Vec<u8>, Memory>
    ensures { IfOk result (λ text. text.items ≡ summary_text number count report.now) }
{
    let mut text = Vec::new(alloc);
    write_title(&mut text, number, count)?;
    put_short(&mut text, report)?;
    write_name(&mut text, report)?;
    Ok(text)
}

/// The same, of a report that isn't written yet.
pub fn write_summary(
    alloc: Global,
    number: u64,
    count: u32,
    report: &Report,
) -> Result<Vec<u8>, Memory>
    ensures { IfOk result (λ text. text.items ≡ summary_of number count report.now) }
{
    let report = write_report(alloc, report)?;
    summarize(alloc, number, count, &report)
}
