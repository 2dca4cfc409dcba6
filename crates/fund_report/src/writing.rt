//! A report written as its text: one walk, over a writer that counts bytes or keeps them.

ghost use Rattle.std.specs.Prelude.{◌≡◌, ◌++◌, codes, reverse, IfOk, OnOk};
ghost use Rattle.std.specs.Fmt.{decimal, signed_decimal};
ghost use Rattle.std.specs.List.{flat_map};
ghost use Rattle.hex.specs.Hex.{encode_lower};
ghost use Rattle.closing_log.specs.LogText.{stage_word};
ghost use Rattle.closing_log.specs.MarkWord.{mark_word};
ghost use Rattle.fund_base.specs.Writer.{Feeds};
ghost use Rattle.fund_report.specs.ReportText.{CanBeRead, IsReportText, IsSized, change_text, figures_text, found_text, in_line, line, none_text, paid_text, text_of, unfinished_text};

use crate::report::{FundedReport, InLine, Report};
use closing_log::{Mark, Stage, Worded, write_decimal, write_digest};
use fund_base::{Length, Memory, Txid, Writer};
use itoa::Buffer;
use std::alloc::Global;

/// Writes the line of a word, `name` being its name and a blank.
fn write_word<W: Writer>(out: &mut W, name: &[u8], word: &[u8]) -> Result<(), W::Error>
    ensures { OnOk result (Feeds W.holds out.old out.new (line name.now word.now)) }
{
    out.write_bytes(name)?;
    out.write_bytes(word)?;
    out.write_bytes(b"\n")
}

/// Writes the line of a number, `name` being its name and a blank.
fn write_number<W: Writer>(out: &mut W, name: &[u8], number: u64) -> Result<(), W::Error>
    ensures { OnOk result (Feeds W.holds out.old out.new (line name.now (decimal number))) }
{
    out.write_bytes(name)?;
    write_decimal(out, number)?;
    out.write_bytes(b"\n")
}

fn write_mark<W: Writer>(out: &mut W, mark: Mark) -> Result<(), W::Error>
    ensures { OnOk result (Feeds W.holds out.old out.new (line (codes "funded ") (mark_word mark))) }
{
    write_word(out, b"funded ", mark.word().as_bytes())
}

fn write_stage<W: Writer>(out: &mut W, stage: Stage) -> Result<(), W::Error>
    ensures { OnOk result (Feeds W.holds out.old out.new (line (codes "stage ") (stage_word stage))) }
{
    write_word(out, b"stage ", stage.word().as_bytes())
}

/// Writes the lines before the coins.
fn write_found<W: Writer>(out: &mut W, report: &FundedReport) -> Result<(), W::Error>
    ensures { OnOk result (Feeds W.holds out.old out.new (found_text report.now)) }
{
    write_mark(out, report.mark)?;
    write_number(out, b"row ", report.row as u64)?;
    write_stage(out, report.stage)?;
    write_number(out, b"tries ", report.tries)?;
    Ok(())
}

/// Writes a txid as it is shown, with its bytes reversed.
fn write_txid<W: Writer>(out: &mut W, txid: &Txid) -> Result<(), W::Error>
    ensures { OnOk result (Feeds W.holds out.old out.new (encode_lower (reverse txid.now))) }
{
    let mut bytes = *txid.bytes();
    bytes.reverse();
    write_digest(out, &bytes)
}

/// Writes a coin's index and value, with what stands before each.
fn write_amounts<W: Writer>(out: &mut W, index: u32, value: u64) -> Result<(), W::Error>
    ensures { OnOk result (Feeds W.holds out.old out.new (codes ":" ++ (decimal index ++ (codes " " ++ decimal value)))) }
{
    out.write_bytes(b":")?;
    write_decimal(out, index as u64)?;
    out.write_bytes(b" ")?;
    write_decimal(out, value)
}

#[tactic(auto, using(crate::proofs::WrittenLaws::feeds_coin))]
fn write_coin<W: Writer>(out: &mut W, line: &InLine) -> Result<(), W::Error>
    ensures { OnOk result (Feeds W.holds out.old out.new (in_line line.now)) }
{
    out.write_bytes(b"in ")?;
    write_txid(out, &line.coin.txid)?;
    write_amounts(out, line.coin.index, line.value)?;
    out.write_bytes(b"\n")?;
    Ok(())
}

fn write_coins<W: Writer>(out: &mut W, lines: &[InLine]) -> Result<(), W::Error>
    ensures { OnOk result (Feeds W.holds out.old out.new (flat_map in_line lines.now)) }
{
    for line in lines {
        write_coin(out, line)?;
    }
    Ok(())
}

fn write_waste<W: Writer>(out: &mut W, report: &FundedReport) -> Result<(), W::Error>
    ensures { OnOk result (Feeds W.holds out.old out.new (line (codes "waste ") (signed_decimal report.now.waste))) }
{
    let mut buffer = Buffer::new();
    write_word(out, b"waste ", buffer.format(report.waste).as_bytes())
}

/// Writes the lines of what the payment comes to.
fn write_figures<W: Writer>(out: &mut W, report: &FundedReport) -> Result<(), W::Error>
    ensures { OnOk result (Feeds W.holds out.old out.new (figures_text report.now)) }
{
    write_number(out, b"weight ", report.weight)?;
    write_number(out, b"vsize ", report.vsize)?;
    write_number(out, b"fee ", report.fee)?;
    write_waste(out, report)?;
    Ok(())
}

fn write_change<W: Writer>(out: &mut W, change: Option<u64>) -> Result<(), W::Error>
    ensures { OnOk result (Feeds W.holds out.old out.new (line (codes "change ") (change_text change))) }
{
    match change {
        None => write_word(out, b"change ", b"none"),
        Some(amount) => write_number(out, b"change ", amount),
    }
}

/// Writes the lines of what is paid.
fn write_paid<W: Writer>(out: &mut W, report: &FundedReport) -> Result<(), W::Error>
    ensures { OnOk result (Feeds W.holds out.old out.new (paid_text report.now)) }
{
    write_change(out, report.change)?;
    write_word(out, b"psbt ", report.text.as_slice())?;
    Ok(())
}

#[tactic(auto, using(crate::proofs::WrittenLaws::feeds_funded))]
fn write_funded<W: Writer>(out: &mut W, report: &FundedReport) -> Result<(), W::Error>
    ensures { OnOk result (Feeds W.holds out.old out.new (text_of (Report.Funded report.now))) }
{
    write_found(out, report)?;
    write_coins(out, &report.coins)?;
    write_figures(out, report)?;
    write_paid(out, report)?;
    Ok(())
}

fn write_none<W: Writer>(out: &mut W, tries: u64) -> Result<(), W::Error>
    ensures { OnOk result (Feeds W.holds out.old out.new (none_text tries)) }
{
    out.write_bytes(b"none\n")?;
    write_number(out, b"tries ", tries)
}

fn write_unfinished<W: Writer>(
    out: &mut W,
    tries: u64,
    row: u8,
    stage: Stage,
) -> Result<(), W::Error>
    ensures { OnOk result (Feeds W.holds out.old out.new (unfinished_text tries row stage)) }
{
    out.write_bytes(b"unfinished\n")?;
    write_number(out, b"tries ", tries)?;
    write_number(out, b"row ", row as u64)?;
    write_stage(out, stage)
}

#[tactic(auto, unfolding(crate::specs::ReportText::text_of))]
fn write_text<W: Writer>(out: &mut W, report: &Report) -> Result<(), W::Error>
    ensures { OnOk result (Feeds W.holds out.old out.new (text_of report.now)) }
{
    match report {
        Report::Funded(funded) => write_funded(out, funded),
        Report::NoSelection { tries } => write_none(out, *tries),
        Report::Unfinished { tries, row, stage } => write_unfinished(out, *tries, *row, *stage),
    }
}

/// How many bytes the text has; a greater number than 18,446,744,073,709,551,615 counts as that number.
fn text_len(report: &Report) -> u64 {
    let mut length = Length::new();
    match write_text(&mut length, report) {
        Ok(()) => length.get(),
        Err(never) => match never {},
    }
}

/// The text of a report, txids in lower case. It takes as much memory as the text has bytes, and its one error is to be
/// out of memory. A stage `wide` is written, and no report with it is read.
pub fn write_report(alloc: Global, report: &Report) -> Result<Vec<u8>, Memory>
    ensures text { IfOk result (λ text. text.items ≡ text_of report.now) }

    // Where the report can be read, the text is one of it.
    ensures means { IfOk result (λ text. CanBeRead report.now → IsSized report.now → IsReportText text.items report.now) }
{
    let mut text = Vec::with_capacity(alloc, text_len(report) as usize)?;
    write_text(&mut text, report)?;
    Ok(text)
}
