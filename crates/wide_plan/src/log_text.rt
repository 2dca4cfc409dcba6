//! The log of a wide search as a text.

ghost use Rattle.std.specs.Prelude.{◌≡◌, ◌++◌, codes, IfOk, OnOk};
ghost use Rattle.std.specs.Fmt.{decimal};
ghost use Rattle.std.specs.List.{flat_map};
ghost use Rattle.hex.specs.Hex.{encode_lower};
ghost use Rattle.closing_log.specs.LogText.{answer_text};
ghost use Rattle.fund_base.specs.Writer.{Feeds};
ghost use Rattle.wide_plan.specs.LogText.{section_text, text_of};

use crate::rows::WideSection;
use closing_log::{write_decimal, write_digest, write_places};
use fund_base::{Length, Memory, Places, Writer};
use std::alloc::Global;

fn write_answer<W: Writer>(out: &mut W, answer: &Option<Places>) -> Result<(), W::Error>
    ensures { OnOk result (Feeds W.holds out.old out.new (answer_text answer.now)) }
{
    match answer {
        None => out.write_bytes(b"none"),
        Some(places) => write_places(out, places.as_slice()),
    }
}

/// Writes a row's number and digest.
fn write_head<W: Writer>(out: &mut W, row: u8, digest: &[u8; 32]) -> Result<(), W::Error>
    ensures { OnOk result (Feeds W.holds out.old out.new (codes "section " ++ (decimal row ++ (codes " " ++ encode_lower digest.now)))) }
{
    out.write_bytes(b"section ")?;
    write_decimal(out, row as u64)?;
    out.write_bytes(b" ")?;
    write_digest(out, digest)
}

/// Writes a row's letters and answer.
fn write_tree<W: Writer>(out: &mut W, section: &WideSection) -> Result<(), W::Error>
    ensures { OnOk result (Feeds W.holds out.old out.new (codes "\ntokens " ++ (section.now.letters ++ (codes "\nanswer " ++ (answer_text section.now.answer ++ codes "\n"))))) }
{
    out.write_bytes(b"\ntokens ")?;
    out.write_bytes(section.tokens.as_slice())?;
    out.write_bytes(b"\nanswer ")?;
    write_answer(out, &section.answer)?;
    out.write_bytes(b"\n")
}

fn write_section<W: Writer>(out: &mut W, section: &WideSection) -> Result<(), W::Error>
    ensures { OnOk result (Feeds W.holds out.old out.new (section_text section.now)) }
{
    write_head(out, section.row, &section.digest)?;
    write_tree(out, section)
}

fn write_rows<W: Writer>(out: &mut W, sections: &[WideSection]) -> Result<(), W::Error>
    ensures { OnOk result (Feeds W.holds out.old out.new (flat_map section_text sections.now)) }
{
    for section in sections {
        write_section(out, section)?;
    }
    Ok(())
}

fn write_text<W: Writer>(out: &mut W, sections: &[WideSection]) -> Result<(), W::Error>
    ensures { OnOk result (Feeds W.holds out.old out.new (text_of sections.now)) }
{
    out.write_bytes(b"wide-log 1\n")?;
    write_rows(out, sections)?;
    out.write_bytes(b"end\n")?;
    Ok(())
}

/// How many bytes the text has; a greater number than 18,446,744,073,709,551,615 counts as that number.
fn text_len(sections: &[WideSection]) -> u64 {
    let mut length = Length::new();
    match write_text(&mut length, sections) {
        Ok(()) => length.get(),
        Err(never) => match never {},
    }
}

/// The text of the log of a wide search, which has these finished rows; digests are in lower case. It takes as much memory
/// as the text has bytes, and its one error is to be out of memory.
pub fn write_wide_log(alloc: Global, sections: &[WideSection]) -> Result<Vec<u8>, Memory>
    ensures { IfOk result (λ text. text.items ≡ text_of sections.now) }
{
    let mut text = Vec::with_capacity(alloc, text_len(sections) as usize)?;
    write_text(&mut text, sections)?;
    Ok(text)
}
