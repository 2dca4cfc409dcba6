//! A log written as its text: one walk, over a writer that counts bytes, keeps them, keeps those behind a place, or digests
//! them.

ghost use Rattle.std.specs.Prelude.{◌≡◌, ◌∷◌, ◌++◌, ℕ, length, take, drop, codes, IfOk, OnOk};
ghost use Rattle.std.specs.Fmt.{decimal};
ghost use Rattle.std.specs.List.{flat_map};
ghost use Rattle.hex.specs.Hex.{encode_lower};
ghost use Rattle.fund_base.specs.Writer.{Feeds};
ghost use Rattle.sha2.specs.Sha256.{sha256};
ghost use Rattle.closing_log.specs.LogText.{CanBeWritten, IsLogText, IsSized, answer_text, ending_text, head_text, places_text, section_text, stage_word, tail_text, text_of};

use crate::digesting::Digesting;
use crate::lines::Worded;
use crate::log::{LogText, OpenSection, Section, Stage};
use crate::tail::Behind;
use fund_base::{Length, Memory, Places, Writer};
use itoa::Buffer;
use std::alloc::Global;

/// Writes a number in decimal digits without a leading zero. The error is the writer's.
pub fn write_decimal<W: Writer>(out: &mut W, number: u64) -> Result<(), W::Error>
    ensures { OnOk result (Feeds W.holds out.old out.new (decimal number)) }
{
    let mut buffer = Buffer::new();
    out.write_bytes(buffer.format(number).as_bytes())
}

/// Writes the 64 hex digits of 32 bytes, in lower case. The error is the writer's.
pub fn write_digest<W: Writer>(out: &mut W, digest: &[u8; 32]) -> Result<(), W::Error>
    ensures { OnOk result (Feeds W.holds out.old out.new (encode_lower digest.now)) }
{
    let mut digits = [0; 64];
    match hex::encode_to_slice(*digest, &mut digits) {
        Ok(()) => out.write_bytes(&digits),
        Err(_) => unreachable!(),
    }
}

/// Writes numbers, each behind a blank.
fn write_more<W: Writer>(out: &mut W, places: &[u32]) -> Result<(), W::Error>
    ensures { OnOk result (Feeds W.holds out.old out.new (flat_map (λ (q : ℕ). 32 ∷ decimal q) places.now)) }
{
    for place in places {
        out.write_bytes(b" ")?;
        write_decimal(out, *place as u64)?;
    }
    Ok(())
}

/// Writes numbers with a blank between them. The error is the writer's.
pub fn write_places<W: Writer>(out: &mut W, places: &[u32]) -> Result<(), W::Error>
    ensures { OnOk result (Feeds W.holds out.old out.new (places_text places.now)) }
{
    match places {
        [] => Ok(()),
        [first, rest @ ..] => {
            write_decimal(out, *first as u64)?;
            write_more(out, rest)
        }
    }
}

fn write_answer<W: Writer>(out: &mut W, answer: &Option<Places>) -> Result<(), W::Error>
    ensures { OnOk result (Feeds W.holds out.old out.new (answer_text answer.now)) }
{
    match answer {
        None => out.write_bytes(b"none"),
        Some(places) => write_places(out, places.as_slice()),
    }
}

/// Writes a section's row and stage, each with the blank behind it.
fn write_search<W: Writer>(out: &mut W, row: u8, stage: Stage) -> Result<(), W::Error>
    ensures { OnOk result (Feeds W.holds out.old out.new (decimal row ++ (codes " " ++ (stage_word stage ++ codes " ")))) }
{
    write_decimal(out, row as u64)?;
    out.write_bytes(b" ")?;
    out.write_bytes(stage.word().as_bytes())?;
    out.write_bytes(b" ")
}

/// Writes a section up to its letters.
fn write_head<W: Writer>(
    out: &mut W,
    row: u8,
    stage: Stage,
    digest: &[u8; 32],
) -> Result<(), W::Error>
    ensures { OnOk result (Feeds W.holds out.old out.new (head_text (encode_lower digest.now) row stage)) }
{
    out.write_bytes(b"section ")?;
    write_search(out, row, stage)?;
    write_digest(out, digest)?;
    out.write_bytes(b"\ntokens ")
}

/// Writes what stands behind a section's letters.
fn write_closing<W: Writer>(out: &mut W, answer: &Option<Places>) -> Result<(), W::Error>
    ensures { OnOk result (Feeds W.holds out.old out.new (codes "\nanswer " ++ (answer_text answer.now ++ codes "\n"))) }
{
    out.write_bytes(b"\nanswer ")?;
    write_answer(out, answer)?;
    out.write_bytes(b"\n")
}

fn write_section<W: Writer>(out: &mut W, section: &Section) -> Result<(), W::Error>
    ensures { OnOk result (Feeds W.holds out.old out.new (section_text section.now)) }
{
    write_head(out, section.row, section.stage, &section.digest)?;
    out.write_bytes(section.tokens.as_slice())?;
    write_closing(out, &section.answer)?;
    Ok(())
}

fn write_closed<W: Writer>(out: &mut W, sections: &[Section]) -> Result<(), W::Error>
    ensures { OnOk result (Feeds W.holds out.old out.new (flat_map section_text sections.now)) }
{
    for section in sections {
        write_section(out, section)?;
    }
    Ok(())
}

fn write_open<W: Writer>(out: &mut W, section: &OpenSection) -> Result<(), W::Error>
    ensures { OnOk result (Feeds W.holds out.old out.new (tail_text section.now)) }
{
    write_head(out, section.row, section.stage, &section.digest)?;
    out.write_bytes(section.tokens.as_slice())
}

fn write_ending<W: Writer>(
    out: &mut W,
    tail: &Option<OpenSection>,
    ended: bool,
) -> Result<(), W::Error>
    ensures { OnOk result (Feeds W.holds out.old out.new (ending_text tail.now ended)) }
{
    match tail {
        Some(section) => write_open(out, section),
        None => {
            if ended {
                out.write_bytes(b"end\n")
            } else {
                Ok(())
            }
        }
    }
}

#[tactic(auto, unfolding(crate::specs::LogText::text_of))]
fn write_text<W: Writer>(out: &mut W, log: &LogText) -> Result<(), W::Error>
    ensures { OnOk result (Feeds W.holds out.old out.new (text_of log.now)) }
{
    out.write_bytes(b"fund-log 1\n")?;
    write_closed(out, &log.closed)?;
    write_ending(out, &log.tail, log.ended)?;
    Ok(())
}

/// How many bytes the text has; a greater number than 18,446,744,073,709,551,615 counts as that number.
fn text_len(log: &LogText) -> u64 {
    let mut length = Length::new();
    match write_text(&mut length, log) {
        Ok(()) => length.get(),
        Err(never) => match never {},
    }
}

/// The text of the log, digests in lower case. It takes as much memory as the text has bytes.
#[tactic(auto, using(crate::proofs::WrittenLaws::text_is_of))]
pub fn write_sections(alloc: Global, log: &LogText) -> Result<Vec<u8>, Memory>
    ensures text { IfOk result (λ text. text.items ≡ text_of log.now) }

    // Where the log can be written, the text is one of it.
    ensures means { IfOk result (λ text. CanBeWritten log.now → IsSized log.now → IsLogText text.items log.now) }
{
    let mut text = Vec::with_capacity(alloc, text_len(log) as usize)?;
    write_text(&mut text, log)?;
    Ok(text)
}

/// The log's text behind its first `from` bytes. It takes as much memory as it answers bytes.
pub fn write_tail(alloc: Global, log: &LogText, from: u64) -> Result<Vec<u8>, Memory>
    ensures text { IfOk result (λ part. part.items ≡ drop from (text_of log.now)) }

    // These bytes and the part make the whole text.
    ensures joined { IfOk result (λ part. take from (text_of log.now) ++ part.items ≡ text_of log.now) }
{
    let room = text_len(log).saturating_sub(from);
    let mut out = Behind::new(Vec::with_capacity(alloc, room as usize)?, from);
    write_text(&mut out, log)?;
    Ok(out.into_bytes())
}

/// The SHA-256 of the log's text, for which no memory is asked.
pub fn text_digest(log: &LogText) -> [u8; 32]
    ensures { result ≡ sha256 (text_of log.now) }
{
    let mut out = Digesting::new();
    match write_text(&mut out, log) {
        Ok(()) => out.finish(),
        Err(never) => match never {},
    }
}
