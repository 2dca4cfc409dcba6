//! A saved position written as its text: one walk, over a writer that counts bytes or keeps them.

ghost use Rattle.std.specs.Prelude.{◌≡◌, codes, IfOk, OnOk};
ghost use Rattle.std.specs.Fmt.{decimal};
ghost use Rattle.closing_log.specs.LogText.{answer_text, stage_word};
ghost use Rattle.fund_base.specs.Writer.{Feeds};
ghost use Rattle.hex.specs.Hex.{encode_lower};
ghost use Rattle.search_keep.specs.SavedText.{CanBeSaved, IsSavedText, IsSized, chosen_text, line, log_digits, log_text, position_text, text_of, version_of, version_word};

use crate::saved::Saved;
use closing_log::{Stage, Worded, write_decimal, write_digest, write_places};
use fund_base::{Length, Memory, Places, Writer};
use std::alloc::Global;

/// Writes the line that names the format: its second version where a digest of the log is kept.
fn write_version<W: Writer>(out: &mut W, log: &Option<[u8; 32]>) -> Result<(), W::Error>
    ensures { OnOk result (Feeds W.holds out.old out.new (line (codes "fund-saved ") (version_word (version_of log.now)))) }
{
    match log {
        None => out.write_bytes(b"fund-saved 1\n"),
        Some(_) => out.write_bytes(b"fund-saved 2\n"),
    }
}

/// Writes the line of the log's digest, where one is kept.
fn write_log<W: Writer>(out: &mut W, log: &Option<[u8; 32]>) -> Result<(), W::Error>
    ensures { OnOk result (Feeds W.holds out.old out.new (log_text (log_digits log.now) log.now)) }
{
    match log {
        None => out.write_bytes(b""),
        Some(digest) => write_log_line(out, digest),
    }
}

fn write_log_line<W: Writer>(out: &mut W, digest: &[u8; 32]) -> Result<(), W::Error>
    ensures { OnOk result (Feeds W.holds out.old out.new (line (codes "log ") (encode_lower digest.now))) }
{
    out.write_bytes(b"log ")?;
    write_digest(out, digest)?;
    out.write_bytes(b"\n")
}

fn write_job<W: Writer>(out: &mut W, job: &[u8; 32]) -> Result<(), W::Error>
    ensures { OnOk result (Feeds W.holds out.old out.new (line (codes "job ") (encode_lower job.now))) }
{
    out.write_bytes(b"job ")?;
    write_digest(out, job)?;
    out.write_bytes(b"\n")
}

/// Writes the line of a number, `name` being its name and a blank.
fn write_number<W: Writer>(out: &mut W, name: &[u8], number: u64) -> Result<(), W::Error>
    ensures { OnOk result (Feeds W.holds out.old out.new (line name.now (decimal number))) }
{
    out.write_bytes(name)?;
    write_decimal(out, number)?;
    out.write_bytes(b"\n")
}

fn write_stage<W: Writer>(out: &mut W, stage: Stage) -> Result<(), W::Error>
    ensures { OnOk result (Feeds W.holds out.old out.new (line (codes "stage ") (stage_word stage))) }
{
    out.write_bytes(b"stage ")?;
    out.write_bytes(stage.word().as_bytes())?;
    out.write_bytes(b"\n")
}

fn write_chosen_places<W: Writer>(out: &mut W, chosen: &[u32]) -> Result<(), W::Error>
    ensures { OnOk result (Feeds W.holds out.old out.new (chosen_text chosen.now)) }
{
    match chosen {
        [] => out.write_bytes(b"-"),
        _ => write_places(out, chosen),
    }
}

fn write_chosen<W: Writer>(out: &mut W, chosen: &[u32]) -> Result<(), W::Error>
    ensures { OnOk result (Feeds W.holds out.old out.new (line (codes "chosen ") (chosen_text chosen.now))) }
{
    out.write_bytes(b"chosen ")?;
    write_chosen_places(out, chosen)?;
    out.write_bytes(b"\n")
}

fn write_best_places<W: Writer>(out: &mut W, best: &Option<Places>) -> Result<(), W::Error>
    ensures { OnOk result (Feeds W.holds out.old out.new (answer_text best.now)) }
{
    match best {
        None => out.write_bytes(b"none"),
        Some(places) => write_places(out, places.as_slice()),
    }
}

fn write_best<W: Writer>(out: &mut W, best: &Option<Places>) -> Result<(), W::Error>
    ensures { OnOk result (Feeds W.holds out.old out.new (line (codes "best ") (answer_text best.now))) }
{
    out.write_bytes(b"best ")?;
    write_best_places(out, best)?;
    out.write_bytes(b"\n")
}

/// Writes the lines behind the stage.
#[tactic(auto, using(crate::proofs::WrittenLaws::feeds_position))]
fn write_position<W: Writer>(out: &mut W, saved: &Saved) -> Result<(), W::Error>
    ensures { OnOk result (Feeds W.holds out.old out.new (position_text saved.now)) }
{
    write_chosen(out, saved.chosen.as_slice())?;
    write_number(out, b"next ", saved.next as u64)?;
    write_best(out, &saved.best)?;
    write_number(out, b"parts ", saved.parts as u64)
}

fn write_text<W: Writer>(out: &mut W, saved: &Saved) -> Result<(), W::Error>
    ensures { OnOk result (Feeds W.holds out.old out.new (text_of saved.now)) }
{
    write_version(out, &saved.log)?;
    write_job(out, &saved.job)?;
    write_number(out, b"tries ", saved.tries)?;
    write_number(out, b"row ", saved.row as u64)?;
    write_stage(out, saved.stage)?;
    write_position(out, saved)?;
    write_log(out, &saved.log)?;
    Ok(())
}

/// How many bytes the text has; a greater number than 18,446,744,073,709,551,615 counts as that number.
fn text_len(saved: &Saved) -> u64 {
    let mut length = Length::new();
    match write_text(&mut length, saved) {
        Ok(()) => length.get(),
        Err(never) => match never {},
    }
}

/// The text of a saved position, its digests in lower case: of the second version where a digest of the log is kept. It takes as much memory as the text has bytes.
pub fn write_saved(alloc: Global, saved: &Saved) -> Result<Vec<u8>, Memory>
    ensures text { IfOk result (λ text. text.items ≡ text_of saved.now) }

    // Where the position can be saved, the text is one of it.
    ensures means { IfOk result (λ text. CanBeSaved saved.now → IsSized saved.now → IsSavedText text.items saved.now) }
{
    let mut text = Vec::with_capacity(alloc, text_len(saved) as usize)?;
    write_text(&mut text, saved)?;
    Ok(text)
}
