//! Readers of the lines of a saved text. Each answers what it read and the bytes behind it, or the bytes that are left
//! where no text goes on as they do.

ghost use Rattle.std.specs.Prelude.{◌≤◌, IfOk};
ghost use Rattle.closing_log.specs.Gives.{Gives, Reads};
ghost use Rattle.closing_log.specs.Reading.{both_at};
ghost use Rattle.closing_log.specs.Lines.{behind_at, number_line};
ghost use Rattle.search_keep.specs.Reading.{best_at, chosen_at, chosen_line, best_line, job_at, last_at, log_at, parts_at, position_at, row_at, stage_line, start_at, tries_at, version_line};

use crate::saved::{Saved, Version};
use closing_log::{
    LineFault, Stage, read_choice, read_digest, read_number, read_places, read_word,
};
use fund_base::Places;
use std::alloc::Global;

/// What the lines up to the stage say.
#[derive(Clone, Copy)]
pub(crate) struct Start {
    pub(crate) version: Version,
    pub(crate) job: [u8; 32],
    pub(crate) tries: u64,
    pub(crate) row: u8,
    pub(crate) stage: Stage,
}

/// The line that names the format, and its version.
fn read_version(bytes: &[u8]) -> Result<(Version, &[u8]), &[u8]>
    ensures { Reads (λ x. (x.0, x.1.now)) result (version_line bytes.now) }
{
    let rest = read_word(bytes, b"fund-saved ")?;
    let (version, rest) = read_choice(rest, &[Version::First, Version::Second])?;
    let rest = read_word(rest, b"\n")?;
    Ok((version, rest))
}

/// The line of the job.
fn read_job(bytes: &[u8]) -> Result<([u8; 32], &[u8]), &[u8]>
    ensures { Reads (λ x. (x.0, x.1.now)) result (job_at bytes.now) }
{
    let rest = read_word(bytes, b"job ")?;
    let (job, rest) = read_digest(rest)?;
    let rest = read_word(rest, b"\n")?;
    Ok((job, rest))
}

/// A word, a number of at most `most`, and a line feed.
fn read_number_line<'a>(
    bytes: &'a [u8],
    word: &[u8],
    most: u64,
) -> Result<(u64, &'a [u8]), &'a [u8]>
    ensures value { Reads (λ x. (x.0, x.1.now)) result (behind_at word.now (number_line most) bytes.now) }
    ensures bound { IfOk result (λ x. x.0 ≤ most) }
{
    let rest = read_word(bytes, word)?;
    let ((number, _), rest) = read_number(rest, most, b"\n")?;
    Ok((number, rest))
}

/// The line of the stage.
fn read_stage(bytes: &[u8]) -> Result<(Stage, &[u8]), &[u8]>
    ensures { Reads (λ x. (x.0, x.1.now)) result (stage_line bytes.now) }
{
    let rest = read_word(bytes, b"stage ")?;
    let (stage, rest) = read_choice(rest, &[Stage::Changeless, Stage::LeanBig, Stage::LeanSmall])?;
    let rest = read_word(rest, b"\n")?;
    Ok((stage, rest))
}

/// The lines of the row and the stage.
fn read_search(bytes: &[u8]) -> Result<((u8, Stage), &[u8]), &[u8]>
    ensures { Reads (λ x. (x.0, x.1.now)) result (both_at row_at (λ r. stage_line) bytes.now) }
{
    let (row, rest) = read_number_line(bytes, b"row ", 255)?;
    let (stage, rest) = read_stage(rest)?;
    Ok(((row as u8, stage), rest))
}

/// The lines of the tries, the row and the stage.
fn read_counts(bytes: &[u8]) -> Result<((u64, (u8, Stage)), &[u8]), &[u8]>
    ensures { Reads (λ x. (x.0, x.1.now)) result (both_at tries_at (λ n. both_at row_at (λ r. stage_line)) bytes.now) }
{
    let (tries, rest) = read_number_line(bytes, b"tries ", u64::MAX)?;
    let (search, rest) = read_search(rest)?;
    Ok(((tries, search), rest))
}

/// The lines from the job to the stage.
fn read_fields(bytes: &[u8]) -> Result<(([u8; 32], (u64, (u8, Stage))), &[u8]), &[u8]>
    ensures { Reads (λ x. (x.0, x.1.now)) result (both_at job_at (λ j. both_at tries_at (λ n. both_at row_at (λ r. stage_line))) bytes.now) }
{
    let (job, rest) = read_job(bytes)?;
    let (counts, rest) = read_counts(rest)?;
    Ok(((job, counts), rest))
}

/// The lines up to the stage, each by itself.
fn read_head(bytes: &[u8]) -> Result<((Version, ([u8; 32], (u64, (u8, Stage)))), &[u8]), &[u8]>
    ensures { Reads (λ x. (x.0, x.1.now)) result (both_at version_line (λ v. both_at job_at (λ j. both_at tries_at (λ n. both_at row_at (λ r. stage_line)))) bytes.now) }
{
    let (version, rest) = read_version(bytes)?;
    let (fields, rest) = read_fields(rest)?;
    Ok(((version, fields), rest))
}

/// What the lines up to the stage say.
pub(crate) fn read_start(bytes: &[u8]) -> Result<(Start, &[u8]), &[u8]>
    ensures { Reads (λ x. (x.0, x.1.now)) result (start_at bytes.now) }
{
    let ((version, (job, (tries, (row, stage)))), rest) = read_head(bytes)?;
    let start = Start {
        version,
        job,
        tries,
        row,
        stage,
    };
    Ok((start, rest))
}

/// Places up to a line feed, or `-` for none.
#[tactic(auto, unfolding(crate::specs::Reading::marked_line))]
fn read_chosen(alloc: Global, bytes: &[u8]) -> Result<(Places, &[u8]), LineFault<'_>>
    ensures { Gives (λ x. (x.0, x.1.now)) result (chosen_line bytes.now) }
{
    match bytes {
        [] => Err(LineFault::Form(bytes)),
        [b'-', ..] => {
            let rest = read_word(bytes, b"-\n")?;
            Ok((Places::new(Vec::new(alloc)), rest))
        }
        _ => {
            let (places, rest) = read_places(alloc, bytes)?;
            Ok((Places::new(places), rest))
        }
    }
}

/// Places up to a line feed, or `none`.
#[tactic(auto, unfolding(crate::specs::Reading::marked_line))]
fn read_best(alloc: Global, bytes: &[u8]) -> Result<(Option<Places>, &[u8]), LineFault<'_>>
    ensures { Gives (λ x. (x.0, x.1.now)) result (best_line bytes.now) }
{
    match bytes {
        [] => Err(LineFault::Form(bytes)),
        [b'n', ..] => {
            let rest = read_word(bytes, b"none\n")?;
            Ok((None, rest))
        }
        _ => {
            let (places, rest) = read_places(alloc, bytes)?;
            Ok((Some(Places::new(places)), rest))
        }
    }
}

/// The line of the parts: a number from 1 to one more than the tries.
#[tactic(auto, unfolding(closing_log::specs::Lines::positive_line))]
fn read_parts(bytes: &[u8], tries: u64) -> Result<(u64, &[u8]), &[u8]>
    ensures value { Reads (λ x. (x.0, x.1.now)) result (parts_at tries bytes.now) }
    ensures bound { IfOk result (λ x. x.0 ≤ 4_294_967_295) }
{
    let rest = read_word(bytes, b"parts ")?;
    if let [b'0', ..] = rest {
        return Err(rest);
    }
    let ((parts, _), rest) = read_number(rest, tries.min(4_294_967_294) + 1, b"\n")?;
    Ok((parts, rest))
}

/// The line of the log's digest, which the second version has.
fn read_log(bytes: &[u8], version: Version) -> Result<(Option<[u8; 32]>, &[u8]), &[u8]>
    ensures { Reads (λ x. (x.0, x.1.now)) result (log_at version bytes.now) }
{
    match version {
        Version::First => {
            let rest = read_word(bytes, b"")?;
            Ok((None, rest))
        }
        Version::Second => {
            let rest = read_word(bytes, b"log ")?;
            let (digest, rest) = read_digest(rest)?;
            let rest = read_word(rest, b"\n")?;
            Ok((Some(digest), rest))
        }
    }
}

/// The last lines: that of the parts, and that of the log's digest where there is one.
fn read_last(
    bytes: &[u8],
    version: Version,
    tries: u64,
) -> Result<((u32, Option<[u8; 32]>), &[u8]), &[u8]>
    ensures { Reads (λ x. (x.0, x.1.now)) result (last_at version tries bytes.now) }
{
    let (parts, rest) = read_parts(bytes, tries)?;
    let (log, rest) = read_log(rest, version)?;
    Ok(((parts as u32, log), rest))
}

/// The line of the chosen places.
fn read_chosen_line(alloc: Global, bytes: &[u8]) -> Result<(Places, &[u8]), LineFault<'_>>
    ensures { Gives (λ x. (x.0, x.1.now)) result (chosen_at bytes.now) }
{
    let rest = read_word(bytes, b"chosen ")?;
    read_chosen(alloc, rest)
}

/// The line of the best selection.
fn read_best_line(alloc: Global, bytes: &[u8]) -> Result<(Option<Places>, &[u8]), LineFault<'_>>
    ensures { Gives (λ x. (x.0, x.1.now)) result (best_at bytes.now) }
{
    let rest = read_word(bytes, b"best ")?;
    read_best(alloc, rest)
}

/// The lines behind the stage.
#[tactic(auto, using(crate::proofs::StepLaws::position_best_fails, crate::proofs::StepLaws::position_last_fails, crate::proofs::StepLaws::position_read))]
pub(crate) fn read_position(
    alloc: Global,
    start: Start,
    bytes: &[u8],
) -> Result<(Saved, &[u8]), LineFault<'_>>
    ensures { Gives (λ x. (x.0, x.1.now)) result (position_at start bytes.now) }
{
    let (chosen, rest) = read_chosen_line(alloc, bytes)?;
    let (next, rest) = read_number_line(rest, b"next ", 4_294_967_295)?;
    let (best, rest) = read_best_line(alloc, rest)?;
    let ((parts, log), rest) = read_last(rest, start.version, start.tries)?;
    let Start {
        version: _,
        job,
        tries,
        row,
        stage,
    } = start;
    let saved = Saved {
        job,
        tries,
        row,
        stage,
        chosen,
        next: next as u32,
        best,
        parts,
        log,
    };
    Ok((saved, rest))
}
