//! Readers of the lines of a report. Each answers what it read and the bytes after it, or the bytes that are left
//! where no text goes on as they do.

ghost use Rattle.std.specs.Prelude.{◌≡◌, ◌≤◌, reverse, IfOk};
ghost use Rattle.closing_log.specs.Gives.{Gives, Reads};
ghost use Rattle.closing_log.specs.Lines.{behind_at, number_line};
ghost use Rattle.closing_log.specs.Reading.{both_at};
ghost use Rattle.fund_report.specs.Reading.{amounts_at, coin_at, coin_next, coins_at, coins_line, index_at, mark_line, row_line, stage_line, start_at, tries_line, wide_line};

use crate::parts::{Next, Start};
use crate::report::InLine;
use closing_log::{LineFault, Mark, Stage, read_choice, read_digest, read_number, read_word};
use fund_base::{OutPoint, Txid};
use std::alloc::Global;

/// A number of at most `most`, and a line feed.
pub(crate) fn read_number_end(bytes: &[u8], most: u64) -> Result<(u64, &[u8]), &[u8]>
    ensures value { Reads (λ x. (x.0, x.1.now)) result (number_line most bytes.now) }
    ensures bound { IfOk result (λ x. x.0 ≤ most) }
{
    let ((number, _), rest) = read_number(bytes, most, b"\n")?;
    Ok((number, rest))
}

/// A word, a number of at most `most`, and a line feed.
pub(crate) fn read_number_line<'a>(
    bytes: &'a [u8],
    word: &[u8],
    most: u64,
) -> Result<(u64, &'a [u8]), &'a [u8]>
    ensures value { Reads (λ x. (x.0, x.1.now)) result (behind_at word.now (number_line most) bytes.now) }
    ensures bound { IfOk result (λ x. x.0 ≤ most) }
{
    let rest = read_word(bytes, word)?;
    let (number, rest) = read_number_end(rest, most)?;
    Ok((number, rest))
}

/// The line of the tries.
pub(crate) fn read_tries(bytes: &[u8]) -> Result<(u64, &[u8]), &[u8]>
    ensures { Reads (λ x. (x.0, x.1.now)) result (tries_line bytes.now) }
{
    let (tries, rest) = read_number_line(bytes, b"tries ", u64::MAX)?;
    Ok((tries, rest))
}

/// The line of the row.
fn read_row(bytes: &[u8]) -> Result<(u8, &[u8]), &[u8]>
    ensures { Reads (λ x. (x.0, x.1.now)) result (row_line bytes.now) }
{
    let (row, rest) = read_number_line(bytes, b"row ", 255)?;
    Ok((row as u8, rest))
}

/// The line of the stage.
fn read_stage(bytes: &[u8]) -> Result<(Stage, &[u8]), &[u8]>
    ensures { Reads (λ x. (x.0, x.1.now)) result (stage_line bytes.now) }
{
    let rest = read_word(bytes, b"stage ")?;
    let (stage, rest) = read_choice(
        rest,
        &[
            Stage::Presets,
            Stage::Changeless,
            Stage::LeanBig,
            Stage::Draw,
            Stage::LeanSmall,
        ],
    )?;
    let rest = read_word(rest, b"\n")?;
    Ok((stage, rest))
}

/// The lines of the row and the stage.
pub(crate) fn read_search(bytes: &[u8]) -> Result<((u8, Stage), &[u8]), &[u8]>
    ensures { Reads (λ x. (x.0, x.1.now)) result (both_at row_line (λ r. stage_line) bytes.now) }
{
    let (row, rest) = read_row(bytes)?;
    let (stage, rest) = read_stage(rest)?;
    Ok(((row, stage), rest))
}

/// The line of the mark.
fn read_mark(bytes: &[u8]) -> Result<(Mark, &[u8]), &[u8]>
    ensures { Reads (λ x. (x.0, x.1.now)) result (mark_line bytes.now) }
{
    let rest = read_word(bytes, b"funded ")?;
    let (mark, rest) = read_choice(
        rest,
        &[Mark::Exhausted, Mark::Partial, Mark::Drawn, Mark::Given],
    )?;
    let rest = read_word(rest, b"\n")?;
    Ok((mark, rest))
}

/// The lines of the stage and the tries.
fn read_stage_tries(bytes: &[u8]) -> Result<((Stage, u64), &[u8]), &[u8]>
    ensures { Reads (λ x. (x.0, x.1.now)) result (both_at stage_line (λ s. tries_line) bytes.now) }
{
    let (stage, rest) = read_stage(bytes)?;
    let (tries, rest) = read_tries(rest)?;
    Ok(((stage, tries), rest))
}

/// The lines from the row to the tries.
fn read_from_row(bytes: &[u8]) -> Result<((u8, (Stage, u64)), &[u8]), &[u8]>
    ensures { Reads (λ x. (x.0, x.1.now)) result (both_at row_line (λ r. both_at stage_line (λ s. tries_line)) bytes.now) }
{
    let (row, rest) = read_row(bytes)?;
    let (more, rest) = read_stage_tries(rest)?;
    Ok(((row, more), rest))
}

/// The lines from the mark to the tries.
fn read_from_mark(bytes: &[u8]) -> Result<((Mark, (u8, (Stage, u64))), &[u8]), &[u8]>
    ensures { Reads (λ x. (x.0, x.1.now)) result (both_at mark_line (λ m. both_at row_line (λ r. both_at stage_line (λ s. tries_line))) bytes.now) }
{
    let (mark, rest) = read_mark(bytes)?;
    let (more, rest) = read_from_row(rest)?;
    Ok(((mark, more), rest))
}

/// The lines before the coins.
pub(crate) fn read_start(bytes: &[u8]) -> Result<(Start, &[u8]), &[u8]>
    ensures { Reads (λ x. (x.0, x.1.now)) result (start_at bytes.now) }
{
    let ((mark, (row, (stage, tries))), rest) = read_from_mark(bytes)?;
    let start = Start {
        mark,
        row,
        stage,
        tries,
    };
    Ok((start, rest))
}

/// A coin's index, and a blank.
fn read_index(bytes: &[u8]) -> Result<(u32, &[u8]), &[u8]>
    ensures { Reads (λ x. (x.0, x.1.now)) result (index_at bytes.now) }
{
    let ((index, _), rest) = read_number(bytes, 4_294_967_295, b" ")?;
    Ok((index as u32, rest))
}

/// A coin's index and value.
fn read_index_value(bytes: &[u8]) -> Result<((u32, u64), &[u8]), &[u8]>
    ensures { Reads (λ x. (x.0, x.1.now)) result (both_at index_at (λ i. wide_line) bytes.now) }
{
    let (index, rest) = read_index(bytes)?;
    let (value, rest) = read_number_end(rest, u64::MAX)?;
    Ok(((index, value), rest))
}

/// A colon, and a coin's index and value.
fn read_amounts(bytes: &[u8]) -> Result<((u32, u64), &[u8]), &[u8]>
    ensures { Reads (λ x. (x.0, x.1.now)) result (amounts_at bytes.now) }
{
    let rest = read_word(bytes, b":")?;
    let (amounts, rest) = read_index_value(rest)?;
    Ok((amounts, rest))
}

/// The txid that these bytes show.
fn shown(digest: [u8; 32]) -> Txid
    ensures { result ≡ reverse digest }
{
    let mut bytes = digest;
    bytes.reverse();
    Txid(bytes)
}

/// The line of a coin after its first word.
fn read_coin(bytes: &[u8]) -> Result<(InLine, &[u8]), &[u8]>
    ensures { Reads (λ x. (x.0, x.1.now)) result (coin_at bytes.now) }
{
    let (digest, rest) = read_digest(bytes)?;
    let ((index, value), rest) = read_amounts(rest)?;
    let coin = OutPoint {
        txid: shown(digest),
        index,
    };
    Ok((InLine { coin, value }, rest))
}

/// The line of a coin after its first word, and the first word of the next line.
fn read_coin_next(bytes: &[u8]) -> Result<((InLine, Next), &[u8]), &[u8]>
    ensures { Reads (λ x. (x.0, x.1.now)) result (coin_next bytes.now) }
{
    let (line, rest) = match read_coin(bytes) {
        Ok(read) => read,
        Err(stop) => return Err(stop),
    };
    let (next, rest) = read_choice(rest, &[Next::Coin, Next::Weight])?;
    Ok(((line, next), rest))
}

/// The lines of the coins after their first word, and the first word of the line after them.
#[tactic(auto, using(crate::proofs::Loops::coins_more, crate::proofs::Loops::coins_last, crate::proofs::Loops::coins_fail, crate::proofs::Loops::coins_out))]
fn read_coins(alloc: Global, bytes: &[u8]) -> Result<(Vec<InLine>, &[u8]), LineFault<'_>>
    ensures { Gives (λ x. (x.0.items, x.1.now)) result (coins_at bytes.now) }
{
    let mut coins = Vec::new(alloc);
    let mut rest = bytes;
    for _ in 0..bytes.len() {
        let ((line, next), after) = match read_coin_next(rest) {
            Ok(read) => read,
            Err(stop) => return Err(LineFault::Form(stop)),
        };
        coins.push(line)?;
        rest = after;
        match next {
            Next::Coin => (),
            Next::Weight => return Ok((coins, rest)),
        }
    }
    Err(LineFault::Form(rest))
}

/// The lines of the coins, and the first word of the line after them.
pub(crate) fn read_coins_lines(
    alloc: Global,
    bytes: &[u8],
) -> Result<(Vec<InLine>, &[u8]), LineFault<'_>>
    ensures { Gives (λ x. (x.0.items, x.1.now)) result (coins_line bytes.now) }
{
    let rest = read_word(bytes, b"in ")?;
    read_coins(alloc, rest)
}
