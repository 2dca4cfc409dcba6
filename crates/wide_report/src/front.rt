//! The lines of a report up to that of its stage.

ghost use Rattle.std.specs.Prelude.{◌≡◌, ◌≤◌, ◌++◌, IfOk, string_bytes};
ghost use Rattle.closing_log.specs.Gives.{Reads};
ghost use Rattle.closing_log.specs.Lines.{number_line};
ghost use Rattle.fund_report.specs.Reading.{mark_line, row_line};
ghost use Rattle.wide_report.specs.Reading.{changeless_front, front_at, row_wide_at};

use closing_log::{Mark, Worded, read_choice, read_number, read_word};
use fund_base::Memory;
use std::alloc::Global;

/// The line of the mark.
fn read_mark(bytes: &[u8]) -> Result<(Mark, &[u8]), &[u8]>
    ensures { Reads (λ x. (x.0, x.1.now)) result (mark_line bytes.now) }
{
    let rest = read_word(bytes, b"funded ")?;
    let (mark, rest) = read_choice(
        rest,
        &[Mark::Exhausted, Mark::Partial, Mark::Drawn, Mark::Given],
    )?;
    let rest = read_word(rest, b"\n")?;
    Ok((mark, rest))
}

/// The number of a row, and a line feed.
fn read_row_number(bytes: &[u8]) -> Result<(u64, &[u8]), &[u8]>
    ensures value { Reads (λ x. (x.0, x.1.now)) result (number_line 255 bytes.now) }
    ensures bound { IfOk result (λ x. x.0 ≤ 255) }
{
    let ((row, _), rest) = read_number(bytes, 255, b"\n")?;
    Ok((row, rest))
}

/// The line of the row.
fn read_row(bytes: &[u8]) -> Result<(u8, &[u8]), &[u8]>
    ensures { Reads (λ x. (x.0, x.1.now)) result (row_line bytes.now) }
{
    let rest = read_word(bytes, b"row ")?;
    let (row, rest) = read_row_number(rest)?;
    Ok((row as u8, rest))
}

/// The line of the row, and that of the stage `wide`.
fn read_row_wide(bytes: &[u8]) -> Result<(u8, &[u8]), &[u8]>
    ensures { Reads (λ x. (x.0, x.1.now)) result (row_wide_at bytes.now) }
{
    let (row, rest) = read_row(bytes)?;
    let rest = read_word(rest, b"stage wide\n")?;
    Ok((row, rest))
}

/// The mark and the row of a report of the wide search, and the bytes behind the line of its stage; or those that are left where no
/// such report goes on as they do.
pub(crate) fn read_front(bytes: &[u8]) -> Result<((Mark, u8), &[u8]), &[u8]>
    ensures { Reads (λ x. (x.0, x.1.now)) result (front_at bytes.now) }
{
    let (mark, rest) = read_mark(bytes)?;
    let (row, rest) = read_row_wide(rest)?;
    Ok(((mark, row), rest))
}

/// The lines of a report with this mark and row up to that of its stage, which is `changeless`.
#[tactic(auto, unfolding(crate::specs::Reading::changeless_front))]
fn changeless_front(alloc: Global, mark: Mark, row: u8) -> Result<String, Memory>
    ensures { IfOk result (λ text. string_bytes text ≡ changeless_front mark row) }
{
    Ok(format!(in alloc; "funded {}\nrow {}\nstage changeless\n", mark.word(), row)?)
}

/// These lines, and these bytes behind. The error is out of memory.
pub(crate) fn changeless_text(
    alloc: Global,
    mark: Mark,
    row: u8,
    rest: &[u8],
) -> Result<Vec<u8>, Memory>
    ensures { IfOk result (λ text. text.items ≡ changeless_front mark row ++ rest.now) }
{
    let front = changeless_front(alloc, mark, row)?;
    let mut text = Vec::from_slice(alloc, front.as_bytes())?;
    text.extend_from_slice(rest)?;
    Ok(text)
}
