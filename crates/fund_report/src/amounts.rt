//! Readers of the lines of a report after its coins.

ghost use Rattle.std.specs.Prelude.{◌≡◌, ◌≤◌, length, IfOk};
ghost use Rattle.std.specs.List.{prefix_len};
ghost use Rattle.closing_log.specs.Gives.{Reads};
ghost use Rattle.closing_log.specs.Lines.{positive_line};
ghost use Rattle.closing_log.specs.Reading.{both_at};
ghost use Rattle.fund_report.specs.Reading.{above_line, below_line, change_line, change_rest, fee_line, figures_at, is_text, neg_of, no_change, paid_at, psbt_line, signed_line, some_change, text_line, vsize_line, waste_line, wide_line};

use crate::lines::{read_number_end, read_number_line};
use crate::parts::Figures;
use crate::wide::read_wide_line;
use closing_log::read_word;

/// A number from 1 to `most`, and a line feed.
#[tactic(auto, unfolding(closing_log::specs::Lines::positive_line))]
fn read_positive(bytes: &[u8], most: u128) -> Result<(u128, &[u8]), &[u8]>
    ensures value { Reads (λ x. (x.0, x.1.now)) result (positive_line most bytes.now) }
    ensures bound { IfOk result (λ x. x.0 ≤ most) }
{
    if let [b'0', ..] = bytes {
        return Err(bytes);
    }
    let (number, rest) = read_wide_line(bytes, most)?;
    Ok((number, rest))
}

/// The number below zero that is so far from it.
fn negated(number: u128) -> i128
    requires { number ≤ 170_141_183_460_469_231_731_687_303_715_884_105_728 }
    ensures { result ≡ neg_of number }
{
    if number == 0 {
        0
    } else {
        -1 - (number - 1) as i128
    }
}

/// A number below zero, and a line feed.
fn read_below(bytes: &[u8]) -> Result<(i128, &[u8]), &[u8]>
    ensures { Reads (λ x. (x.0, x.1.now)) result (below_line bytes.now) }
{
    let rest = read_word(bytes, b"-")?;
    let (number, rest) = read_positive(rest, 170_141_183_460_469_231_731_687_303_715_884_105_728)?;
    Ok((negated(number), rest))
}

/// A number that isn't below zero, and a line feed.
fn read_above(bytes: &[u8]) -> Result<(i128, &[u8]), &[u8]>
    ensures { Reads (λ x. (x.0, x.1.now)) result (above_line bytes.now) }
{
    let (number, rest) = read_wide_line(
        bytes,
        170_141_183_460_469_231_731_687_303_715_884_105_727,
    )?;
    Ok((number as i128, rest))
}

/// A number with a sign where it is below zero, and a line feed.
#[tactic(auto, unfolding(closing_log::specs::Lines::either_at))]
fn read_signed(bytes: &[u8]) -> Result<(i128, &[u8]), &[u8]>
    ensures { Reads (λ x. (x.0, x.1.now)) result (signed_line bytes.now) }
{
    match bytes {
        [] => Err(bytes),
        [b'-', ..] => read_below(bytes),
        _ => read_above(bytes),
    }
}

/// The line of the waste.
fn read_waste(bytes: &[u8]) -> Result<(i128, &[u8]), &[u8]>
    ensures { Reads (λ x. (x.0, x.1.now)) result (waste_line bytes.now) }
{
    let rest = read_word(bytes, b"waste ")?;
    let (waste, rest) = read_signed(rest)?;
    Ok((waste, rest))
}

/// The lines of the fee and the waste.
fn read_fee_waste(bytes: &[u8]) -> Result<((u64, i128), &[u8]), &[u8]>
    ensures { Reads (λ x. (x.0, x.1.now)) result (both_at fee_line (λ f. waste_line) bytes.now) }
{
    let (fee, rest) = read_number_line(bytes, b"fee ", u64::MAX)?;
    let (waste, rest) = read_waste(rest)?;
    Ok(((fee, waste), rest))
}

/// The lines from the size to the waste.
fn read_from_size(bytes: &[u8]) -> Result<((u64, (u64, i128)), &[u8]), &[u8]>
    ensures { Reads (λ x. (x.0, x.1.now)) result (both_at vsize_line (λ v. both_at fee_line (λ f. waste_line)) bytes.now) }
{
    let (vsize, rest) = read_number_line(bytes, b"vsize ", u64::MAX)?;
    let (more, rest) = read_fee_waste(rest)?;
    Ok(((vsize, more), rest))
}

/// The number of the weight, and the lines up to the waste.
fn read_from_weight(bytes: &[u8]) -> Result<((u64, (u64, (u64, i128))), &[u8]), &[u8]>
    ensures { Reads (λ x. (x.0, x.1.now)) result (both_at wide_line (λ w. both_at vsize_line (λ v. both_at fee_line (λ f. waste_line))) bytes.now) }
{
    let (weight, rest) = read_number_end(bytes, u64::MAX)?;
    let (more, rest) = read_from_size(rest)?;
    Ok(((weight, more), rest))
}

/// What the payment comes to: the lines up to the waste, after the first word.
pub(crate) fn read_figures(bytes: &[u8]) -> Result<(Figures, &[u8]), &[u8]>
    ensures { Reads (λ x. (x.0, x.1.now)) result (figures_at bytes.now) }
{
    let ((weight, (vsize, (fee, waste))), rest) = read_from_weight(bytes)?;
    let figures = Figures {
        weight,
        vsize,
        fee,
        waste,
    };
    Ok((figures, rest))
}

/// The word of no change.
fn read_no_change(bytes: &[u8]) -> Result<(Option<u64>, &[u8]), &[u8]>
    ensures { Reads (λ x. (x.0, x.1.now)) result (no_change bytes.now) }
{
    let rest = read_word(bytes, b"none\n")?;
    Ok((None, rest))
}

/// The number of the change.
fn read_some_change(bytes: &[u8]) -> Result<(Option<u64>, &[u8]), &[u8]>
    ensures { Reads (λ x. (x.0, x.1.now)) result (some_change bytes.now) }
{
    let (change, rest) = read_number_end(bytes, u64::MAX)?;
    Ok((Some(change), rest))
}

/// The change after the first word of its line.
#[tactic(auto, unfolding(closing_log::specs::Lines::either_at))]
fn read_change_rest(bytes: &[u8]) -> Result<(Option<u64>, &[u8]), &[u8]>
    ensures { Reads (λ x. (x.0, x.1.now)) result (change_rest bytes.now) }
{
    match bytes {
        [] => Err(bytes),
        [b'n', ..] => read_no_change(bytes),
        _ => read_some_change(bytes),
    }
}

/// The line of the change.
fn read_change(bytes: &[u8]) -> Result<(Option<u64>, &[u8]), &[u8]>
    ensures { Reads (λ x. (x.0, x.1.now)) result (change_line bytes.now) }
{
    let rest = read_word(bytes, b"change ")?;
    let (change, rest) = read_change_rest(rest)?;
    Ok((change, rest))
}

/// How many bytes stand before the first line feed.
#[tactic(auto, using(crate::proofs::Loops::text_found, crate::proofs::Loops::text_whole))]
fn text_len(bytes: &[u8]) -> usize
    ensures within { result ≤ length bytes.now }
    ensures value { result ≡ prefix_len is_text bytes.now }
{
    for (i, byte) in bytes.iter().enumerate() {
        if *byte == b'\n' {
            return i;
        }
    }
    bytes.len()
}

/// The bytes up to a line feed, one at least.
#[tactic(auto, unfolding(crate::specs::Reading::text_end))]
fn read_text(bytes: &[u8]) -> Result<(&[u8], &[u8]), &[u8]>
    ensures { Reads (λ x. (x.0.now, x.1.now)) result (text_line bytes.now) }
{
    let (text, rest) = bytes.split_at(text_len(bytes));
    match rest {
        [_, after @ ..] if !text.is_empty() => Ok((text, after)),
        _ => Err(rest),
    }
}

/// The line of the PSBT.
fn read_psbt(bytes: &[u8]) -> Result<(&[u8], &[u8]), &[u8]>
    ensures { Reads (λ x. (x.0.now, x.1.now)) result (psbt_line bytes.now) }
{
    let rest = read_word(bytes, b"psbt ")?;
    let (text, rest) = read_text(rest)?;
    Ok((text, rest))
}

/// The lines of the change and the PSBT.
pub(crate) fn read_paid(bytes: &[u8]) -> Result<((Option<u64>, &[u8]), &[u8]), &[u8]>
    ensures { Reads (λ x. ((x.0.0, x.0.1.now), x.1.now)) result (paid_at bytes.now) }
{
    let (change, rest) = read_change(bytes)?;
    let (text, rest) = read_psbt(rest)?;
    Ok(((change, text), rest))
}

/// What the payment comes to, and the lines of the change and the PSBT.
pub(crate) fn read_figures_paid(
    bytes: &[u8],
) -> Result<((Figures, (Option<u64>, &[u8])), &[u8]), &[u8]>
    ensures { Reads (λ x. ((x.0.0, (x.0.1.0, x.0.1.1.now)), x.1.now)) result (both_at figures_at (λ f. paid_at) bytes.now) }
{
    let (figures, rest) = read_figures(bytes)?;
    let (paid, rest) = read_paid(rest)?;
    Ok(((figures, paid), rest))
}
