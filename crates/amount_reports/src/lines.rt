//! Readers of the lines of such a report. Each answers what it read and the bytes behind it, or the bytes that are left where
//! it can't be read.

ghost use Rattle.std.specs.Prelude.{◌≡◌, ◌≤◌, codes, length, reverse};
ghost use Rattle.closing_log.specs.Gives.{Gives, Reads};
ghost use Rattle.closing_log.specs.Lines.{behind_at};
ghost use Rattle.closing_log.specs.Reading.{both_at};
ghost use Rattle.fund_report.specs.Reading.{amounts_at, coin_at, index_at, is_text, psbt_line, text_line, wide_line};
ghost use Rattle.std.specs.List.{prefix_len};
ghost use Rattle.amount_reports.specs.Reading.{begins, figures_at, in_at, ins_at, named_line};

use closing_log::{LineFault, read_digest, read_number, read_word};
use fund_base::{OutPoint, Txid};
use fund_report::InLine;
use std::alloc::Global;

/// A number of 64 bits, and a line feed.
pub fn read_number_end(bytes: &[u8]) -> Result<(u64, &[u8]), &[u8]>
    ensures { Reads (λ x. (x.0, x.1.now)) result (wide_line bytes.now) }
{
    let ((number, _), rest) = read_number(bytes, u64::MAX, b"\n")?;
    Ok((number, rest))
}

/// The line of a number behind its name.
pub fn read_named<'a>(bytes: &'a [u8], name: &[u8]) -> Result<(u64, &'a [u8]), &'a [u8]>
    ensures { Reads (λ x. (x.0, x.1.now)) result (named_line name.now bytes.now) }
{
    let rest = read_word(bytes, name)?;
    let (number, rest) = read_number_end(rest)?;
    Ok((number, rest))
}

/// A coin's index, and a blank.
fn read_index(bytes: &[u8]) -> Result<(u32, &[u8]), &[u8]>
    ensures { Reads (λ x. (x.0, x.1.now)) result (index_at bytes.now) }
{
    let ((index, _), rest) = read_number(bytes, 4_294_967_295, b" ")?;
    Ok((index as u32, rest))
}

/// A coin's index and value.
fn read_index_value(bytes: &[u8]) -> Result<((u32, u64), &[u8]), &[u8]>
    ensures { Reads (λ x. (x.0, x.1.now)) result (both_at index_at (λ i. wide_line) bytes.now) }
{
    let (index, rest) = read_index(bytes)?;
    let (value, rest) = read_number_end(rest)?;
    Ok(((index, value), rest))
}

/// A colon, and a coin's index and value.
fn read_amounts(bytes: &[u8]) -> Result<((u32, u64), &[u8]), &[u8]>
    ensures { Reads (λ x. (x.0, x.1.now)) result (amounts_at bytes.now) }
{
    let rest = read_word(bytes, b":")?;
    let (amounts, rest) = read_index_value(rest)?;
    Ok((amounts, rest))
}

/// The txid that these bytes show.
fn shown(digest: [u8; 32]) -> Txid
    ensures { result ≡ reverse digest }
{
    let mut bytes = digest;
    bytes.reverse();
    Txid(bytes)
}

/// A coin and its value.
fn read_coin(bytes: &[u8]) -> Result<(InLine, &[u8]), &[u8]>
    ensures { Reads (λ x. (x.0, x.1.now)) result (coin_at bytes.now) }
{
    let (digest, rest) = read_digest(bytes)?;
    let ((index, value), rest) = read_amounts(rest)?;
    let coin = OutPoint {
        txid: shown(digest),
        index,
    };
    Ok((InLine { coin, value }, rest))
}

/// The line of a coin.
fn read_in(bytes: &[u8]) -> Result<(InLine, &[u8]), &[u8]>
    ensures { Reads (λ x. (x.0, x.1.now)) result (in_at bytes.now) }
{
    let rest = read_word(bytes, b"in ")?;
    let (line, rest) = match read_coin(rest) {
        Ok(read) => read,
        Err(stop) => return Err(stop),
    };
    Ok((line, rest))
}

/// Whether the first byte is this one.
pub fn begins(bytes: &[u8], lead: u8) -> bool
    ensures { result ≡ begins lead bytes.now }
{
    match bytes {
        [] => false,
        [first, ..] => *first == lead,
    }
}

/// The lines of coins, as many as stand there.
#[tactic(auto, using(crate::proofs::Rows::ins_more, crate::proofs::Rows::ins_fail, crate::proofs::Rows::ins_other, crate::proofs::Rows::ins_out))]
pub fn read_ins(alloc: Global, bytes: &[u8]) -> Result<(Vec<InLine>, &[u8]), LineFault<'_>>
    ensures { Gives (λ x. (x.0.items, x.1.now)) result (ins_at bytes.now) }
{
    let mut coins = Vec::new(alloc);
    let mut rest = bytes;
    for _ in 0..bytes.len() {
        if !begins(rest, b'i') {
            return Ok((coins, rest));
        }
        let (line, after) = match read_in(rest) {
            Ok(read) => read,
            Err(stop) => return Err(LineFault::Form(stop)),
        };
        coins.push(line)?;
        rest = after;
    }
    Ok((coins, rest))
}

/// The lines of the size and the fee.
fn read_size(bytes: &[u8]) -> Result<((u64, u64), &[u8]), &[u8]>
    ensures { Reads (λ x. (x.0, x.1.now)) result (both_at (named_line (codes "vsize ")) (λ v. named_line (codes "fee ")) bytes.now) }
{
    let (vsize, rest) = read_named(bytes, b"vsize ")?;
    let (fee, rest) = read_named(rest, b"fee ")?;
    Ok(((vsize, fee), rest))
}

/// The lines of what a payment comes to.
pub fn read_figures(bytes: &[u8]) -> Result<((u64, (u64, u64)), &[u8]), &[u8]>
    ensures { Reads (λ x. (x.0, x.1.now)) result (figures_at bytes.now) }
{
    let (weight, rest) = read_named(bytes, b"weight ")?;
    let (size, rest) = read_size(rest)?;
    Ok(((weight, size), rest))
}

/// How many bytes stand before the first line feed.
#[tactic(auto, using(fund_report::proofs::Loops::text_found, fund_report::proofs::Loops::text_whole))]
fn text_len(bytes: &[u8]) -> usize
    ensures within { result ≤ length bytes.now }
    ensures value { result ≡ prefix_len is_text bytes.now }
{
    for (i, byte) in bytes.iter().enumerate() {
        if *byte == b'\n' {
            return i;
        }
    }
    bytes.len()
}

/// The bytes up to a line feed, one at least.
#[tactic(auto, unfolding(fund_report::specs::Reading::text_end))]
fn read_text(bytes: &[u8]) -> Result<(&[u8], &[u8]), &[u8]>
    ensures { Reads (λ x. (x.0.now, x.1.now)) result (text_line bytes.now) }
{
    let (text, rest) = bytes.split_at(text_len(bytes));
    match rest {
        [_, after @ ..] if !text.is_empty() => Ok((text, after)),
        _ => Err(rest),
    }
}

/// The line of the PSBT.
pub fn read_psbt(bytes: &[u8]) -> Result<(&[u8], &[u8]), &[u8]>
    ensures { Reads (λ x. (x.0.now, x.1.now)) result (psbt_line bytes.now) }
{
    let rest = read_word(bytes, b"psbt ")?;
    let (text, rest) = read_text(rest)?;
    Ok((text, rest))
}
