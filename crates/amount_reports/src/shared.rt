//! The report of a payment whose recipients bear the fee.

ghost use Rattle.std.specs.Prelude.{◌≡◌, Err, IfOk, IsOk, MatchResult};
ghost use Rattle.closing_log.specs.Gives.{Gives, Reads};
ghost use Rattle.closing_log.specs.declared.fault.LineFault.TheVariants.{Memory as OutOfMemory};
ghost use Rattle.closing_log.specs.Reading.{both_at};
ghost use Rattle.fund_report.specs.Reading.{change_line, change_rest, no_change, paid_at, row_line, some_change, tries_line, wide_line};
ghost use Rattle.amount_reports.specs.Read.{Agrees};
ghost use Rattle.amount_reports.specs.Reading.{head_at, pay_at, pays_at, place_at, placed_at, shared_at, shared_lines, shared_tail};
ghost use Rattle.amount_reports.specs.SharedText.{IsSharedText, PlainShared};
ghost use Rattle.amount_reports.specs.declared.fault.AmountFault.TheVariants as faults;

use crate::fault::AmountFault;
use crate::lines::{begins, read_figures, read_ins, read_named, read_number_end, read_psbt};
use closing_log::{LineFault, read_number, read_word};
use fund_report::InLine;
use std::alloc::Global;
use std::marker::Model;

/// What is reported of a payment whose recipients bear the fee. Amounts are in satoshi.
#[derive(Drop)]
pub struct SharedReport {
    /// The row of the ladder in which its coins were chosen.
    pub row: u8,
    /// All tries.
    pub tries: u64,
    /// Its inputs, in order.
    pub coins: Vec<InLine>,
    /// What each recipient gets, in their order.
    pub amounts: Vec<u64>,
    /// Its declared weight, in weight units.
    pub weight: u64,
    /// Its size in virtual bytes, a quarter of the weight rounded up.
    pub vsize: u64,
    /// Its fee.
    pub fee: u64,
    /// The change, or none.
    pub change: Option<u64>,
    /// The PSBT as text.
    pub psbt: Vec<u8>,
}

impl Model for SharedReport {
    ghost use Rattle.amount_reports.specs.SharedText.{PlainShared};

    ghost Value = { PlainShared };

    ghost view = { λ r. record { row = r.row; tries = r.tries; coins = r.coins.items; amounts = r.amounts.items; weight = r.weight; vsize = r.vsize; fee = r.fee; change = r.change; psbt = r.psbt.items } };
}

/// The line of the row.
fn read_row(bytes: &[u8]) -> Result<(u8, &[u8]), &[u8]>
    ensures { Reads (λ x. (x.0, x.1.now)) result (row_line bytes.now) }
{
    let rest = read_word(bytes, b"row ")?;
    let ((row, _), rest) = read_number(rest, 255, b"\n")?;
    Ok((row as u8, rest))
}

/// The lines of the row and the tries.
fn read_row_tries(bytes: &[u8]) -> Result<((u8, u64), &[u8]), &[u8]>
    ensures { Reads (λ x. (x.0, x.1.now)) result (both_at row_line (λ r. tries_line) bytes.now) }
{
    let (row, rest) = read_row(bytes)?;
    let (tries, rest) = read_named(rest, b"tries ")?;
    Ok(((row, tries), rest))
}

/// The lines before the coins.
fn read_head(bytes: &[u8]) -> Result<((u8, u64), &[u8]), &[u8]>
    ensures { Reads (λ x. (x.0, x.1.now)) result (head_at bytes.now) }
{
    let rest = read_word(bytes, b"shared\n")?;
    let (head, rest) = read_row_tries(rest)?;
    Ok((head, rest))
}

/// The place of a recipient, and a blank.
fn read_place(bytes: &[u8]) -> Result<(u64, &[u8]), &[u8]>
    ensures { Reads (λ x. (x.0, x.1.now)) result (place_at bytes.now) }
{
    let ((place, _), rest) = read_number(bytes, u64::MAX, b" ")?;
    Ok((place, rest))
}

/// The place of a recipient, and what it gets.
fn read_place_amount(bytes: &[u8]) -> Result<((u64, u64), &[u8]), &[u8]>
    ensures { Reads (λ x. (x.0, x.1.now)) result (both_at place_at (λ p. wide_line) bytes.now) }
{
    let (place, rest) = read_place(bytes)?;
    let (amount, rest) = read_number_end(rest)?;
    Ok(((place, amount), rest))
}

/// The line of what a recipient gets, with its place.
fn read_placed(bytes: &[u8]) -> Result<((u64, u64), &[u8]), &[u8]>
    ensures { Reads (λ x. (x.0, x.1.now)) result (placed_at bytes.now) }
{
    let rest = read_word(bytes, b"pay ")?;
    let (placed, rest) = read_place_amount(rest)?;
    Ok((placed, rest))
}

/// The line of what the recipient at this place gets.
fn read_pay(bytes: &[u8], place: usize) -> Result<(u64, &[u8]), &[u8]>
    ensures { Reads (λ x. (x.0, x.1.now)) result (pay_at place bytes.now) }
{
    let ((index, amount), rest) = read_placed(bytes)?;
    if index == place as u64 {
        Ok((amount, rest))
    } else {
        Err(rest)
    }
}

/// The lines of what recipients get, as many as stand there.
#[tactic(auto, using(crate::proofs::Rows::pays_more, crate::proofs::Rows::pays_fail, crate::proofs::Rows::pays_other, crate::proofs::Rows::pays_out))]
fn read_pays(alloc: Global, bytes: &[u8]) -> Result<(Vec<u64>, &[u8]), LineFault<'_>>
    ensures { Gives (λ x. (x.0.items, x.1.now)) result (pays_at bytes.now) }
{
    let mut amounts = Vec::new(alloc);
    let mut rest = bytes;
    for _ in 0..bytes.len() {
        if !begins(rest, b'p') {
            return Ok((amounts, rest));
        }
        let (amount, after) = match read_pay(rest, amounts.len()) {
            Ok(read) => read,
            Err(stop) => return Err(LineFault::Form(stop)),
        };
        amounts.push(amount)?;
        rest = after;
    }
    Ok((amounts, rest))
}

/// The word of no change.
fn read_no_change(bytes: &[u8]) -> Result<(Option<u64>, &[u8]), &[u8]>
    ensures { Reads (λ x. (x.0, x.1.now)) result (no_change bytes.now) }
{
    let rest = read_word(bytes, b"none\n")?;
    Ok((None, rest))
}

/// The number of the change.
fn read_some_change(bytes: &[u8]) -> Result<(Option<u64>, &[u8]), &[u8]>
    ensures { Reads (λ x. (x.0, x.1.now)) result (some_change bytes.now) }
{
    let (change, rest) = read_number_end(bytes)?;
    Ok((Some(change), rest))
}

/// The change behind the first word of its line.
#[tactic(auto, unfolding(closing_log::specs::Lines::either_at))]
fn read_change_rest(bytes: &[u8]) -> Result<(Option<u64>, &[u8]), &[u8]>
    ensures { Reads (λ x. (x.0, x.1.now)) result (change_rest bytes.now) }
{
    match bytes {
        [] => Err(bytes),
        [b'n', ..] => read_no_change(bytes),
        _ => read_some_change(bytes),
    }
}

/// The line of the change.
fn read_change(bytes: &[u8]) -> Result<(Option<u64>, &[u8]), &[u8]>
    ensures { Reads (λ x. (x.0, x.1.now)) result (change_line bytes.now) }
{
    let rest = read_word(bytes, b"change ")?;
    let (change, rest) = read_change_rest(rest)?;
    Ok((change, rest))
}

/// The lines of the change and the PSBT.
fn read_paid(bytes: &[u8]) -> Result<((Option<u64>, &[u8]), &[u8]), &[u8]>
    ensures { Reads (λ x. ((x.0.0, x.0.1.now), x.1.now)) result (paid_at bytes.now) }
{
    let (change, rest) = read_change(bytes)?;
    let (psbt, rest) = read_psbt(rest)?;
    Ok(((change, psbt), rest))
}

/// The lines behind those of the recipients.
fn read_tail(bytes: &[u8]) -> Result<(((u64, (u64, u64)), (Option<u64>, &[u8])), &[u8]), &[u8]>
    ensures { Reads (λ x. ((x.0.0, (x.0.1.0, x.0.1.1.now)), x.1.now)) result (shared_tail bytes.now) }
{
    let (figures, rest) = read_figures(bytes)?;
    let (paid, rest) = read_paid(rest)?;
    Ok(((figures, paid), rest))
}

/// The lines from those of the recipients on.
fn read_from_pays(
    alloc: Global,
    bytes: &[u8],
) -> Result<((Vec<u64>, ((u64, (u64, u64)), (Option<u64>, &[u8]))), &[u8]), LineFault<'_>>
    ensures { Gives (λ x. ((x.0.0.items, (x.0.1.0, (x.0.1.1.0, x.0.1.1.1.now))), x.1.now)) result (both_at pays_at (λ p. shared_tail) bytes.now) }
{
    let (amounts, rest) = match read_pays(alloc, bytes) {
        Ok(read) => read,
        Err(fault) => return Err(fault),
    };
    let (tail, rest) = read_tail(rest)?;
    Ok(((amounts, tail), rest))
}

/// All lines.
fn read_lines(alloc: Global, bytes: &[u8]) -> Result<(SharedReport, &[u8]), LineFault<'_>>
    ensures gives { Gives (λ x. (x.0, x.1.now)) result (shared_lines bytes.now) }
    ensures short { result ≡ Err OutOfMemory → IsOk (head_at bytes.now) }
{
    let ((row, tries), rest) = read_head(bytes)?;
    let (coins, rest) = match read_ins(alloc, rest) {
        Ok(read) => read,
        Err(fault) => return Err(fault),
    };
    let ((amounts, ((weight, (vsize, fee)), (change, psbt))), rest) = match read_from_pays(
        alloc, rest,
    ) {
        Ok(read) => read,
        Err(fault) => return Err(fault),
    };
    let psbt = Vec::from_slice(alloc, psbt)?;
    let report = SharedReport {
        row,
        tries,
        coins,
        amounts,
        weight,
        vsize,
        fee,
        change,
        psbt,
    };
    Ok((report, rest))
}

/// The report of the bytes, read line by line.
#[tactic(auto, unfolding(crate::specs::Reading::shared_at), using(crate::proofs::SharedLaws::fails_lines, crate::proofs::SharedLaws::fails_behind, crate::proofs::SharedLaws::fails_coins))]
fn read_whole(alloc: Global, bytes: &[u8]) -> Result<SharedReport, AmountFault>
    ensures agrees { Agrees (λ r. r) result (shared_at bytes.now) }
    ensures short { result ≡ Err faults.Memory → IsOk (head_at bytes.now) }
{
    let (report, rest) = match read_lines(alloc, bytes) {
        Ok(read) => read,
        Err(LineFault::Form(_)) => return Err(AmountFault::Form),
        Err(LineFault::Memory) => return Err(AmountFault::Memory),
    };
    if !rest.is_empty() {
        return Err(AmountFault::Form);
    }
    if report.coins.is_empty() {
        return Err(AmountFault::Form);
    }
    Ok(report)
}

/// The report of a payment whose recipients bear the fee, of which the bytes are a text, txids in either case.
/// [`AmountFault::Form`] exactly where they are none. No other fault comes but being out of memory.
#[tactic(auto, using(crate::proofs::SharedLaws::tells_found, crate::proofs::SharedLaws::tells_only))]
pub fn read_shared(alloc: Global, bytes: &[u8]) -> Result<SharedReport, AmountFault>
    // What is read is a report of which the bytes are a text, and such a text is read.
    ensures found { IfOk result (λ r. IsSharedText bytes.now r) }
    ensures only { (r : PlainShared) → IsSharedText bytes.now r → MatchResult result (λ read. read ≡ r) (λ e. e ≡ faults.Memory) }

    // It runs out of memory only where the lines before the coins stand.
    ensures short { result ≡ Err faults.Memory → IsOk (head_at bytes.now) }
{
    read_whole(alloc, bytes)
}
