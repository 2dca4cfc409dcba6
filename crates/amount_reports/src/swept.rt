//! The report of a payment of all coins.

ghost use Rattle.std.specs.Prelude.{◌≡◌, codes, Err, IfOk, IsOk, MatchResult};
ghost use Rattle.closing_log.specs.Gives.{Gives, Reads};
ghost use Rattle.closing_log.specs.declared.fault.LineFault.TheVariants.{Memory as OutOfMemory};
ghost use Rattle.closing_log.specs.Reading.{both_at};
ghost use Rattle.amount_reports.specs.Reading.{ins_at, named_line, swept_at, swept_lines, swept_tail};
ghost use Rattle.amount_reports.specs.Read.{Agrees};
ghost use Rattle.amount_reports.specs.SweptText.{IsSweptText, PlainSwept};
ghost use Rattle.amount_reports.specs.declared.fault.AmountFault.TheVariants as faults;

use crate::fault::AmountFault;
use crate::lines::{read_figures, read_ins, read_named, read_psbt};
use closing_log::LineFault;
use fund_report::InLine;
use std::alloc::Global;
use std::marker::Model;

/// What is reported of a payment of all coins. Amounts are in satoshi.
#[derive(Drop)]
pub struct SweptReport {
    /// What the recipient gets.
    pub amount: u64,
    /// Its inputs, in order.
    pub coins: Vec<InLine>,
    /// Its declared weight, in weight units.
    pub weight: u64,
    /// Its size in virtual bytes, a quarter of the weight rounded up.
    pub vsize: u64,
    /// Its fee.
    pub fee: u64,
    /// The PSBT as text.
    pub psbt: Vec<u8>,
}

impl Model for SweptReport {
    ghost use Rattle.amount_reports.specs.SweptText.{PlainSwept};

    ghost Value = { PlainSwept };

    ghost view = { λ r. record { amount = r.amount; coins = r.coins.items; weight = r.weight; vsize = r.vsize; fee = r.fee; psbt = r.psbt.items } };
}

/// The lines behind those of the coins.
fn read_tail(bytes: &[u8]) -> Result<(((u64, (u64, u64)), &[u8]), &[u8]), &[u8]>
    ensures { Reads (λ x. ((x.0.0, x.0.1.now), x.1.now)) result (swept_tail bytes.now) }
{
    let (figures, rest) = read_figures(bytes)?;
    let (psbt, rest) = read_psbt(rest)?;
    Ok(((figures, psbt), rest))
}

/// The lines from those of the coins on.
fn read_from_coins(
    alloc: Global,
    bytes: &[u8],
) -> Result<((Vec<InLine>, ((u64, (u64, u64)), &[u8])), &[u8]), LineFault<'_>>
    ensures { Gives (λ x. ((x.0.0.items, (x.0.1.0, x.0.1.1.now)), x.1.now)) result (both_at ins_at (λ c. swept_tail) bytes.now) }
{
    let (coins, rest) = match read_ins(alloc, bytes) {
        Ok(read) => read,
        Err(fault) => return Err(fault),
    };
    let (tail, rest) = read_tail(rest)?;
    Ok(((coins, tail), rest))
}

/// All lines.
fn read_lines(alloc: Global, bytes: &[u8]) -> Result<(SweptReport, &[u8]), LineFault<'_>>
    ensures gives { Gives (λ x. (x.0, x.1.now)) result (swept_lines bytes.now) }
    ensures short { result ≡ Err OutOfMemory → IsOk (named_line (codes "swept ") bytes.now) }
{
    let (amount, rest) = read_named(bytes, b"swept ")?;
    let ((coins, ((weight, (vsize, fee)), psbt)), rest) = match read_from_coins(alloc, rest) {
        Ok(read) => read,
        Err(fault) => return Err(fault),
    };
    let psbt = Vec::from_slice(alloc, psbt)?;
    let report = SweptReport {
        amount,
        coins,
        weight,
        vsize,
        fee,
        psbt,
    };
    Ok((report, rest))
}

/// The report of the bytes, read line by line.
#[tactic(auto, unfolding(crate::specs::Reading::swept_at), using(crate::proofs::SweptLaws::fails_lines, crate::proofs::SweptLaws::fails_behind, crate::proofs::SweptLaws::fails_coins))]
fn read_whole(alloc: Global, bytes: &[u8]) -> Result<SweptReport, AmountFault>
    ensures agrees { Agrees (λ r. r) result (swept_at bytes.now) }
    ensures short { result ≡ Err faults.Memory → IsOk (named_line (codes "swept ") bytes.now) }
{
    let (report, rest) = match read_lines(alloc, bytes) {
        Ok(read) => read,
        Err(LineFault::Form(_)) => return Err(AmountFault::Form),
        Err(LineFault::Memory) => return Err(AmountFault::Memory),
    };
    if !rest.is_empty() {
        return Err(AmountFault::Form);
    }
    if report.coins.is_empty() {
        return Err(AmountFault::Form);
    }
    Ok(report)
}

/// The report of a payment of all coins, of which the bytes are a text, txids in either case. [`AmountFault::Form`] exactly
/// where they are none. No other fault comes but being out of memory.
#[tactic(auto, using(crate::proofs::SweptLaws::tells_found, crate::proofs::SweptLaws::tells_only))]
pub fn read_swept(alloc: Global, bytes: &[u8]) -> Result<SweptReport, AmountFault>
    // What is read is a report of which the bytes are a text, and such a text is read.
    ensures found { IfOk result (λ r. IsSweptText bytes.now r) }
    ensures only { (r : PlainSwept) → IsSweptText bytes.now r → MatchResult result (λ read. read ≡ r) (λ e. e ≡ faults.Memory) }

    // It runs out of memory only where the first line stands.
    ensures short { result ≡ Err faults.Memory → IsOk (named_line (codes "swept ") bytes.now) }
{
    read_whole(alloc, bytes)
}
