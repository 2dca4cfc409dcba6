//! The command that pays all coins.

ghost use Rattle.std.specs.Prelude.{◌≡◌, ◌≤◌, ◌↔◌, IfOk, IsTrue};
ghost use Rattle.amount_reports.specs.SweptText.{IsSweptText, PlainSwept};
ghost use Rattle.held_run.specs.Held.{KeepsFiles};
ghost use Rattle.command_sweeping.specs.Fees.{greatest_of};
ghost use Rattle.command_sweeping.specs.Sweeps.{Sweeps};

use crate::fees::greatest_fee;
use crate::outcome::Ending;
use crate::run::run_asked;
use amount_reports::{AmountFault, SweptReport, read_swept};
use command_end::Status;
use fund_base::Memory;
use fund_shelf::{Fault, Shelf};
use held_run::Run;
use pay_words::Asked;
use payment_files::put_if;
use std::alloc::Global;

/// The payment of which these bytes are the report. It refuses only when out of memory.
fn payment_in(alloc: Global, said: &[u8]) -> Result<SweptReport, Memory>
    requires { (r : PlainSwept) × IsSweptText said.now r }
    ensures { IfOk result (λ r. IsSweptText said.now r) }
{
    match read_swept(alloc, said) {
        Ok(report) => Ok(report),
        Err(AmountFault::Form) => unreachable!(),
        Err(AmountFault::Memory) => Err(Memory),
    }
}

/// Whether a run came to a payment.
fn is_done(status: Status) -> bool
    ensures { IsTrue result ↔ (status ≡ Status.Done) }
{
    matches!(status, Status::Done)
}

/// Whether the fee of a payment is taken.
fn accepts_fee(asked: &Asked, report: &SweptReport) -> bool
    ensures { IsTrue result ↔ (report.now.fee ≤ greatest_of asked.now report.now) }
{
    report.fee <= greatest_fee(asked.max_fee, report.amount)
}

/// That the fee of a payment is too high: the fee, and the greatest that is taken.
fn high_fee(asked: &Asked, report: &SweptReport) -> Ending
    ensures { result ≡ Ending.FeeAboveMaximum report.now.fee (greatest_of asked.now report.now) }
{
    Ending::FeeAboveMaximum(report.fee, greatest_fee(asked.max_fee, report.amount))
}

/// Pays all coins to the one recipient that is asked for. The wallet and the blocks are read at `files`, which is answered too: no
/// file of it is changed. What is asked of the recipient is the least that it takes. Where the run of `sweep` comes to a payment
/// whose fee is taken, its PSBT is written at `new_files`, where it is asked for; else nothing is written. Out of memory is the
/// one answer that stands for no other cause.
pub fn sweep_asked<H: Shelf + Drop, N: Shelf>(
    alloc: Global,
    asked: &Asked,
    files: H,
    new_files: &mut N,
) -> (Ending, H)
    ensures sweeps { Sweeps H.tells N.tells asked.now (H.view files) (H.view result.1) (N.view new_files.old) (N.view new_files.new) result.0 }
    ensures files { KeepsFiles H.tells (H.view files) (H.view result.1) }
{
    let (ended, files) = run_asked(alloc, asked, files);
    let run = match ended {
        Ok(run) => run,
        Err(Memory) => return (Ending::Memory, files),
    };
    let Run { status, said, .. } = run;
    if !is_done(status) {
        return (Ending::NotSwept(status, said), files);
    }
    let report = match payment_in(alloc, &said) {
        Ok(report) => report,
        Err(Memory) => return (Ending::Memory, files),
    };
    if !accepts_fee(asked, &report) {
        return (high_fee(asked, &report), files);
    }
    match put_if(new_files, &asked.names.psbt, &report.psbt) {
        Ok(()) => (Ending::Swept(report), files),
        Err(Fault::Failed) => (Ending::Unwritten, files),
        Err(Fault::Memory) => (Ending::Memory, files),
    }
}
