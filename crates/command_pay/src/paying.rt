//! The command that pays.

ghost use Rattle.std.specs.Prelude.{◌≡◌, ◌≤◌, ◌↔◌, Err, IfErr, IfOk, IsTrue};
ghost use Rattle.amount_reports.specs.SharedText.{IsSharedText, PlainShared};
ghost use Rattle.fund_base.specs.Parsing.{YieldsAll};
ghost use Rattle.fund_report.specs.PlainFunded.{PlainFunded};
ghost use Rattle.fund_report.specs.ReportText.{IsReportText};
ghost use Rattle.fund_report.specs.declared.report.Report.TheVariants as kinds;
ghost use Rattle.wide_report.specs.WideText.{IsWideText};
ghost use Rattle.held_run.specs.Held.{KeepsFiles};
ghost use Rattle.pay_words.specs.Asked.{asked_in, plain_asked};
ghost use Rattle.pay_words.specs.Given.{BeginsWithFlag};
ghost use Rattle.payment_files.specs.Files.{HasOwnNames};
ghost use Rattle.pay_words.specs.declared.fault.WordFault.TheVariants.{Memory as OutOfMemory};
ghost use Rattle.command_pay.specs.Paid.{fee_in};
ghost use Rattle.command_pay.specs.Pays.{Pays, greatest_fee};
ghost use Rattle.command_pay.specs.Run.{IsReportBy, IsSomeReport};

use crate::fees::{fee_ceiling, is_fee_taken};
use crate::outcome::Ending;
use crate::report::PaidReport;
use crate::run::run_asked;
use amount_reports::{AmountFault, SharedReport, read_shared};
use command_end::Status;
use fund_base::Memory;
use fund_report::{FundedReport, Report, ReportFault, read_report};
use fund_shelf::Shelf;
use held_run::Run;
use pay_words::{Asked, Way, WordFault, read_pay};
use payment_files::{PutFault, put_files};
use std::alloc::Global;
use wide_report::{WideReportFault, read_wide_report};

/// The payment by `fund` of which these bytes are the report. It refuses only when out of memory.
fn funded_in(alloc: Global, said: &[u8]) -> Result<FundedReport, Memory>
    requires { (f : PlainFunded) × IsReportText said.now (kinds.Funded f) }
    ensures { IfOk result (λ f. IsReportText said.now (kinds.Funded f)) }
{
    match read_report(alloc, said) {
        Ok(Report::Funded(report)) => Ok(report),
        Ok(Report::NoSelection { .. }) => unreachable!(),
        Ok(Report::Unfinished { .. }) => unreachable!(),
        Err(ReportFault::Form(_)) => unreachable!(),
        Err(ReportFault::Memory) => Err(Memory),
    }
}

/// The payment by `wide` of which these bytes are the report. It refuses only when out of memory.
fn wide_in(alloc: Global, said: &[u8]) -> Result<FundedReport, Memory>
    requires { (f : PlainFunded) × IsWideText said.now f }
    ensures { IfOk result (λ f. IsWideText said.now f) }
{
    match read_wide_report(alloc, said) {
        Ok(report) => Ok(report),
        Err(WideReportFault::Form) => unreachable!(),
        Err(WideReportFault::Memory) => Err(Memory),
    }
}

/// The payment by `share` of which these bytes are the report. It refuses only when out of memory.
fn shared_in(alloc: Global, said: &[u8]) -> Result<SharedReport, Memory>
    requires { (f : PlainShared) × IsSharedText said.now f }
    ensures { IfOk result (λ f. IsSharedText said.now f) }
{
    match read_shared(alloc, said) {
        Ok(report) => Ok(report),
        Err(AmountFault::Form) => unreachable!(),
        Err(AmountFault::Memory) => Err(Memory),
    }
}

/// The payment of which these bytes are the report, as the command of this way prints it. It refuses only when out of memory.
fn payment_in(alloc: Global, way: Way, said: &[u8]) -> Result<PaidReport, Memory>
    requires { IsSomeReport way said.now }
    ensures { IfOk result (λ f. IsReportBy way said.now f) }
{
    match way {
        Way::Fund => {
            let report = funded_in(alloc, said)?;
            Ok(PaidReport::Whole(report))
        }
        Way::Wide => {
            let report = wide_in(alloc, said)?;
            Ok(PaidReport::Whole(report))
        }
        Way::Share => {
            let report = shared_in(alloc, said)?;
            Ok(PaidReport::Shared(report))
        }
    }
}

/// Whether a run came to a payment.
fn is_done(status: Status) -> bool
    ensures { IsTrue result ↔ (status ≡ Status.Done) }
{
    matches!(status, Status::Done)
}

/// Whether the fee of a payment is taken.
fn accepts_fee(asked: &Asked, report: &PaidReport) -> bool
    ensures { IsTrue result ↔ (fee_in report.now ≤ greatest_fee asked.now) }
{
    is_fee_taken(report.fee(), asked.max_fee, &asked.payments)
}

/// That the fee of a payment is too high: the fee, and the greatest that is taken.
fn high_fee(asked: &Asked, report: &PaidReport) -> Ending
    ensures { result ≡ Ending.FeeAboveMaximum (fee_in report.now) (greatest_fee asked.now) }
{
    Ending::FeeAboveMaximum(report.fee(), fee_ceiling(asked.max_fee, &asked.payments))
}

/// Pays what is asked. The wallet and the blocks are read at `files`, which is answered too: no file of it is changed. Where the
/// run of its command comes to a payment whose fee is taken, its new files are written at `new_files`, each where it is asked for, in this
/// order: the request, the log, the report and the PSBT. Else nothing is written. No two of them may have one name. Out of memory is the
/// one answer that stands for no other cause.
pub fn pay_asked<H: Shelf + Drop, N: Shelf>(
    alloc: Global,
    asked: &Asked,
    files: H,
    new_files: &mut N,
) -> (Ending, H)
    requires { HasOwnNames asked.now }
    ensures pays { Pays H.tells N.tells asked.now (H.view files) (H.view result.1) (N.view new_files.old) (N.view new_files.new) result.0 }
    ensures files { KeepsFiles H.tells (H.view files) (H.view result.1) }
{
    let (ended, files) = run_asked(alloc, asked, files);
    let run = match ended {
        Ok(run) => run,
        Err(Memory) => return (Ending::Memory, files),
    };
    let Run { status, said, log } = run;
    if !is_done(status) {
        return (Ending::NotPaid(status, said), files);
    }
    let report = match payment_in(alloc, asked.way, &said) {
        Ok(report) => report,
        Err(Memory) => return (Ending::Memory, files),
    };
    if !accepts_fee(asked, &report) {
        return (high_fee(asked, &report), files);
    }
    match put_files(alloc, asked, &log, &said, report.psbt(), new_files) {
        Ok(()) => (Ending::Paid(report, log), files),
        Err(PutFault::Unwritten(file)) => (Ending::Unwritten(file), files),
        Err(PutFault::Memory) => (Ending::Memory, files),
    }
}

/// Does what the words behind `pay` ask for, with this seed where they give none; and answers what they ask for beside how it
/// ended, and `files`, of which no file is changed. Where the words ask for no payment, it answers their first fault, and no
/// file is read or written.
pub fn pay<H: Shelf + Drop, N: Shelf>(
    alloc: Global,
    words: &[String],
    drawn: [u8; 32],
    files: H,
    new_files: &mut N,
) -> (Result<(Asked, Ending), WordFault>, H)
    ensures words { YieldsAll OutOfMemory (λ r. plain_asked r.0) result.0 (asked_in drawn words.now) }
    ensures short { result.0 ≡ Err OutOfMemory → BeginsWithFlag words.now }
    ensures unasked { IfErr result.0 (λ fault. (N.view new_files.new) ≡ (N.view new_files.old)) }
    ensures unread { IfErr result.0 (λ fault. (H.view result.1) ≡ (H.view files)) }
    ensures pays { IfOk result.0 (λ r. Pays H.tells N.tells r.0 (H.view files) (H.view result.1) (N.view new_files.old) (N.view new_files.new) r.1) }
    ensures files { KeepsFiles H.tells (H.view files) (H.view result.1) }
{
    let asked = match read_pay(alloc, words, drawn) {
        Ok(asked) => asked,
        Err(fault) => return (Err(fault), files),
    };
    let (ending, files) = pay_asked(alloc, &asked, files, new_files);
    (Ok((asked, ending)), files)
}
