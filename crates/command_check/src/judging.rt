//! Whether a report of the files is accepted with its log.

ghost use Rattle.std.specs.Prelude.{◌≡◌, ◌≢◌, ◌∷◌, [], IfErr, IfOk, string_bytes};
ghost use Rattle.fund_shelf.specs.Causes.{Asks, OnlyReads};
ghost use Rattle.fund_files.specs.declared.refusal.File.{File};
ghost use Rattle.command_end.specs.Names.{plain_sources};
ghost use Rattle.command_inputs.specs.Inputs.{NoneBehind};
ghost use Rattle.command_inputs.specs.Names.{plain_payment};
ghost use Rattle.fund_steps.specs.Plan.{PlainPlan};
ghost use Rattle.report_check.specs.Verdict.{IsAccepted};
ghost use Rattle.report_check.specs.Vouched.{Vouches};
ghost use Rattle.command_check.specs.Asked.{AsksInOrder, AsksNoLog, AsksPayment};
ghost use Rattle.command_check.specs.Evidence.{AreRead, HasLoggedReport, HavePlan};
ghost use Rattle.command_check.specs.Statuses.{IsVouched};
ghost use Rattle.command_check.specs.Stops.{StopsAtEvidence, StopsFor, StopsJudging};
ghost use Rattle.command_check.specs.Words.{accepted_text};

use crate::evidence::{read_beside, read_found};
use crate::examining::examiner;
use crate::stop::{CheckedFile, Stop};
use crate::words::accepted_text;
use command_end::Sources;
use command_inputs::{Payment, Stop as PaymentStop};
use fund_report::Report;
use fund_shelf::Shelf;
use report_check::ReportChecker;
use std::alloc::Global;

/// A report, and the bytes of its log.
#[derive(Drop)]
pub struct Pair {
    /// The report.
    pub report: Report,
    /// The bytes of its log.
    pub log: Vec<u8>,
}

/// The report, which is read first, and its log, where it has one.
fn read_pair<H: Shelf>(alloc: Global, report: &str, log: &str, shelf: &mut H) -> Result<Pair, Stop>
    ensures read { H.tells → IfOk result (λ x. AreRead ((H.view shelf.old).files report.now) ((H.view shelf.old).files log.now) x.report x.log.items) }
    ensures frame { OnlyReads H.tells (H.view shelf.old) (H.view shelf.new) }
    ensures stop { IfErr result (StopsAtEvidence H.tells report.now log.now (H.view shelf.old) (H.view shelf.new)) }
    ensures asked { H.tells → Asks (report.now ∷ log.now ∷ []) (H.view shelf.old).asked (H.view shelf.new).asked }
    ensures no_log { H.tells → (HasLoggedReport ((H.view shelf.old).files report.now) → ⊥) → Asks (report.now ∷ []) (H.view shelf.old).asked (H.view shelf.new).asked }
    ensures all_read { ((file : CheckedFile) → result ≢ Err (Stop.Read file)) → (H.view shelf.new).reads ≡ (H.view shelf.old).reads }
{
    let found = read_found(alloc, report, shelf)?;
    let log = read_beside(alloc, &found, log, shelf)?;
    Ok(Pair { report: found, log })
}

/// What is printed of a report that is accepted with its log, or the first rule that it breaks.
fn judge(alloc: Global, examiner: &ReportChecker, pair: &Pair) -> Result<String, Stop>
    ensures accepted { IfOk result (λ _. IsAccepted examiner.now pair.now.report pair.now.log.items) }
    ensures vouches { IfOk result (λ _. Vouches examiner.now pair.now.report) }
    ensures text { IfOk result (λ text. string_bytes text ≡ accepted_text pair.now.report) }
    ensures stop { IfErr result (StopsJudging examiner.now pair.now.report pair.now.log.items) }
{
    examiner.keeps_rules();
    examiner.judge(&pair.report, &pair.log)?;
    let text = accepted_text(alloc, &pair.report)?;
    Ok(text)
}

/// What is printed of a report of the files that is accepted with its log, or why it isn't.
pub fn accepted<H: Shelf>(
    alloc: Global,
    sources: &Sources,
    payment: &Payment,
    report: &str,
    shelf: &mut H,
) -> Result<String, Stop>
    ensures accepted { IfOk result (λ text. IsVouched H.tells (H.view shelf.old).files (plain_sources sources.now) (plain_payment payment.now) report.now (string_bytes text)) }
    ensures frame { OnlyReads H.tells (H.view shelf.old) (H.view shelf.new) }
    ensures stop { IfErr result (StopsFor H.tells (plain_sources sources.now) (plain_payment payment.now) report.now (H.view shelf.old) (H.view shelf.new)) }
    ensures asked { H.tells → AsksInOrder (plain_sources sources.now) (plain_payment payment.now) report.now (H.view shelf.old) (H.view shelf.new) }
    ensures none_behind { H.tells → NoneBehind (plain_sources sources.now) (H.view shelf.old) (H.view shelf.new) }
    ensures no_log { H.tells → (HasLoggedReport ((H.view shelf.old).files report.now) → ⊥) → AsksNoLog (plain_sources sources.now) (plain_payment payment.now) report.now (H.view shelf.old) (H.view shelf.new) }
    ensures unread { H.tells → ((plan : PlainPlan) → HavePlan (H.view shelf.old).files (plain_sources sources.now) (plain_payment payment.now) plan → ⊥) → AsksPayment (plain_sources sources.now) (plain_payment payment.now) (H.view shelf.old) (H.view shelf.new) }
    ensures all_read { ((file : CheckedFile) → result ≢ Err (Stop.Read file)) → ((file : File) → result ≢ Err (Stop.Payment (PaymentStop.Read file))) → (H.view shelf.new).reads ≡ (H.view shelf.old).reads }
{
    let examiner = examiner(alloc, sources, payment, shelf)?;
    let pair = read_pair(alloc, report, payment.log, shelf)?;
    judge(alloc, &examiner, &pair)
}
