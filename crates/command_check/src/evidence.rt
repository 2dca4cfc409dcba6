//! The report and the log, read one by one.

ghost use Rattle.std.specs.Prelude.{◌≡◌, ◌≢◌, ◌↔◌, [], ◌∷◌, IfErr, IfOk, IsTrue, OnOk};
ghost use Rattle.fund_shelf.specs.Causes.{Asks, OnlyReads};
ghost use Rattle.report_check.specs.Verdict.{HasLog};
ghost use Rattle.command_check.specs.Evidence.{HasReport, IsWithin};
ghost use Rattle.command_check.specs.Stops.{StopsAtLog, StopsAtReport, StopsReading, form_stop_of, read_stop_of};

use crate::stop::{CheckedFile, Stop};
use fund_report::{Report, ReportFault, read_report};
use fund_shelf::{ReadError, Shelf, read_whole};
use report_check::CheckFault;
use std::alloc::Global;

/// The greatest length of a report and of a log, in bytes.
const LIMIT: usize = 67_108_864;

/// Why the reading stops at a file that wasn't read whole.
fn read_stop(file: CheckedFile, error: ReadError) -> Stop
    ensures stop { result ≡ read_stop_of file error }
{
    match error {
        ReadError::Failed => Stop::Read(file),
        ReadError::TooLong => Stop::TooLong(file),
        ReadError::Memory => Stop::Memory,
    }
}

/// The bytes of a file that is judged, which has this name and at most 67,108,864 bytes.
fn read_evidence<H: Shelf>(
    alloc: Global,
    file: CheckedFile,
    name: &str,
    shelf: &mut H,
) -> Result<Vec<u8>, Stop>
    ensures bytes { H.tells → IfOk result (λ bytes. bytes.items ≡ (H.view shelf.old).files name.now) }
    ensures fits { H.tells → OnOk result (IsWithin ((H.view shelf.old).files name.now)) }
    ensures frame { OnlyReads H.tells (H.view shelf.old) (H.view shelf.new) }
    ensures stop { IfErr result (StopsReading H.tells file name.now (H.view shelf.old) (H.view shelf.new)) }
    ensures asked { H.tells → Asks (name.now ∷ []) (H.view shelf.old).asked (H.view shelf.new).asked }
    ensures all_read { result ≢ Err (Stop.Read file) → (H.view shelf.new).reads ≡ (H.view shelf.old).reads }
{
    match read_whole(alloc, shelf, name, LIMIT) {
        Ok(bytes) => Ok(bytes),
        Err(error) => Err(read_stop(file, error)),
    }
}

/// Why the reading stops at a report with this fault.
fn form_stop(fault: ReportFault) -> Stop
    ensures stop { result ≡ form_stop_of fault }
{
    match fault {
        ReportFault::Form(place) => Stop::Broken(CheckFault::Report(place)),
        ReportFault::Memory => Stop::Memory,
    }
}

/// The report of the file `name`. It is refused for its length before its form.
pub fn read_found<H: Shelf>(alloc: Global, name: &str, shelf: &mut H) -> Result<Report, Stop>
    ensures report { H.tells → IfOk result (HasReport ((H.view shelf.old).files name.now)) }
    ensures frame { OnlyReads H.tells (H.view shelf.old) (H.view shelf.new) }
    ensures stop { IfErr result (StopsAtReport H.tells name.now (H.view shelf.old) (H.view shelf.new)) }
    ensures asked { H.tells → Asks (name.now ∷ []) (H.view shelf.old).asked (H.view shelf.new).asked }
    ensures all_read { result ≢ Err (Stop.Read CheckedFile.Report) → (H.view shelf.new).reads ≡ (H.view shelf.old).reads }
{
    let bytes = read_evidence(alloc, CheckedFile::Report, name, shelf)?;
    match read_report(alloc, &bytes) {
        Ok(report) => Ok(report),
        Err(fault) => Err(form_stop(fault)),
    }
}

/// Whether a report has a log. That of a run that goes on has none.
fn has_log(report: &Report) -> bool
    ensures { IsTrue result ↔ HasLog report.now }
{
    match report {
        Report::Funded(_) => true,
        Report::NoSelection { .. } => true,
        Report::Unfinished { .. } => false,
    }
}

/// The bytes of the log beside a report, which are those of the file `name`; no bytes where the report has no log, and then
/// nothing is read.
pub fn read_beside<H: Shelf>(
    alloc: Global,
    report: &Report,
    name: &str,
    shelf: &mut H,
) -> Result<Vec<u8>, Stop>
    ensures log { H.tells → HasLog report.now → IfOk result (λ log. log.items ≡ (H.view shelf.old).files name.now) }
    ensures fits { H.tells → HasLog report.now → OnOk result (IsWithin ((H.view shelf.old).files name.now)) }
    ensures frame { OnlyReads H.tells (H.view shelf.old) (H.view shelf.new) }
    ensures stop { IfErr result (StopsAtLog H.tells report.now name.now (H.view shelf.old) (H.view shelf.new)) }
    ensures asked { H.tells → Asks (name.now ∷ []) (H.view shelf.old).asked (H.view shelf.new).asked }
    ensures unread { (HasLog report.now → ⊥) → (H.view shelf.new) ≡ (H.view shelf.old) }
    ensures all_read { result ≢ Err (Stop.Read CheckedFile.Log) → (H.view shelf.new).reads ≡ (H.view shelf.old).reads }
{
    if has_log(report) {
        read_evidence(alloc, CheckedFile::Log, name, shelf)
    } else {
        Ok(Vec::new(alloc))
    }
}
