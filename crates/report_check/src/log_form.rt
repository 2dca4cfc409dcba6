//! The log beside a report.

ghost use Rattle.std.specs.Prelude.{◌≡◌, ℕ, Err, IfErr, IfOk, Ok, if◌then◌else◌, length};
ghost use Rattle.closing_log.specs.declared.fault.LogTextFault.TheVariants as faults;
ghost use Rattle.report_check.specs.Proved.{IsEndedText};
ghost use Rattle.report_check.specs.Refused.{IsFormRefusal};
ghost use Rattle.report_check.specs.declared.fault.CheckFault.TheVariants as check;

use crate::fault::CheckFault;
use closing_log::{LogText, LogTextFault, read_sections};
use std::alloc::Global;

/// The refusal of bytes for a fault of their form, which may be that there was not enough memory.
fn refusal(fault: LogTextFault) -> CheckFault
    ensures memory { fault ≡ faults.Memory → result ≡ check.Memory }
    ensures form { (place sections : ℕ) → fault ≡ faults.Form place sections → result ≡ check.LogForm place }
{
    match fault {
        LogTextFault::Form { place, .. } => CheckFault::LogForm(place),
        LogTextFault::Memory => CheckFault::Memory,
    }
}

/// That the text of these bytes comes to its end. It takes no memory.
fn check_ended(ended: bool, bytes: &[u8]) -> Result<(), CheckFault>
    ensures { result ≡ (if ended then Ok tt else Err (check.LogForm (length bytes.now))) }
{
    if !ended {
        return Err(CheckFault::LogForm(bytes.len() as u64));
    }
    Ok(())
}

/// The log of which the bytes are a text that comes to its end.
#[tactic(auto, using(crate::proofs::FormLaws::refused_as, crate::proofs::FormLaws::open_refused))]
pub(crate) fn read_log(alloc: Global, bytes: &[u8]) -> Result<LogText, CheckFault>
    ensures found { IfOk result (λ log. IsEndedText bytes.now log) }
    ensures fault { IfErr result (IsFormRefusal bytes.now) }
{
    let log = match read_sections(alloc, bytes) {
        Ok(log) => log,
        Err(fault) => return Err(refusal(fault)),
    };
    check_ended(log.ended, bytes)?;
    Ok(log)
}
