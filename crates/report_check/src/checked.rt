//! The checker over the sections of a log.

ghost use Rattle.std.specs.Prelude.{◌≡◌, ◌≢◌, ◌<◌, ◌≤◌, length, IfErr, IfOk, OnOk};
ghost use Rattle.log_checker.specs.declared.fault.LogFault.TheVariants as fault;
ghost use Rattle.search_run.specs.Searched.{searches};
ghost use Rattle.report_check.specs.Checking.{Checks, Refuses};
ghost use Rattle.report_check.specs.DueSections.{AreForFirst};
ghost use Rattle.report_check.specs.Proved.{AreProved};
ghost use Rattle.report_check.specs.Refused.{IsLogRefusal};
ghost use Rattle.report_check.specs.declared.fault.CheckFault.TheVariants as check;

use crate::fault::CheckFault;
use closing_log::Section;
use log_checker::LogFault;
use search_run::{Step, check_section};
use std::alloc::Global;

/// What is left of the sections behind that of a step: a draw has none, and that of a search is accepted.
fn check_next<'a>(
    alloc: Global,
    step: &Step,
    sections: &'a [Section],
) -> Result<&'a [Section], LogFault>
    requires { 0 < length sections.now }
    ensures checked { IfOk result (λ rest. Checks step.now sections.now rest.now) }
    ensures refused { IfErr result (Refuses step.now sections.now) }
{
    if step.is_drawn() {
        return Ok(sections);
    }
    match sections {
        [] => unreachable!(),
        [section, rest @ ..] => {
            check_section(alloc, step.problem(), section)?;
            Ok(rest)
        }
    }
}

/// The refusal of the section at an index for a fault, which may be that there was not enough memory.
fn refusal(index: usize, why: LogFault) -> CheckFault
    requires { index ≤ 1_000 }
    ensures memory { why ≡ fault.Memory → result ≡ check.Memory }
    ensures log { why ≢ fault.Memory → result ≡ check.Log index why }
{
    if why == LogFault::Memory {
        return CheckFault::Memory;
    }
    CheckFault::Log(index as u32, why)
}

/// That the letters of each section are accepted with its answer, for the problem of its search. There are no more
/// sections than searches.
#[tactic(auto, using(crate::proofs::CheckedLaws::checked_begins, crate::proofs::CheckedLaws::checked_all, crate::proofs::CheckedLaws::checked_ends))]
pub(crate) fn check_all(
    alloc: Global,
    steps: &[Step],
    sections: &[Section],
) -> Result<(), CheckFault>
    requires few { length steps.now ≤ 1_000 }
    requires fit { AreForFirst (searches steps.now) sections.now }
    ensures proved { OnOk result (AreProved steps.now sections.now) }
    ensures refused { IfErr result (IsLogRefusal steps.now sections.now) }
{
    let mut rest = sections;
    'checking: for step in steps {
        if rest.is_empty() {
            return Ok(());
        }
        match check_next(alloc, step, rest) {
            Ok(next) => rest = next,
            Err(why) => return Err(refusal(sections.len() - rest.len(), why)),
        }
    }
    Ok(())
}
