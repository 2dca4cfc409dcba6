//! The checker over the sections of a run.

ghost use Rattle.std.specs.Prelude.{◌≡◌, ◌≢◌, IfErr, OnOk};
ghost use Rattle.log_checker.specs.declared.fault.LogFault.TheVariants as fault;
ghost use Rattle.search_run.specs.declared.fault.VerifyFault.TheVariants as verified;
ghost use Rattle.search_run.specs.Judged.{IsRefusedLog};
ghost use Rattle.search_run.specs.Kept.{Along, IsAcceptedAt, IsDueAt, first_search};

use crate::fault::VerifyFault;
use crate::next_search::{answered, first};
use crate::section_check::check_section;
use crate::step::Step;
use closing_log::Section;
use log_checker::LogFault;
use std::alloc::Global;

/// The refusal of the section at an index for a fault, which may be that there was not enough memory.
fn refusal(index: u64, why: LogFault) -> VerifyFault
    ensures memory { why ≡ fault.Memory → result ≡ verified.Memory }
    ensures log { why ≢ fault.Memory → result ≡ verified.Log index why }
{
    if why == LogFault::Memory {
        return VerifyFault::Memory;
    }
    VerifyFault::Log(index, why)
}

/// Whether the letters of each section are accepted with its answer, where a run comes to its search.
#[tactic(auto, using(crate::proofs::FollowLaws::along_begins, crate::proofs::FollowLaws::along_ends))]
pub(crate) fn verify(
    alloc: Global,
    seed: [u8; 32],
    steps: &[Step],
    closed: &[Section],
) -> Result<(), VerifyFault>
    requires { Along IsDueAt seed (first_search seed steps.now) closed.now }
    ensures accepted { OnOk result (Along IsAcceptedAt seed (first_search seed steps.now) closed.now) }
    ensures refused { IfErr result (λ e. IsRefusedLog seed steps.now closed.now e) }
{
    let mut now = first(alloc, seed, steps)?;
    'along: for (i, section) in closed.iter().enumerate() {
        if let Err(why) = check_section(alloc, steps[now.at].problem(), section) {
            return Err(refusal(i as u64, why));
        }
        now = answered(alloc, seed, steps, now, section.answer.is_some())?;
    }
    Ok(())
}
