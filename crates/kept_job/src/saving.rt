//! What is kept of a plan that is unfinished.

ghost use Rattle.std.specs.Prelude.{◌≡◌, ◌≢◌, ◌<◌, ◌≤◌, ◌+◌, Err, IfOk, IsErrOf, OnErr, OnOk};
ghost use Rattle.fund_shelf.specs.Causes.{Rose};
ghost use Rattle.fund_outside.specs.Kept.{SameForOthers};
ghost use Rattle.kept_job.specs.Saving.{IsSavedBehind, IsSavedOf, log_behind};
ghost use Rattle.kept_job.specs.SavingRules.{CanBeKept};

use crate::behind::Behind;
use crate::sizes::saved_fits;
use closing_log::write_tail;
use fund_base::Memory;
use fund_outside::{KeepFault, Keeper};
use fund_plan::Plan;
use search_keep::write_saved;
use std::alloc::Global;

/// The saved text of an unfinished plan, whose log is kept in so many parts, which have this digest joined. The error is out of
/// memory.
fn saved_text(
    alloc: Global,
    plan: &Plan,
    digest: [u8; 32],
    parts: u32,
    log: [u8; 32],
) -> Result<Vec<u8>, Memory>
    requires { CanBeKept plan.now parts }
    ensures { IfOk result (λ text. IsSavedOf digest parts log plan.now text.items) }
{
    match plan.saved(digest, parts)? {
        Some(mut saved) => {
            // parts that were kept may spell the same log otherwise
            saved.log = Some(log);
            saved_fits(&saved);
            let text = write_saved(alloc, &saved)?;
            Ok(text)
        }
        None => unreachable!(),
    }
}

/// The bytes of a plan's log behind so many. The error is out of memory.
fn log_part(alloc: Global, plan: &Plan, length: u64) -> Result<Vec<u8>, Memory>
    ensures { IfOk result (λ part. part.items ≡ log_behind length plan.now) }
{
    let log = plan.log()?;
    let part = write_tail(alloc, &log, length)?;
    Ok(part)
}

/// Keeps an unfinished plan as the job of this digest, behind what is kept of its log already: those parts stay, the part
/// behind them has the bytes that are new, and what stood behind them is dropped. The saved text has the digest of all these
/// parts joined. The fault is the keeper's, or out of memory; the jobs are then as before.
pub fn keep<K: Keeper>(
    alloc: Global,
    keeper: &mut K,
    job: &str,
    digest: [u8; 32],
    plan: &Plan,
    behind: &Behind,
) -> Result<(), KeepFault>
    requires room { behind.now.parts < 4294967295 }
    requires kept { CanBeKept plan.now (behind.now.parts + 1) }
    ensures kept { K.tells → OnOk result (IsSavedBehind digest plan.now behind.now.parts behind.now.bytes ((K.view keeper.old).jobs job.now) ((K.view keeper.new).jobs job.now)) }
    ensures others { K.tells → SameForOthers job.now (K.view keeper.old).jobs (K.view keeper.new).jobs }
    ensures same { K.tells → OnErr result ((K.view keeper.new).jobs ≡ (K.view keeper.old).jobs) }
    ensures faults { (K.view keeper.old).faults ≤ (K.view keeper.new).faults }
    ensures cause { IsErrOf result KeepFault.Failed → Rose (K.view keeper.old).faults (K.view keeper.new).faults }
    ensures unfailed { result ≢ Err KeepFault.Failed → (K.view keeper.new).faults ≡ (K.view keeper.old).faults }
{
    let Ok(part) = log_part(alloc, plan, behind.byte_count()) else {
        return Err(KeepFault::Memory);
    };
    let Ok(log) = behind.digest_with(&part) else {
        return Err(KeepFault::Memory);
    };
    let Ok(saved) = saved_text(alloc, plan, digest, behind.parts() + 1, log) else {
        return Err(KeepFault::Memory);
    };
    keeper.save(job, behind.parts(), &part, &saved)
}
