//! A run that is unfinished is kept as a job.

ghost use Rattle.std.specs.Prelude.{◌≡◌, ◌≢◌, ◌≤◌, IfErr, OnErr, OnOk};
ghost use Rattle.kept_job.specs.SavingRules.{CanBeKept};
ghost use Rattle.command_fund.specs.Leaving.{IsSavedAnew};
ghost use Rattle.command_inputs.specs.Names.{plain_job};
ghost use Rattle.command_fund.specs.Stops.{StopsKeeping};

use command_inputs::Stop;
use fund_outside::Keeper;
use fund_plan::Plan;
use kept_job::{Behind, keep};
use std::alloc::Global;

/// Keeps an unfinished plan as a job of this digest that begins anew: with its whole log as its first part. Where no job is
/// named nothing is kept.
pub fn keep_anew<K: Keeper>(
    alloc: Global,
    job: Option<&str>,
    digest: Option<[u8; 32]>,
    plan: &Plan,
    keeper: &mut K,
) -> Result<(), Stop>
    requires { CanBeKept plan.now 1 }
    ensures kept { OnOk result (IsSavedAnew K.tells plan.now (plain_job job.entry) digest (K.view keeper.old) (K.view keeper.new)) }
    ensures same { K.tells → OnErr result ((K.view keeper.new).jobs ≡ (K.view keeper.old).jobs) }
    ensures stop { IfErr result (StopsKeeping (plain_job job.entry) (K.view keeper.old) (K.view keeper.new)) }
    // A failure of the keeper is told as that, and as nothing else.
    ensures unfailed { result ≢ Err Stop.Keep → (K.view keeper.new).faults ≡ (K.view keeper.old).faults }
    ensures faults { (K.view keeper.old).faults ≤ (K.view keeper.new).faults }
{
    match (job, digest) {
        (Some(job), Some(digest)) => {
            let behind = Behind::nothing(alloc);
            keep(alloc, keeper, job, digest, plan, &behind)?;
            Ok(())
        }
        _ => Ok(()),
    }
}
