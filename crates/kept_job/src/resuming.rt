//! A plan that goes on from a kept job.

ghost use Rattle.std.specs.Prelude.{◌≡◌, ◌≢◌, ◌≤◌, Err, IfErr, IfOk, IsErrOf};
ghost use Rattle.fund_shelf.specs.Causes.{Rose};
ghost use Rattle.fund_plan.specs.Answer.{ArePayments, HasSelection};
ghost use Rattle.kept_job.specs.Refused.{IsNotResumed};
ghost use Rattle.kept_job.specs.Resuming.{HasResumed, IfTrueSettled, IsLeftAs};

use crate::behind::Behind;
use crate::fault::KeptFault;
use crate::loading::{Loaded, load};
use closing_log::Mark;
use fund_outside::Keeper;
use fund_plan::{Outcome, Plan};
use std::alloc::Global;

/// What a plan comes to that went on from a kept job, and what was kept of it.
#[derive(Drop)]
pub struct Resumed {
    /// What the plan comes to.
    pub outcome: Outcome,
    /// What was kept of its log, behind which it can be kept.
    pub behind: Behind,
}

/// Whether an outcome is an answer: a payment that wasn't taken for want of tries, or that there is none.
fn is_settled(outcome: &Outcome) -> bool
    ensures { IfTrueSettled result outcome.now }
{
    match outcome {
        Outcome::Unfinished => false,
        Outcome::NoSelection => true,
        Outcome::Funded(funded) => {
            match funded.mark {
                Mark::Partial => false,
                Mark::Exhausted | Mark::Drawn | Mark::Given => true,
            }
        }
    }
}

/// Goes on with at most so many tries from what the keeper has of the job, which may be any; `now` is the digest of the job
/// now. Wherever the plan stood before, it then stands where the tries lead from the job. Where it comes to an answer, the
/// whole log was accepted, the sections from before among them.
///
/// The fault is the first of these: those of loading, in the order of [`KeptFault`]; `Section` exactly where a section isn't
/// that of the search to which the run comes at its index, or none is open; `IllFormed` exactly where no search of the open
/// section's problem stands at the saved position; `Log` for the first closed answer that isn't admissible; and, where it
/// comes to an answer, `Log` for the first section that isn't accepted. `Failed` comes only where the keeper's count rose.
/// The jobs stay. After `Memory` and `Log` the plan may stand anywhere, and is to be dropped; after any other fault it is as
/// it was.
pub fn resume<K: Keeper>(
    alloc: Global,
    plan: &mut Plan,
    keeper: &mut K,
    job: &str,
    now: &[u8; 32],
    budget: u64,
) -> Result<Resumed, KeptFault>
    ensures gone { IfOk result (HasResumed K.tells plan.old.plan now.now ((K.view keeper.old).jobs job.now) budget plan.new) }
    ensures pays { IfOk result (λ r. ArePayments plan.old.plan r.outcome) }
    ensures fits { IfOk result (λ r. HasSelection plan.old.plan.request r.outcome) }
    ensures fault { K.tells → IfErr result (IsNotResumed plan.old.plan now.now ((K.view keeper.old).jobs job.now) budget) }
    // It stays the plan of the same request and coins; a fault of loading and restoring leaves it as it was.
    ensures made_from { plan.new.plan ≡ plan.old.plan }
    ensures stays { IfErr result (IsLeftAs plan.old plan.new) }
    ensures same { K.tells → (K.view keeper.new).jobs ≡ (K.view keeper.old).jobs }
    ensures faults { (K.view keeper.old).faults ≤ (K.view keeper.new).faults }
    ensures cause { IsErrOf result KeptFault.Failed → Rose (K.view keeper.old).faults (K.view keeper.new).faults }
    ensures unfailed { result ≢ Err KeptFault.Failed → (K.view keeper.new).faults ≡ (K.view keeper.old).faults }
{
    let Loaded { saved, log, behind } = load(alloc, keeper, job, now)?;
    let digest = *now;
    plan.restore(digest, &saved, &log)?;
    let outcome = plan.go(budget)?;
    if is_settled(&outcome) {
        plan.verify()?;
    }
    Ok(Resumed { outcome, behind })
}
