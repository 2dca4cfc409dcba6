//! What a call answers.

ghost use Rattle.std.specs.Prelude.{◌≡◌, ◌≢◌, [], Err, IfOk, OnOk, OnErr};
ghost use Rattle.command_inputs.specs.Names.{plain_job};
ghost use Rattle.fund_outside.specs.SureKeeper.{view_of};
ghost use Rattle.packed_jobs.specs.Packed.{packed_if};
ghost use Rattle.packed_jobs.specs.declared.fault.PackFault.TheVariants as faults;
ghost use Rattle.fund_calls.specs.Given.{IsKeptIn, IsNoJob};
ghost use Rattle.fund_calls.specs.Names.{job_name};

use command_end::Status;
use fund_base::Memory;
use fund_outside::SureKeeper;
use packed_jobs::{PackFault, keep_packed, packed_in};
use std::alloc::Global;

/// What a command on bytes came to.
#[derive(Drop)]
pub struct Answer {
    /// Its status, which isn't [`Status::Memory`].
    pub status: Status,
    /// The bytes that it printed: a report, a listing, a summary or a fault line.
    pub printed: Vec<u8>,
    /// The bytes of the log that it wrote; none where it wrote none.
    pub log: Vec<u8>,
    /// Where the run is unfinished, the job to go on with, packed; otherwise none.
    pub job: Vec<u8>,
}

/// A keeper of the packed job, where one is given.
pub(crate) fn keeper_of(alloc: Global, job: Option<&[u8]>) -> Result<SureKeeper, PackFault>
    ensures kept { IfOk result (λ keeper. IsKeptIn (plain_job job.entry) (view_of keeper).jobs) }
    ensures refused { OnErr result (result ≢ Err faults.Memory → IsNoJob (plain_job job.entry)) }
{
    let mut keeper = SureKeeper::new(alloc);
    if let Some(bytes) = job {
        keep_packed(alloc, &mut keeper, "job", bytes)?;
    }
    Ok(keeper)
}

/// The packed job of a run that ended with this status; none where it isn't unfinished.
fn job_after(alloc: Global, status: Status, keeper: &mut SureKeeper) -> Result<Vec<u8>, Memory>
    ensures kept { status ≡ Status.Unfinished → IfOk result (λ job. job.items ≡ packed_if ((view_of keeper.old).jobs job_name)) }
    ensures none { status ≢ Status.Unfinished → IfOk result (λ job. job.items ≡ []) }
    ensures remembered { OnOk result (status ≢ Status.Memory) }
{
    match status {
        Status::Unfinished => packed_in(alloc, keeper, "job"),
        Status::Memory => Err(Memory),
        _ => Ok(Vec::new(alloc)),
    }
}

/// The answer of this status, with these bytes printed, this log, and of an unfinished run the job that is kept. It refuses only
/// when out of memory, be it that the run was.
pub(crate) fn answer_of(
    alloc: Global,
    status: Status,
    printed: &[u8],
    log: &[u8],
    keeper: &mut SureKeeper,
) -> Result<Answer, Memory>
    ensures status { IfOk result (λ a. a.status ≡ status) }
    ensures printed { IfOk result (λ a. a.printed.items ≡ printed.now) }
    ensures log { IfOk result (λ a. a.log.items ≡ log.now) }
    ensures kept { status ≡ Status.Unfinished → IfOk result (λ a. a.job.items ≡ packed_if ((view_of keeper.old).jobs job_name)) }
    ensures none { status ≢ Status.Unfinished → IfOk result (λ a. a.job.items ≡ []) }
    ensures remembered { OnOk result (status ≢ Status.Memory) }
{
    let job = job_after(alloc, status, keeper)?;
    let printed = Vec::from_slice(alloc, printed)?;
    let log = Vec::from_slice(alloc, log)?;
    Ok(Answer {
        status,
        printed,
        log,
        job,
    })
}
