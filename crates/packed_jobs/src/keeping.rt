//! A packed job put into a keeper in memory, and taken out of it.

ghost use Rattle.std.specs.Prelude.{◌≡◌, ◌≢◌, Some, Err, length, IfOk, OnOk, OnErr, option_map};
ghost use Rattle.fund_outside.specs.Jobs.{bytes_of_each};
ghost use Rattle.fund_outside.specs.Kept.{parts_in};
ghost use Rattle.fund_outside.specs.SureKeeper.{view_of};
ghost use Rattle.packed_jobs.specs.declared.fault.PackFault.TheVariants as faults;
ghost use Rattle.packed_jobs.specs.Job.{kept_of};
ghost use Rattle.packed_jobs.specs.Packed.{HasParts, IsPackedIn, IsPackedJob, packed_if};

use crate::fault::PackFault;
use crate::job::Job;
use crate::reading::read_job;
use crate::writing::write_job;
use fund_base::Memory;
use fund_outside::{Keeper, SureKeeper};
use std::alloc::Global;

/// Keeps a job under a name, in place of what was kept under it. It refuses only when out of memory; then some first parts may
/// be kept.
fn keep_job(keeper: &mut SureKeeper, name: &str, job: &Job) -> Result<(), Memory>
    requires { HasParts (length job.now.parts.items) }
    ensures { OnOk result ((view_of keeper.new).jobs name.now ≡ Some (kept_of job.now)) }
{
    for (number, part) in job.parts.as_slice().iter().enumerate() {
        let kept = keeper.save(name, number as u32, part.as_slice(), job.saved.as_slice());
        if kept.is_err() {
            return Err(Memory);
        }
    }
    Ok(())
}

/// Keeps the job of which these bytes are the packed form, in place of what was kept under its name. Bytes that are no packed job
/// are refused before anything is kept. When out of memory, some first parts of the job may be kept.
pub fn keep_packed(
    alloc: Global,
    keeper: &mut SureKeeper,
    name: &str,
    bytes: &[u8],
) -> Result<(), PackFault>
    ensures kept { OnOk result (IsPackedIn bytes.now ((view_of keeper.new).jobs name.now)) }
    ensures refused { OnErr result (result ≢ Err faults.Memory → IsPackedJob bytes.now → ⊥) }
{
    let job = read_job(alloc, bytes)?;
    match keep_job(keeper, name, &job) {
        Ok(()) => Ok(()),
        Err(_) => Err(PackFault::Memory),
    }
}

/// The parts of the job of this name.
fn kept_parts(alloc: Global, keeper: &mut SureKeeper, name: &str) -> Result<Vec<Vec<u8>>, Memory>
    ensures { IfOk result (λ parts. bytes_of_each parts.items ≡ parts_in ((view_of keeper.old).jobs name.now)) }
{
    let mut parts = Vec::new(alloc);
    for number in 0..4_294_967_295 {
        match keeper.part(name, number) {
            Ok(Some(part)) => parts.push(part)?,
            Ok(None) => return Ok(parts),
            Err(_) => return Err(Memory),
        }
    }
    Err(Memory)
}

/// The job of this name, where one is kept.
fn kept_job(alloc: Global, keeper: &mut SureKeeper, name: &str) -> Result<Option<Job>, Memory>
    ensures { IfOk result (λ job. option_map kept_of job ≡ (view_of keeper.old).jobs name.now) }
{
    match keeper.load(name) {
        Ok(Some(saved)) => {
            let parts = kept_parts(alloc, keeper, name)?;
            Ok(Some(Job { saved, parts }))
        }
        Ok(None) => Ok(None),
        Err(_) => Err(Memory),
    }
}

/// The packed form of the job of this name; no bytes where none is kept. It refuses only when out of memory, or when the job has
/// more than 4,294,967,294 parts, which no memory holds.
pub fn packed_in(alloc: Global, keeper: &mut SureKeeper, name: &str) -> Result<Vec<u8>, Memory>
    ensures { IfOk result (λ bytes. bytes.items ≡ packed_if ((view_of keeper.old).jobs name.now)) }
{
    match kept_job(alloc, keeper, name) {
        Ok(Some(job)) => write_job(alloc, &job),
        Ok(None) => Ok(Vec::new(alloc)),
        Err(_) => Err(Memory),
    }
}
