//! Writing a packed job.

ghost use Rattle.std.specs.Prelude.{◌≡◌, IfOk, OnOk};
ghost use Rattle.fund_base.specs.CompactSize.{counted, prefixed};
ghost use Rattle.fund_base.specs.Writer.{Feeds};
ghost use Rattle.fund_outside.specs.Jobs.{bytes_of_each};
ghost use Rattle.packed_jobs.specs.Job.{kept_of};
ghost use Rattle.packed_jobs.specs.Packed.{packed};

use crate::job::Job;
use fund_base::{Memory, Writer, write_compact, write_prefixed};
use std::alloc::Global;

/// The number of parts, and each after its length.
fn write_parts<W: Writer>(out: &mut W, parts: &[Vec<u8>]) -> Result<(), W::Error>
    ensures { OnOk result (Feeds W.holds out.old out.new (counted prefixed (bytes_of_each parts.now))) }
{
    write_compact(out, parts.len() as u64)?;
    for part in parts {
        write_prefixed(out, part.as_slice())?;
    }
    Ok(())
}

/// The saved text after its length, and the parts.
fn write_whole<W: Writer>(out: &mut W, job: &Job) -> Result<(), W::Error>
    ensures { OnOk result (Feeds W.holds out.old out.new (packed (kept_of job.now))) }
{
    write_prefixed(out, job.saved.as_slice())?;
    write_parts(out, job.parts.as_slice())
}

/// The packed form of a job. It refuses only when out of memory.
pub fn write_job(alloc: Global, job: &Job) -> Result<Vec<u8>, Memory>
    ensures { IfOk result (λ bytes. bytes.items ≡ packed (kept_of job.now)) }
{
    let mut bytes = Vec::new(alloc);
    write_whole(&mut bytes, job)?;
    Ok(bytes)
}
