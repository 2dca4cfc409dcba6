//! Reading a packed job, part by part: a count alone asks for no memory.

ghost use Rattle.std.specs.Prelude.{◌≡◌, ◌≢◌, ◌==◌, length, IfOk, OnErr, MatchResult, Ok, Err, if◌then◌else◌};
ghost use Rattle.fund_base.specs.Cursor.{IsBytes};
ghost use Rattle.fund_base.specs.Parsing.{Yields, YieldsAll, many_at, whole_of};
ghost use Rattle.fund_outside.specs.Jobs.{bytes_of_each};
ghost use Rattle.fund_outside.specs.Kept.{KeptJob};
ghost use Rattle.packed_jobs.specs.declared.fault.PackFault.TheVariants.{Memory, Trailing};
ghost use Rattle.packed_jobs.specs.Job.{kept_of};
ghost use Rattle.packed_jobs.specs.Packed.{IsPackable, IsPackedJob, item_at, job_at, packed, parts_at};

use crate::fault::PackFault;
use crate::job::Job;
use fund_base::Cursor;
use std::alloc::Global;

/// The most parts that a job can have.
const MOST_PARTS: u64 = 4_294_967_295;

/// A byte string after its length.
#[tactic(auto, unfolding(fund_base::specs::Parsing::string_at))]
fn string_of(alloc: Global, cursor: &mut Cursor) -> Result<Vec<u8>, PackFault>
    ensures { Yields Memory (λ v. v.items) cursor.new result (item_at cursor.old) }
{
    let len = cursor.compact()?;
    let bytes = cursor.take(len)?;
    Ok(Vec::from_slice(alloc, bytes)?)
}

/// So many byte strings.
fn items_of(alloc: Global, count: u64, cursor: &mut Cursor) -> Result<Vec<Vec<u8>>, PackFault>
    ensures { Yields Memory (λ v. bytes_of_each v.items) cursor.new result (many_at item_at count cursor.old) }
{
    let mut items = Vec::new(alloc);
    for _ in 0..count {
        let item = string_of(alloc, cursor)?;
        items.push(item)?;
    }
    Ok(items)
}

/// Byte strings after their number.
#[tactic(auto, unfolding(crate::specs::Packed::parts_at))]
fn parts_of(alloc: Global, cursor: &mut Cursor) -> Result<Vec<Vec<u8>>, PackFault>
    ensures { Yields Memory (λ v. bytes_of_each v.items) cursor.new result (parts_at cursor.old) }
{
    let count = cursor.compact()?;
    if count == 0 || count > MOST_PARTS {
        return Err(PackFault::Parts);
    }
    items_of(alloc, count, cursor)
}

/// A saved text and parts.
#[tactic(auto, unfolding(crate::specs::Packed::job_at))]
fn job_of(alloc: Global, cursor: &mut Cursor) -> Result<Job, PackFault>
    ensures { Yields Memory kept_of cursor.new result (job_at cursor.old) }
{
    let saved = string_of(alloc, cursor)?;
    let parts = parts_of(alloc, cursor)?;
    Ok(Job { saved, parts })
}

/// That nothing is left. It never runs out of memory.
fn check_end(cursor: &Cursor) -> Result<(), PackFault>
    ensures { result ≡ (if length cursor.now.rest == 0 then Ok tt else Err (Trailing cursor.now.place)) }
{
    if cursor.rest().is_empty() {
        Ok(())
    } else {
        Err(PackFault::Trailing(cursor.place()))
    }
}

/// A job, and nothing after it.
fn whole_of(alloc: Global, bytes: &[u8]) -> Result<Job, PackFault>
    ensures exact { YieldsAll Memory kept_of result (whole_of Trailing (job_at (record { rest = bytes.now; place = 0 }))) }
    ensures bytes { IsBytes bytes.now }
{
    let mut cursor = Cursor::new(bytes);
    let job = job_of(alloc, &mut cursor)?;
    check_end(&cursor)?;
    Ok(job)
}

/// The job that the bytes are, all of them. Its saved text and its parts are copied, so the job takes as much memory as they are
/// long. Bytes that are no packed job are refused with the first fault in reading order.
pub fn read_job(alloc: Global, bytes: &[u8]) -> Result<Job, PackFault>
    // What is read is packed into these bytes, and each packed job is read, memory aside.
    ensures found { IfOk result (λ job. IsPackable (kept_of job) × (bytes.now ≡ packed (kept_of job))) }
    ensures only { (job : KeptJob) → IsPackable job → bytes.now ≡ packed job → MatchResult result (λ it. kept_of it ≡ job) (λ e. e ≡ Memory) }

    // Which fault it is; and one other than out of memory comes only of bytes that are no packed job.
    ensures exact { YieldsAll Memory kept_of result (whole_of Trailing (job_at (record { rest = bytes.now; place = 0 }))) }
    ensures refused { OnErr result (result ≢ Err Memory → IsPackedJob bytes.now → ⊥) }
{
    whole_of(alloc, bytes)
}
