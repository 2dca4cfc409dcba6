//! Jobs in memory, one entry for each name.

ghost use Rattle.std.specs.Prelude.{◌≡◌, ◌+◌, ◌++◌, ◌∷◌, [], length, option_map, option_copied, is_some, string_bytes, take, IfOk, OnOk, OnErr, if◌then◌else◌};
ghost use Rattle.std.specs.List.{position_from};
ghost use Rattle.fund_outside.specs.Jobs.{bytes_of_each, is_named, job_of, kept_of};
ghost use Rattle.fund_outside.specs.Kept.{SameForOthers, after_save, part_in, parts_in, saved_in, told_bytes};

use std::alloc::{AllocError, Global};

/// A kept job.
#[derive(Drop)]
pub(crate) struct Job {
    name: String,
    saved: Vec<u8>,
    parts: Vec<Vec<u8>>,
}

/// The first job of this name.
fn find<'a>(jobs: &'a [Job], name: &str) -> Option<&'a Job>
    ensures { option_map kept_of (option_copied result) ≡ job_of jobs.now name.now }
{
    let mut rest = jobs;
    'finding: while let [job, after @ ..] = rest {
        if job.name.as_str() == name {
            return Some(job);
        }
        rest = after;
    }
    None
}

/// The saved text of the job of this name.
pub(crate) fn saved(alloc: Global, jobs: &[Job], name: &str) -> Result<Option<Vec<u8>>, AllocError>
    ensures { IfOk result (λ found. told_bytes found ≡ saved_in (job_of jobs.now name.now)) }
{
    match find(jobs, name) {
        Some(job) => Ok(Some(Vec::from_slice(alloc, job.saved.as_slice())?)),
        None => Ok(None),
    }
}

/// The part of that number of the job of this name.
pub(crate) fn part(
    alloc: Global,
    jobs: &[Job],
    name: &str,
    number: u32,
) -> Result<Option<Vec<u8>>, AllocError>
    ensures { IfOk result (λ found. told_bytes found ≡ part_in (job_of jobs.now name.now) number) }
{
    let Some(job) = find(jobs, name) else {
        return Ok(None);
    };
    match job.parts.get(number as usize) {
        Some(part) => Ok(Some(Vec::from_slice(alloc, part.as_slice())?)),
        None => Ok(None),
    }
}

/// A copy of each part.
#[tactic(auto, using(crate::proofs::JobLaws::pushed))]
fn copy_parts(alloc: Global, parts: &[Vec<u8>]) -> Result<Vec<Vec<u8>>, AllocError>
    ensures { IfOk result (λ copy. bytes_of_each copy.items ≡ bytes_of_each parts.now) }
{
    let mut copy = Vec::new(alloc);
    'copying: for part in parts {
        copy.push(Vec::from_slice(alloc, part.as_slice())?)?;
    }
    Ok(copy)
}

/// A copy of the first parts, at most so many, of the job of this name.
#[tactic(auto, using(crate::proofs::JobLaws::first_of_each))]
fn first_parts(
    alloc: Global,
    jobs: &[Job],
    name: &str,
    first: u32,
) -> Result<Vec<Vec<u8>>, AllocError>
    ensures { IfOk result (λ copy. bytes_of_each copy.items ≡ take first (parts_in (job_of jobs.now name.now))) }
{
    match find(jobs, name) {
        Some(job) => {
            let count = (first as usize).min(job.parts.len());
            copy_parts(alloc, &job.parts.as_slice()[..count])
        }
        None => Ok(Vec::new(alloc)),
    }
}

/// The job of this name as it is to be kept.
#[tactic(auto, using(crate::proofs::JobLaws::pushed))]
fn saved_job(
    alloc: Global,
    jobs: &[Job],
    name: &str,
    first: u32,
    part: &[u8],
    saved: &[u8],
) -> Result<Job, AllocError>
    ensures name { IfOk result (λ job. string_bytes job.name ≡ name.now) }
    ensures saved { IfOk result (λ job. job.saved.items ≡ saved.now) }
    ensures parts { IfOk result (λ job. bytes_of_each job.parts.items ≡ take first (parts_in (job_of jobs.now name.now)) ++ part.now ∷ []) }
{
    let mut parts = first_parts(alloc, jobs, name, first)?;
    parts.push(Vec::from_slice(alloc, part)?)?;
    Ok(Job {
        name: String::from_str(alloc, name)?,
        saved: Vec::from_slice(alloc, saved)?,
        parts,
    })
}

/// The place of the first job of this name.
fn place_of(jobs: &[Job], name: &str) -> Option<usize>
    ensures { result ≡ position_from (is_named name.now) 0 jobs.now }
{
    jobs.iter().position(|job| job.name.as_str() == name)
}

/// Keeps a job in place of the one of its name, or as one more. Where memory is short the jobs are as before.
fn put(jobs: &mut Vec<Job>, name: &str, job: Job) -> Result<(), AllocError>
    requires { string_bytes job.name ≡ name.now }
    ensures ok { OnOk result (job_of jobs.new.items name.now ≡ job_of (job ∷ []) name.now) }
    ensures others { SameForOthers name.now (job_of jobs.old.items) (job_of jobs.new.items) }
    ensures err { OnErr result (jobs.new.items ≡ jobs.old.items) }
    ensures count { OnOk result (length jobs.new.items ≡ (if is_some (job_of jobs.old.items name.now) then length jobs.old.items else length jobs.old.items + 1)) }
{
    match place_of(jobs.as_slice(), name) {
        Some(place) => jobs[place] = job,
        None => jobs.push(job)?,
    }
    Ok(())
}

/// Keeps the first parts of the job of this name, at most so many, with one more behind them, and its saved text. Where
/// memory is short the jobs are as before.
pub(crate) fn save(
    alloc: Global,
    jobs: &mut Vec<Job>,
    name: &str,
    first: u32,
    part: &[u8],
    saved: &[u8],
) -> Result<(), AllocError>
    ensures ok { OnOk result (job_of jobs.new.items name.now ≡ after_save (job_of jobs.old.items name.now) first part.now saved.now) }
    ensures others { SameForOthers name.now (job_of jobs.old.items) (job_of jobs.new.items) }
    ensures err { OnErr result (jobs.new.items ≡ jobs.old.items) }
    ensures count { OnOk result (length jobs.new.items ≡ (if is_some (job_of jobs.old.items name.now) then length jobs.old.items else length jobs.old.items + 1)) }
{
    let job = saved_job(alloc, jobs.as_slice(), name, first, part, saved)?;
    put(jobs, name, job)
}
