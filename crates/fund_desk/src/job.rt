//! Open jobs.

ghost use Rattle.std.specs.Prelude.{◌≡◌, All, IfOk, OnErr, OnOk, Some, None, length, nat_le, option_copied, position};
ghost use Rattle.fund_plan.specs.Outcome.{beginning_of};
ghost use Rattle.wallet_text.specs.declared.wallet.Watch.{Watch};
ghost use Rattle.desk_machine.specs.Does.{IsLagging, LeavesJobs};
ghost use Rattle.desk_machine.specs.Machine.{funded_of, jobs_in, reply_in};
ghost use Rattle.desk_machine.specs.Replies.{plain_reply};
ghost use Rattle.desk_machine.specs.Rules.{IsAnswered, IsJob};
ghost use Rattle.desk_machine.specs.State.{Job, has_job, is_named, job_at, new_job, without_job};
ghost use Rattle.desk_machine.specs.Turns.{by_outcome, is_unfinished, turn_reply, turned};

use desk_machine::Reply;
use fund_base::{MOST_TRIES, Memory};
use fund_plan::{Funded, Outcome, Plan};
use request_text::Request;
use std::alloc::Global;
use std::marker::Model;

/// The greatest number of jobs that are open.
const MOST_JOBS: usize = 64;

/// A job: its name, what it pays, its plan where that stands, and what its last turn came to.
pub struct OpenJob {
    name: String,
    request: Request,
    plan: Plan,
    answer: Option<Outcome>,
}

/// One call, wherever it is dropped.
impl Drop for OpenJob {
    fn drop(self) {
        let OpenJob {
            name: _,
            request: _,
            plan: _,
            answer: _,
        } = self;
    }
}

impl Model for OpenJob {
    ghost use Rattle.std.specs.Prelude.{◌≡◌, string_bytes};
    ghost use Rattle.desk_machine.specs.Rules.{IsAnswered};
    ghost use Rattle.desk_machine.specs.State.{Job};

    ghost Value = { Job };

    ghost view = { λ j. record { name = string_bytes j.name; state = j.plan; answer = j.answer } };

    ghost invariant = { λ j. (j.request ≡ j.plan.plan.request) × IsAnswered (record { name = string_bytes j.name; state = j.plan; answer = j.answer }) };
}

/// Whether there is something to go on with.
fn is_unfinished(outcome: &Outcome) -> bool
    ensures { result ≡ is_unfinished outcome.now }
{
    match outcome {
        Outcome::Unfinished => true,
        Outcome::NoSelection | Outcome::Funded(_) => false,
    }
}

/// The reply to an outcome after so many tries.
fn reply_to(tries: u64, outcome: &Outcome) -> Reply
    ensures { plain_reply result ≡ by_outcome tries outcome.now }
{
    match outcome {
        Outcome::Unfinished => Reply::Unfinished(tries),
        Outcome::NoSelection => Reply::NoSelection(tries),
        Outcome::Funded(funded) => Reply::Funded(funded.mark, tries),
    }
}

/// The payment of an outcome, if it is one.
fn payment_in(outcome: &Outcome) -> Option<&Funded>
    ensures { option_copied result ≡ funded_of (Some outcome.now) }
{
    match outcome {
        Outcome::Funded(funded) => Some(funded),
        Outcome::NoSelection | Outcome::Unfinished => None,
    }
}

impl OpenJob {
    /// A job of this request and its plan, which had no turn yet. The error is out of memory.
    pub fn new(alloc: Global, name: &str, request: Request, plan: Plan) -> Result<OpenJob, Memory>
        requires request { request ≡ plan.plan.request }
        requires stand { plan.stand ≡ beginning_of plan.plan }
        requires partial { plan.partial ≡ None }
        ensures { IfOk result (λ j. j ≡ new_job name.now plan.plan) }
    {
        let name = String::from_str(alloc, name)?;
        Ok(OpenJob {
            name,
            request,
            plan,
            answer: None,
        })
    }

    /// That what its last turn came to, if that was a payment, is one of its plan. A call does nothing.
    pub fn keeps_rules(&self)
        ensures { IsAnswered self.now }
    {
        let _ = &self.name;
    }

    /// Whether it has this name.
    pub fn is_named(&self, name: &str) -> bool
        ensures { result ≡ is_named name.now self.now }
    {
        name == self.name.as_str()
    }

    /// What it pays.
    pub fn request(&self) -> &Request
        ensures { result.now ≡ self.now.state.plan.request }
    {
        &self.request
    }

    /// The payment that its last turn came to, if it came to one.
    pub fn funded(&self) -> Option<&Funded>
        ensures { option_copied result ≡ funded_of self.now.answer }
    {
        match &self.answer {
            Some(outcome) => payment_in(outcome),
            None => None,
        }
    }

    /// Goes on by so many tries, of which all turns together make at most 10,000,000, and replies what the plan comes to. A
    /// job that is unfinished without a try left is spent. The error is out of memory: the plan then stands where some of
    /// the tries lead, and the last answer stays.
    pub fn turn(&mut self, tries: u64) -> Result<Reply, Memory>
        ensures reply { IfOk result (λ r. plain_reply r ≡ turn_reply self.old.state tries) }
        ensures next { OnOk result (self.new ≡ turned self.old tries) }
        ensures memory { OnErr result (IsLagging self.old tries self.new) }
        ensures plan { self.new.state.plan ≡ self.old.state.plan }
        ensures answered { IsAnswered self.new }
    {
        let is_last = self.plan.tries() >= MOST_TRIES;
        let outcome = self.plan.go(tries)?;
        if is_last && is_unfinished(&outcome) {
            return Ok(Reply::Spent);
        }
        let reply = reply_to(self.plan.tries(), &outcome);
        self.answer = Some(outcome);
        Ok(reply)
    }
}

/// Whether a job has this name.
fn is_named(job: &OpenJob, name: &str) -> bool
    ensures { result ≡ is_named name.now job.now }
{
    job.is_named(name)
}

/// Whether a job of this name is open.
pub fn has_job(jobs: &[OpenJob], name: &str) -> bool
    ensures { result ≡ has_job jobs.now name.now }
{
    jobs.iter().any(|job| is_named(job, name))
}

/// Whether as many jobs are open as may be.
pub fn is_full(jobs: &[OpenJob]) -> bool
    ensures { result ≡ nat_le 64 (length jobs.now) }
{
    jobs.len() >= MOST_JOBS
}

/// The job of this name.
pub fn job_in<'a>(jobs: &'a [OpenJob], name: &str) -> Option<&'a OpenJob>
    ensures { option_copied result ≡ job_at jobs.now name.now }
{
    jobs.iter().find(|job| is_named(job, name))
}

/// The place of the job of this name.
fn place_of(jobs: &[OpenJob], name: &str) -> Option<usize>
    ensures { result ≡ position (is_named name.now) jobs.now }
{
    jobs.iter().position(|job| is_named(job, name))
}

/// Closes the job of this name.
pub fn close(jobs: &mut Vec<OpenJob>, name: &str)
    ensures { jobs.new.items ≡ without_job name.now jobs.old.items }
{
    jobs.retain(|job| !is_named(job, name));
}

/// A turn of the job of this name. The error is out of memory.
pub fn turn(jobs: &mut Vec<OpenJob>, name: &str, tries: u64) -> Result<Reply, Memory>
    ensures reply { IfOk result (λ r. plain_reply r ≡ reply_in tries (job_at jobs.old.items name.now)) }
    ensures next { OnOk result (jobs.new.items ≡ jobs_in jobs.old.items name.now tries (job_at jobs.old.items name.now)) }
    ensures memory { OnErr result (LeavesJobs jobs.old.items name.now tries (job_at jobs.old.items name.now) jobs.new.items) }
    ensures open { OnErr result ((j : Job) × (job_at jobs.old.items name.now ≡ Some j)) }
    ensures each { (change : Watch) → All (IsJob change) jobs.old.items → All (IsJob change) jobs.new.items }
{
    match place_of(jobs, name) {
        Some(place) => {
            let job = &mut jobs[place];
            job.turn(tries)
        }
        None => Ok(Reply::NoJob),
    }
}
