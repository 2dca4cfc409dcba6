//! The command.

ghost use Rattle.std.specs.Prelude.{◌≡◌, ◌≢◌, ◌≤◌, Some};
ghost use Rattle.fund_shelf.specs.Causes.{CountsNeverFall, NeverFall, SameElsewhere};
ghost use Rattle.command_end.specs.Names.{plain_sources};
ghost use Rattle.command_end.specs.Printed.{TellsWhole, TookAll};
ghost use Rattle.command_inputs.specs.Failures.{TellsEachFailure};
ghost use Rattle.command_inputs.specs.Inputs.{AsksFiles};
ghost use Rattle.command_inputs.specs.Jobs.{KeepsJobs};
ghost use Rattle.command_inputs.specs.Names.{plain_payment};
ghost use Rattle.command_inputs.specs.Results.{IsBeforeTheLog};
ghost use Rattle.command_resume.specs.Endings.{CanBeLeft};
ghost use Rattle.command_resume.specs.Leaving.{HasLeft};
ghost use Rattle.command_resume.specs.Statuses.{Ends};

use crate::answer::answer;
use crate::resuming::{LoadedJob, go_on};
use command_end::{Sources, Status, finish, out_of_memory, put_report, refuse_keep};
use command_inputs::{Ending, Left, Payment};
use fund_outside::{KeepFault, Keeper};
use fund_shelf::{Shelf, Sink};
use kept_job::keep;
use std::alloc::Global;

/// Keeps a run that is unfinished behind what is kept of its log, and then prints its report, which was made before.
fn leave<O: Sink, K: Keeper>(
    alloc: Global,
    job: &str,
    left: &Left<LoadedJob>,
    out: &mut O,
    keeper: &mut K,
) -> Status
    requires { CanBeLeft left.now }
    ensures left { HasLeft O.tells K.tells job.now left.now (O.view out.old) (O.view out.new) (K.view keeper.old) (K.view keeper.new) result }
    ensures jobs { K.tells → KeepsJobs (Some job.now) result (K.view keeper.old) (K.view keeper.new) }
    ensures all_put { TellsWhole result → TookAll (O.view out.old) (O.view out.new) }
    ensures counts { CountsNeverFall (O.view out.old) (O.view out.new) }
    ensures unfailed { result ≢ Status.KeepFault → (K.view keeper.new).faults ≡ (K.view keeper.old).faults }
    ensures faults { (K.view keeper.old).faults ≤ (K.view keeper.new).faults }
{
    let loaded = &left.job;
    match keep(
        alloc,
        keeper,
        job,
        loaded.digest,
        &left.plan,
        &loaded.behind,
    ) {
        Ok(()) => put_report(&left.report, Status::Unfinished, out),
        Err(KeepFault::Failed) => refuse_keep(out),
        Err(KeepFault::Memory) => out_of_memory(out),
    }
}

/// Goes on with a kept job: it reads the three files and the job, goes on with the request's tries, of which all runs of the
/// job together make at most 10,000,000, writes the log, and then prints the report to `out`. Before it says exhausted, drawn
/// or none, the whole log was accepted, the parts from before among it. Where the run is unfinished, it writes no log: it
/// keeps the bytes of the log that are new as one part more, and then prints the report, which is made before. A finished job
/// stays kept as it was. What is refused gets its fault line there: the files, their plan, and then the job.
///
/// The clauses on content hold where the shelf, the sink and the keeper tell theirs.
pub fn resume<H: Shelf, O: Sink, K: Keeper>(
    alloc: Global,
    sources: &Sources,
    payment: &Payment,
    job: &str,
    shelf: &mut H,
    out: &mut O,
    keeper: &mut K,
) -> Status
    // By the status: what was found in the files and in the job, what is in the log, what the sink has got, and what is kept.
    ensures ends { Ends H.tells O.tells K.tells (plain_sources sources.now) (plain_payment payment.now) job.now (H.view shelf.old) (H.view shelf.new) (O.view out.old) (O.view out.new) (K.view keeper.old) (K.view keeper.new) result }

    // What stays: every file but the log, and the log too before it is written; and every job, but for this one where it may
    // have been saved.
    ensures others { H.tells → SameElsewhere (plain_payment payment.now).log (H.view shelf.old).files (H.view shelf.new).files }
    ensures kept { H.tells → IsBeforeTheLog result → (H.view shelf.new).files ≡ (H.view shelf.old).files }
    ensures jobs { K.tells → KeepsJobs (Some job.now) result (K.view keeper.old) (K.view keeper.new) }

    // It asks for the wallet file, then for the block file, then for the request, and for no other name; the job's digest is
    // that of the bytes that were read. Behind a file that is refused it asks for none.
    ensures asks { AsksFiles H.tells (plain_sources sources.now) (plain_payment payment.now) (H.view shelf.old) (H.view shelf.new) }

    // A failed read, write of the log or keeper is told as that, and as nothing else. An output that failed or found no memory
    // is never told as success.
    ensures honest { TellsEachFailure (H.view shelf.old) (H.view shelf.new) (O.view out.old) (O.view out.new) (K.view keeper.old) (K.view keeper.new) result }

    // No count falls.
    ensures reads { NeverFall (H.view shelf.old).reads (H.view shelf.new).reads }
    ensures writes { NeverFall (H.view shelf.old).writes (H.view shelf.new).writes }
    ensures counts { CountsNeverFall (O.view out.old) (O.view out.new) }
    ensures faults { (K.view keeper.old).faults ≤ (K.view keeper.new).faults }
{
    match go_on(alloc, sources, payment, job, shelf, keeper) {
        Ok(Ending::Unfinished(left)) => leave(alloc, job, &left, out, keeper),
        Ok(Ending::NoSelection(texts)) => {
            finish(
                payment.log,
                &texts.log,
                &texts.report,
                Status::NoSelection,
                shelf,
                out,
            )
        }
        Ok(Ending::Funded(texts)) => {
            finish(
                payment.log,
                &texts.log,
                &texts.report,
                Status::Done,
                shelf,
                out,
            )
        }
        Err(stop) => answer(sources, payment, stop, out),
    }
}
