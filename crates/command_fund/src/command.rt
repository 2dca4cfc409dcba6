//! The command.

ghost use Rattle.std.specs.Prelude.{◌≡◌, ◌≢◌, ◌≤◌, IfErr, IfOk};
ghost use Rattle.fund_shelf.specs.Causes.{CountsNeverFall, NeverFall, OnlyReads, SameElsewhere};
ghost use Rattle.fund_files.specs.declared.refusal.File.{File};
ghost use Rattle.kept_job.specs.SavingRules.{CanBeKept};
ghost use Rattle.command_end.specs.Names.{plain_sources};
ghost use Rattle.command_end.specs.Printed.{TellsWhole, TookAll};
ghost use Rattle.command_inputs.specs.Digest.{HasDigest};
ghost use Rattle.command_inputs.specs.Failures.{TellsEachFailure};
ghost use Rattle.command_inputs.specs.Inputs.{AsksFiles, AsksInOrder, NoneBehind};
ghost use Rattle.command_inputs.specs.Jobs.{KeepsJobs};
ghost use Rattle.command_fund.specs.Leaving.{HasLeft};
ghost use Rattle.command_inputs.specs.Names.{plain_job, plain_payment};
ghost use Rattle.command_inputs.specs.PlanEnds.{IsEnded};
ghost use Rattle.command_fund.specs.Statuses.{Ends};
ghost use Rattle.command_inputs.specs.Results.{IsBeforeTheLog};
ghost use Rattle.command_inputs.specs.Stops.{StopsFor};

use crate::leaving::keep_anew;
use command_end::{Sources, Status, finish, put_report};
use command_inputs::{Ending, Inputs, Left, Payment, Stop, answer, conclude, read_inputs_for};
use fund_outside::Keeper;
use fund_shelf::{Shelf, Sink};
use std::alloc::Global;

/// How a payment ends whose files are read, and the digest of its job, where one is named; or why the command stops.
fn outcome<H: Shelf>(
    alloc: Global,
    sources: &Sources,
    payment: &Payment,
    job: Option<&str>,
    shelf: &mut H,
) -> Result<(Ending<()>, Option<[u8; 32]>), Stop>
    ensures ends { IfOk result (λ r. IsEnded H.tells (H.view shelf.old).files (plain_sources sources.now) (plain_payment payment.now) r.0) }
    ensures digest { IfOk result (λ r. HasDigest H.tells (H.view shelf.old).files (plain_sources sources.now) (plain_payment payment.now) (plain_job job.entry) r.1) }
    ensures frame { OnlyReads H.tells (H.view shelf.old) (H.view shelf.new) }
    ensures stop { IfErr result (StopsFor H.tells (plain_sources sources.now) (plain_payment payment.now) (H.view shelf.old) (H.view shelf.new)) }
    ensures asked { H.tells → AsksInOrder (plain_sources sources.now) (plain_payment payment.now) (H.view shelf.old) (H.view shelf.new) }
    ensures none_behind { H.tells → NoneBehind (plain_sources sources.now) (H.view shelf.old) (H.view shelf.new) }
    ensures all_read { ((file : File) → result ≢ Err (Stop.Read file)) → (H.view shelf.new).reads ≡ (H.view shelf.old).reads }
{
    let (inputs, digest) = read_inputs_for(alloc, sources, payment, job, shelf)?;
    let Inputs {
        held,
        request,
        terms,
    } = inputs;
    let ending = conclude(alloc, &held, &request, terms)?;
    Ok((ending, digest))
}

/// Keeps a run that is unfinished where there is a job to keep it as, and then prints its report, which was made before.
fn leave<O: Sink, K: Keeper>(
    alloc: Global,
    sources: &Sources,
    payment: &Payment,
    job: Option<&str>,
    digest: Option<[u8; 32]>,
    left: &Left<()>,
    out: &mut O,
    keeper: &mut K,
) -> Status
    requires { CanBeKept left.now.plan 1 }
    ensures left { HasLeft O.tells K.tells (plain_job job.entry) digest left.now (O.view out.old) (O.view out.new) (K.view keeper.old) (K.view keeper.new) result }
    ensures jobs { K.tells → KeepsJobs (plain_job job.entry) result (K.view keeper.old) (K.view keeper.new) }
    ensures all_put { TellsWhole result → TookAll (O.view out.old) (O.view out.new) }
    ensures counts { CountsNeverFall (O.view out.old) (O.view out.new) }
    ensures unfailed { result ≢ Status.KeepFault → (K.view keeper.new).faults ≡ (K.view keeper.old).faults }
    ensures faults { (K.view keeper.old).faults ≤ (K.view keeper.new).faults }
{
    match keep_anew(alloc, job, digest, &left.plan, keeper) {
        Ok(()) => put_report(&left.report, Status::Unfinished, out),
        Err(stop) => answer(sources, payment, stop, out),
    }
}

/// Funds a payment with the request's tries: it reads the three files, writes the log, and then prints the report to `out`.
/// Where the run is unfinished, it writes no log: the tries are used up, a search is open, and nothing is taken. Where there
/// is a job, it then keeps the run as that, from its first part on, before it prints the report, which is made before; the
/// job's digest is that of the bytes that were read. A finished run keeps nothing. What is refused gets its fault line there.
///
/// Where the request names a payment to be replaced, the payment replaces that one by the rules of BIP 125, or the request is
/// refused.
///
/// The clauses on content hold where the shelf, the sink and the keeper tell theirs.
pub fn fund<H: Shelf, O: Sink, K: Keeper>(
    alloc: Global,
    sources: &Sources,
    payment: &Payment,
    job: Option<&str>,
    shelf: &mut H,
    out: &mut O,
    keeper: &mut K,
) -> Status
    // By the status: what was found in the files, what is in the log, what the sink has got, and what is kept.
    ensures ends { Ends H.tells O.tells K.tells (plain_sources sources.now) (plain_payment payment.now) (plain_job job.entry) (H.view shelf.old) (H.view shelf.new) (O.view out.old) (O.view out.new) (K.view keeper.old) (K.view keeper.new) result }

    // What stays: every file but the log, and the log too before it is written; and every job, but for this one where it may
    // have been saved.
    ensures others { H.tells → SameElsewhere (plain_payment payment.now).log (H.view shelf.old).files (H.view shelf.new).files }
    ensures kept { H.tells → IsBeforeTheLog result → (H.view shelf.new).files ≡ (H.view shelf.old).files }
    ensures jobs { K.tells → KeepsJobs (plain_job job.entry) result (K.view keeper.old) (K.view keeper.new) }

    // It asks for the wallet file, then for the block file, then for the request, with a job and without; and for no other
    // name. Behind a file that is refused it asks for none.
    ensures asks { AsksFiles H.tells (plain_sources sources.now) (plain_payment payment.now) (H.view shelf.old) (H.view shelf.new) }

    // A failed read, write of the log or keeper is told as that, and as nothing else. An output that failed or found no memory
    // is never told as success.
    ensures honest { TellsEachFailure (H.view shelf.old) (H.view shelf.new) (O.view out.old) (O.view out.new) (K.view keeper.old) (K.view keeper.new) result }

    // No count falls.
    ensures reads { NeverFall (H.view shelf.old).reads (H.view shelf.new).reads }
    ensures writes { NeverFall (H.view shelf.old).writes (H.view shelf.new).writes }
    ensures counts { CountsNeverFall (O.view out.old) (O.view out.new) }
    ensures faults { (K.view keeper.old).faults ≤ (K.view keeper.new).faults }
{
    let (ending, digest) = match outcome(alloc, sources, payment, job, shelf) {
        Ok(read) => read,
        Err(stop) => return answer(sources, payment, stop, out),
    };
    match ending {
        Ending::Unfinished(left) => {
            leave(alloc, sources, payment, job, digest, &left, out, keeper)
        }
        Ending::NoSelection(texts) => {
            finish(
                payment.log,
                &texts.log,
                &texts.report,
                Status::NoSelection,
                shelf,
                out,
            )
        }
        Ending::Funded(texts) => {
            finish(
                payment.log,
                &texts.log,
                &texts.report,
                Status::Done,
                shelf,
                out,
            )
        }
    }
}
