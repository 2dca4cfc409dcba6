//! How a request ends that is gone on with from a kept job.

ghost use Rattle.std.specs.Prelude.{◌≡◌, ◌≢◌, ◌≤◌, Err, IfErr, IfOk, IsErrOf, None};
ghost use Rattle.fund_shelf.specs.Causes.{OnlyReads, Rose};
ghost use Rattle.fund_files.specs.Chain.{IsChain};
ghost use Rattle.fund_files.specs.declared.refusal.File.{File};
ghost use Rattle.command_end.specs.Names.{plain_sources};
ghost use Rattle.command_inputs.specs.Outcome.{bump_fault_in};
ghost use Rattle.command_inputs.specs.Inputs.{AsksInOrder, NoneBehind};
ghost use Rattle.command_inputs.specs.Names.{plain_payment};
ghost use Rattle.command_inputs.specs.Stops as payments;
ghost use Rattle.kept_job.specs.Refused.{IsNotResumed};
ghost use Rattle.command_resume.specs.Endings.{IsEnded};
ghost use Rattle.command_resume.specs.Ready.{HasEnded, IsPlanned, IsReady};
ghost use Rattle.command_resume.specs.Stops.{StopsFor};

use crate::stop::Stop;
use command_end::Sources;
use command_inputs::{
    Ending, Inputs, Payment, Stop as FundStop, ends, new_plan, read_inputs_with_digest,
};
use fund_files::Chain;
use fund_outside::Keeper;
use fund_plan::Plan;
use fund_shelf::Shelf;
use kept_job::{Behind, KeptFault, Resumed};
use request_text::Request;
use std::alloc::Global;

/// What is known of the job from which a run went on.
#[derive(Drop)]
pub struct LoadedJob {
    /// The SHA-256 of what the job is made from.
    pub digest: [u8; 32],
    /// What is kept of its log already.
    pub behind: Behind,
}

/// The files of a command, read: what is asked, the plan of it, and the digest of its job.
#[derive(Drop)]
struct Ready {
    held: Chain,
    request: Request,
    plan: Plan,
    digest: [u8; 32],
}

/// What is read of the files of a command: its request, with the plan, and the digest of its job, from the same bytes.
fn prepare<H: Shelf>(
    alloc: Global,
    sources: &Sources,
    payment: &Payment,
    shelf: &mut H,
) -> Result<Ready, FundStop>
    ensures ready { IfOk result (IsReady H.tells (H.view shelf.old).files (plain_sources sources.now) (plain_payment payment.now)) }
    ensures frame { OnlyReads H.tells (H.view shelf.old) (H.view shelf.new) }
    ensures stop { IfErr result (payments.StopsFor H.tells (plain_sources sources.now) (plain_payment payment.now) (H.view shelf.old) (H.view shelf.new)) }
    ensures asked { H.tells → AsksInOrder (plain_sources sources.now) (plain_payment payment.now) (H.view shelf.old) (H.view shelf.new) }
    ensures none_behind { H.tells → NoneBehind (plain_sources sources.now) (H.view shelf.old) (H.view shelf.new) }
    ensures all_read { ((file : File) → result ≢ Err (FundStop.Read file)) → (H.view shelf.new).reads ≡ (H.view shelf.old).reads }
{
    let (inputs, digest) = read_inputs_with_digest(alloc, sources, payment, shelf)?;
    let Inputs {
        held,
        request,
        terms,
    } = inputs;
    let plan = new_plan(alloc, &held, &request, terms)?;
    plan.keeps_rules();
    plan.keeps_steps();
    Ok(Ready {
        held,
        request,
        plan,
        digest,
    })
}

/// How a request ends whose files are read: its plan goes on from the job with the request's tries.
fn run_on<K: Keeper>(
    alloc: Global,
    ready: Ready,
    keeper: &mut K,
    job: &str,
) -> Result<Ending<LoadedJob>, KeptFault>
    requires held { IsChain ready.held }
    requires taken { bump_fault_in ready.held ready.request ≡ None }
    requires plan { IsPlanned ready }
    ensures ends { IfOk result (HasEnded K.tells ready ((K.view keeper.old).jobs job.now)) }
    ensures fault { K.tells → IfErr result (IsNotResumed ready.plan.plan ready.digest ((K.view keeper.old).jobs job.now) ready.request.tries) }
    ensures cause { IsErrOf result KeptFault.Failed → Rose (K.view keeper.old).faults (K.view keeper.new).faults }
    ensures unfailed { result ≢ Err KeptFault.Failed → (K.view keeper.new).faults ≡ (K.view keeper.old).faults }
    ensures jobs { K.tells → (K.view keeper.new).jobs ≡ (K.view keeper.old).jobs }
    ensures faults { (K.view keeper.old).faults ≤ (K.view keeper.new).faults }
{
    let Ready {
        held,
        request,
        mut plan,
        digest,
    } = ready;
    let resumed = kept_job::resume(alloc, &mut plan, keeper, job, &digest, request.tries)?;
    let Resumed { outcome, behind } = resumed;
    held.book.keeps_rules();
    let loaded = LoadedJob { digest, behind };
    let ending = ends(alloc, &held, &request, plan, outcome, loaded)?;
    Ok(ending)
}

/// How a request ends whose files are read and whose job is loaded: its plan goes on from the job with the request's tries.
pub fn go_on<H: Shelf, K: Keeper>(
    alloc: Global,
    sources: &Sources,
    payment: &Payment,
    job: &str,
    shelf: &mut H,
    keeper: &mut K,
) -> Result<Ending<LoadedJob>, Stop>
    ensures ends { IfOk result (IsEnded H.tells K.tells (H.view shelf.old).files (plain_sources sources.now) (plain_payment payment.now) ((K.view keeper.old).jobs job.now)) }
    ensures frame { OnlyReads H.tells (H.view shelf.old) (H.view shelf.new) }
    ensures stop { IfErr result (StopsFor H.tells K.tells (plain_sources sources.now) (plain_payment payment.now) job.now (H.view shelf.old) (H.view shelf.new) (K.view keeper.old) (K.view keeper.new)) }
    ensures asked { H.tells → AsksInOrder (plain_sources sources.now) (plain_payment payment.now) (H.view shelf.old) (H.view shelf.new) }
    ensures none_behind { H.tells → NoneBehind (plain_sources sources.now) (H.view shelf.old) (H.view shelf.new) }
    ensures all_read { ((file : File) → result ≢ Err (Stop.Funding (FundStop.Read file))) → (H.view shelf.new).reads ≡ (H.view shelf.old).reads }
    ensures jobs { K.tells → (K.view keeper.new).jobs ≡ (K.view keeper.old).jobs }
    ensures unfailed { result ≢ Err (Stop.Kept KeptFault.Failed) → (K.view keeper.new).faults ≡ (K.view keeper.old).faults }
    ensures faults { (K.view keeper.old).faults ≤ (K.view keeper.new).faults }
{
    let ready = prepare(alloc, sources, payment, shelf)?;
    let ending = run_on(alloc, ready, keeper, job)?;
    Ok(ending)
}
