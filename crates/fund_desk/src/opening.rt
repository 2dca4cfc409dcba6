//! The plan of a job that is opened.

ghost use Rattle.std.specs.Prelude.{◌≡◌, ◌≢◌, IfErr, IfOk, MatchResult, None, OnErr, OnOk, Result, Some, Ok, Err};
ghost use Rattle.fund_files.specs.Chain.{IsChain};
ghost use Rattle.fund_plan.specs.Outcome.{beginning_of};
ghost use Rattle.fund_steps.specs.Faults.{fault_of};
ghost use Rattle.desk_machine.specs.Machine.{plan_by, plan_for, plan_in};
ghost use Rattle.fund_desk.specs.Opening.{IsMade};
ghost use Rattle.desk_machine.specs.Replies.{plain_refusal};
ghost use Rattle.desk_machine.specs.State.{desk_of};
ghost use Rattle.desk_machine.specs.declared.reply.Refusal.TheVariants as refusals;
ghost use Rattle.request_text.specs.PlainRequest.{PlainRequest};
ghost use Rattle.request_text.specs.Reported.{Reads, plain_fault};
ghost use Rattle.request_text.specs.declared.fault.Refusal as requests;

use crate::payments::{Committed, keep_free};
use desk_machine::Refusal;
use fund_base::Memory;
use fund_files::WholeChain;
use fund_plan::Plan;
use fund_steps::{PlanFault, faults_are_found};
use request_text::{Request, RequestFault, read_request};
use std::alloc::Global;

/// A request, and its plan, of which no try is made yet.
#[derive(Drop)]
pub struct Made {
    /// The request.
    pub request: Request,
    /// Its plan.
    pub plan: Plan,
}

/// The plan of a request that replaces no payment, from the coins that may be spent now, with their prices at its rate, but
/// for those of committed payments.
fn plan_of(
    alloc: Global,
    held: &WholeChain,
    committed: &[Committed],
    request: &Request,
) -> Result<Plan, PlanFault>
    requires held { IsChain held.now }
    requires bump { request.now.bump ≡ None }
    ensures plan { IfOk result (λ p. p.plan ≡ plan_in (desk_of held.now committed.now) request.now) }
    ensures stand { IfOk result (λ p. p.stand ≡ beginning_of p.plan) }
    ensures partial { IfOk result (λ p. p.partial ≡ None) }
    ensures fine { IfOk result (λ p. fault_of p.plan ≡ None) }
    ensures fault { IfErr result (λ e. e ≢ PlanFault.Memory → fault_of (plan_in (desk_of held.now committed.now) request.now) ≡ Some e) }
{
    faults_are_found();
    request.keeps_rules();
    let (_, mut coins) = held.states_and_coins(alloc, request.rate)?;
    keep_free(alloc, committed, &mut coins)?;
    match Plan::new(alloc, request, &held.wallet.change, coins, None) {
        Ok(plan) => {
            plan.keeps_rules();
            Ok(plan)
        }
        Err(fault) => Err(fault),
    }
}

/// The refusal of a request whose plan has this fault. The error is out of memory, and comes where the fault is that. It
/// takes no memory.
fn plan_refusal(fault: PlanFault) -> Result<Refusal, Memory>
    ensures refusal { IfOk result (λ r. r ≡ refusals.Plan fault) }
    ensures other { OnOk result (fault ≢ PlanFault.Memory) }
    ensures memory { OnErr result (fault ≡ PlanFault.Memory) }
{
    match fault {
        PlanFault::Memory => Err(Memory),
        fault => Ok(Refusal::Plan(fault)),
    }
}

/// A request that was read, and its plan; or why there is none. The error is out of memory, which comes of no request that
/// replaces a payment.
fn made_of(
    alloc: Global,
    held: &WholeChain,
    committed: &[Committed],
    request: Request,
) -> Result<Result<Made, Refusal>, Memory>
    requires held { IsChain held.now }
    ensures made { IfOk result (λ r. MatchResult r (IsMade (plan_by (desk_of held.now committed.now) (Ok request))) (λ refusal. plan_by (desk_of held.now committed.now) (Ok request) ≡ Err (plain_refusal refusal))) }
    ensures memory { OnErr result (request.bump ≡ None) }
{
    if request.bump.is_some() {
        return Ok(Err(Refusal::Bump));
    }
    match plan_of(alloc, held, committed, &request) {
        Ok(plan) => Ok(Ok(Made { request, plan })),
        Err(fault) => match plan_refusal(fault) {
            Ok(refusal) => Ok(Err(refusal)),
            Err(memory) => Err(memory),
        },
    }
}

/// The refusal of a request with this fault. The error is out of memory, and comes where the fault is that. It takes no
/// memory.
fn request_refusal(fault: RequestFault) -> Result<Refusal, Memory>
    ensures refusal { IfOk result (λ r. r ≡ refusals.Request fault) }
    ensures other { OnOk result ((read : Result PlainRequest requests.Refusal) → Reads (Err fault) read → read ≡ Err (plain_fault fault)) }
    ensures memory { OnErr result (fault ≡ RequestFault.Memory) }
{
    match fault {
        RequestFault::Memory => Err(Memory),
        fault => Ok(Refusal::Request(fault)),
    }
}

/// The request of a file of these bytes, and its plan; or why there is none. The error is out of memory.
pub fn make(
    alloc: Global,
    held: &WholeChain,
    committed: &[Committed],
    bytes: &[u8],
) -> Result<Result<Made, Refusal>, Memory>
    requires held { IsChain held.now }
    ensures made { IfOk result (λ r. MatchResult r (IsMade (plan_for (desk_of held.now committed.now) bytes.now)) (λ refusal. plan_for (desk_of held.now committed.now) bytes.now ≡ Err (plain_refusal refusal))) }
{
    match read_request(alloc, bytes) {
        Ok(request) => made_of(alloc, held, committed, request),
        Err(fault) => match request_refusal(fault) {
            Ok(refusal) => Ok(Err(refusal)),
            Err(memory) => Err(memory),
        },
    }
}
