//! The fault line of what stops a payment.

ghost use Rattle.std.specs.Prelude.{◌≡◌};
ghost use Rattle.fund_shelf.specs.Causes.{CountsNeverFall};
ghost use Rattle.command_end.specs.AnswerLines.{IsAnswered};
ghost use Rattle.command_end.specs.Lines.{GotLine, fault_line};
ghost use Rattle.command_end.specs.Names.{plain_sources};
ghost use Rattle.command_end.specs.Words.{bump_fault_words, plan_fault_words};
ghost use Rattle.command_inputs.specs.Cause.{cause_of, status_of_cause, status_of_plan};
ghost use Rattle.command_inputs.specs.Inputs.{name_of};
ghost use Rattle.command_inputs.specs.Names.{plain_payment};
ghost use Rattle.command_inputs.specs.Words.{IsStopped, refusal_words, stop_status, stop_words};

use crate::names::Payment;
use crate::refusal::{Refusal, Stop};
use command_end::{
    Sources, Status, bump_fault_parts, out_of_memory, plan_fault_parts, put_fault, refuse_file,
    refuse_keep, refuse_read,
};
use fee_bump::BumpFault;
use fund_files::File;
use fund_shelf::Sink;
use fund_steps::PlanFault;

/// The status of a plan's fault.
fn plan_status(fault: &PlanFault) -> Status
    ensures { result ≡ status_of_plan fault.now }
{
    match fault {
        PlanFault::TooMany(_, _) => Status::Limit,
        _ => Status::Input,
    }
}

/// Puts the line of a payment that isn't replaced.
fn refuse_bump<O: Sink>(fault: &BumpFault, out: &mut O) -> Status
    ensures is { result ≡ Status.Input }
    ensures line { O.tells → GotLine (fault_line (bump_fault_words fault.now)) (O.view out.old) (O.view out.new) }
    ensures answered { IsAnswered O.tells (bump_fault_words fault.now) Status.Input (O.view out.old) (O.view out.new) result }
    ensures counts { CountsNeverFall (O.view out.old) (O.view out.new) }
{
    put_fault(&bump_fault_parts(fault), Status::Input, out)
}

/// Puts the line of a plan that isn't made.
fn refuse_plan<O: Sink>(fault: &PlanFault, out: &mut O) -> Status
    ensures is { result ≡ status_of_plan fault.now }
    ensures line { O.tells → GotLine (fault_line (plan_fault_words fault.now)) (O.view out.old) (O.view out.new) }
    ensures answered { IsAnswered O.tells (plan_fault_words fault.now) (status_of_plan fault.now) (O.view out.old) (O.view out.new) result }
    ensures counts { CountsNeverFall (O.view out.old) (O.view out.new) }
{
    put_fault(&plan_fault_parts(fault), plan_status(fault), out)
}

/// Puts the line of a refusal. It takes no memory.
#[tactic(auto, unfolding(crate::specs::Words::refusal_words))]
pub fn refuse<O: Sink>(refusal: &Refusal, out: &mut O) -> Status
    ensures is { result ≡ status_of_cause (cause_of refusal.now) }
    ensures line { O.tells → GotLine (fault_line (refusal_words refusal.now)) (O.view out.old) (O.view out.new) }
    ensures answered { IsAnswered O.tells (refusal_words refusal.now) (status_of_cause (cause_of refusal.now)) (O.view out.old) (O.view out.new) result }
    ensures counts { CountsNeverFall (O.view out.old) (O.view out.new) }
{
    match refusal {
        Refusal::Files(refusal) => refuse_file(refusal, out),
        Refusal::Bump(fault) => refuse_bump(fault, out),
        Refusal::Plan(fault) => refuse_plan(fault, out),
    }
}

/// The name of a file that is read.
pub fn name_of<'a>(sources: &Sources<'a>, payment: &Payment<'a>, file: File) -> &'a str
    ensures { result.now ≡ name_of (plain_sources sources.now) (plain_payment payment.now) file }
{
    match file {
        File::Wallet => sources.wallet,
        File::Blocks => sources.blocks,
        File::Request => payment.request,
    }
}

/// Puts the line of a stop, and answers its status, without memory.
pub fn answer<O: Sink>(sources: &Sources, payment: &Payment, stop: Stop, out: &mut O) -> Status
    ensures is { result ≡ stop_status stop }
    ensures line { O.tells → GotLine (fault_line (stop_words (plain_sources sources.now) (plain_payment payment.now) stop)) (O.view out.old) (O.view out.new) }
    ensures answered { IsStopped O.tells (plain_sources sources.now) (plain_payment payment.now) stop (O.view out.old) (O.view out.new) result }
    ensures read { (file : File) → stop ≡ Stop.Read file → result ≡ Status.ReadFault }
    ensures keep { stop ≡ Stop.Keep → result ≡ Status.KeepFault }
    ensures counts { CountsNeverFall (O.view out.old) (O.view out.new) }
{
    match stop {
        Stop::Read(file) => refuse_read(name_of(sources, payment, file), out),
        Stop::Refused(refusal) => refuse(&refusal, out),
        Stop::Keep => refuse_keep(out),
        Stop::Memory => out_of_memory(out),
    }
}
