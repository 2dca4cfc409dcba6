//! The fault line of what stops a job.

ghost use Rattle.std.specs.Prelude.{◌≡◌};
ghost use Rattle.fund_shelf.specs.Causes.{CountsNeverFall};
ghost use Rattle.fund_files.specs.declared.refusal.File.{File};
ghost use Rattle.command_end.specs.AnswerLines.{IsAnswered};
ghost use Rattle.command_end.specs.Lines.{GotLine, fault_line};
ghost use Rattle.command_end.specs.Names.{plain_sources};
ghost use Rattle.command_inputs.specs.Names.{plain_payment};
ghost use Rattle.command_inputs.specs.declared.refusal.Stop.TheVariants as funding;
ghost use Rattle.command_resume.specs.Words.{IsStopped, kept_status, kept_words, stop_status, stop_words};

use crate::stop::Stop;
use crate::words::{kept_parts, kept_status};
use command_end::{Sources, Status, put_fault};
use command_inputs::{Payment, answer as answer_funding};
use fund_shelf::Sink;
use kept_job::KeptFault;

/// Puts the line of a kept job's fault.
fn refuse_kept<O: Sink>(fault: &KeptFault, out: &mut O) -> Status
    ensures is { result ≡ kept_status fault.now }
    ensures line { O.tells → GotLine (fault_line (kept_words fault.now)) (O.view out.old) (O.view out.new) }
    ensures answered { IsAnswered O.tells (kept_words fault.now) (kept_status fault.now) (O.view out.old) (O.view out.new) result }
    ensures counts { CountsNeverFall (O.view out.old) (O.view out.new) }
{
    put_fault(&kept_parts(fault), kept_status(fault), out)
}

/// Puts the line of a stop, and answers its status, without memory.
pub fn answer<O: Sink>(sources: &Sources, payment: &Payment, stop: Stop, out: &mut O) -> Status
    ensures is { result ≡ stop_status stop }
    ensures line { O.tells → GotLine (fault_line (stop_words (plain_sources sources.now) (plain_payment payment.now) stop)) (O.view out.old) (O.view out.new) }
    ensures answered { IsStopped O.tells (plain_sources sources.now) (plain_payment payment.now) stop (O.view out.old) (O.view out.new) result }
    ensures read { (file : File) → stop ≡ Stop.Funding (funding.Read file) → result ≡ Status.ReadFault }
    ensures keep { stop ≡ Stop.Kept KeptFault.Failed → result ≡ Status.KeepFault }
    ensures counts { CountsNeverFall (O.view out.old) (O.view out.new) }
{
    match stop {
        Stop::Funding(stop) => answer_funding(sources, payment, stop, out),
        Stop::Kept(fault) => refuse_kept(&fault, out),
    }
}
