//! The fault line of a report that isn't accepted.

ghost use Rattle.std.specs.Prelude.{◌≡◌, ◌++◌, codes};
ghost use Rattle.fund_shelf.specs.Causes.{CountsNeverFall};
ghost use Rattle.fund_files.specs.declared.refusal.File.{File};
ghost use Rattle.command_end.specs.AnswerLines.{IsAnswered};
ghost use Rattle.command_end.specs.Lines.{GotLine, fault_line};
ghost use Rattle.command_end.specs.Names.{plain_sources};
ghost use Rattle.command_end.specs.Parts.{parts_text};
ghost use Rattle.command_inputs.specs.Names.{plain_payment};
ghost use Rattle.command_inputs.specs.declared.refusal.Stop.TheVariants as payments;
ghost use Rattle.command_check.specs.Evidence.{evidence_name};
ghost use Rattle.command_check.specs.Words.{IsStopped, check_fault_words, evidence_word, stop_status, stop_words};

use crate::stop::{CheckedFile, Stop};
use crate::words::{broken_parts, evidence_word};
use command_end::{Part, Sources, Status, out_of_memory, put_fault, refuse_read};
use command_inputs::{Payment, answer as answer_payment};
use fund_shelf::Sink;
use report_check::CheckFault;

/// The name of a file that is judged.
fn evidence_name<'a>(payment: &Payment<'a>, report: &'a str, file: CheckedFile) -> &'a str
    ensures { result.now ≡ evidence_name (plain_payment payment.now) report.now file }
{
    match file {
        CheckedFile::Report => report,
        CheckedFile::Log => payment.log,
    }
}

/// What the line of a file that is too long says behind the word `fault`.
fn limit_parts(file: CheckedFile) -> [Part<'static>; 2]
    ensures { parts_text result ≡ codes "limit " ++ evidence_word file }
{
    [Part::Text("limit "), Part::Text(evidence_word(file))]
}

/// Puts the line of a file that is too long.
fn refuse_length<O: Sink>(file: CheckedFile, out: &mut O) -> Status
    ensures is { result ≡ Status.Limit }
    ensures line { O.tells → GotLine (fault_line (codes "limit " ++ evidence_word file)) (O.view out.old) (O.view out.new) }
    ensures answered { IsAnswered O.tells (codes "limit " ++ evidence_word file) Status.Limit (O.view out.old) (O.view out.new) result }
    ensures counts { CountsNeverFall (O.view out.old) (O.view out.new) }
{
    put_fault(&limit_parts(file), Status::Limit, out)
}

/// Puts the line of a broken rule.
fn refuse_report<O: Sink>(fault: &CheckFault, out: &mut O) -> Status
    ensures is { result ≡ Status.CheckRefused }
    ensures line { O.tells → GotLine (fault_line (codes "check " ++ check_fault_words fault.now)) (O.view out.old) (O.view out.new) }
    ensures answered { IsAnswered O.tells (codes "check " ++ check_fault_words fault.now) Status.CheckRefused (O.view out.old) (O.view out.new) result }
    ensures counts { CountsNeverFall (O.view out.old) (O.view out.new) }
{
    put_fault(&broken_parts(fault), Status::CheckRefused, out)
}

/// Puts the line of a stop, and answers its status, without memory.
pub fn answer<O: Sink>(
    sources: &Sources,
    payment: &Payment,
    report: &str,
    stop: Stop,
    out: &mut O,
) -> Status
    ensures is { result ≡ stop_status stop }
    ensures line { O.tells → GotLine (fault_line (stop_words (plain_sources sources.now) (plain_payment payment.now) report.now stop)) (O.view out.old) (O.view out.new) }
    ensures answered { IsStopped O.tells (plain_sources sources.now) (plain_payment payment.now) report.now stop (O.view out.old) (O.view out.new) result }
    ensures read { (file : CheckedFile) → stop ≡ Stop.Read file → result ≡ Status.ReadFault }
    ensures read_payment { (file : File) → stop ≡ Stop.Payment (payments.Read file) → result ≡ Status.ReadFault }
    ensures counts { CountsNeverFall (O.view out.old) (O.view out.new) }
{
    match stop {
        Stop::Payment(stop) => answer_payment(sources, payment, stop, out),
        Stop::Read(file) => refuse_read(evidence_name(payment, report, file), out),
        Stop::TooLong(file) => refuse_length(file, out),
        Stop::Broken(fault) => refuse_report(&fault, out),
        Stop::Memory => out_of_memory(out),
    }
}
