//! The fault line of a PSBT that isn't made whole.

ghost use Rattle.std.specs.Prelude.{◌≡◌, codes};
ghost use Rattle.fund_shelf.specs.Causes.{CountsNeverFall};
ghost use Rattle.command_end.specs.AnswerLines.{IsAnswered};
ghost use Rattle.command_end.specs.Lines.{GotLine, fault_line};
ghost use Rattle.command_end.specs.Names.{plain_sources};
ghost use Rattle.command_complete.specs.Stops.{TellsRead};
ghost use Rattle.command_complete.specs.Words.{IsStopped, refusal_words, stop_status, stop_words};

use crate::stop::{Refusal, Stop};
use crate::words::refusal_parts;
use command_end::{Sources, Status, out_of_memory, put_fault, put_line, refuse_chain, refuse_read};
use fund_shelf::Sink;

/// The line of a PSBT file that is too long.
const LIMIT_LINE: &[u8] = b"fault limit psbt\n";

/// Puts the line of a PSBT file that is too long, which takes no memory.
fn refuse_length<O: Sink>(out: &mut O) -> Status
    ensures is { result ≡ Status.Limit }
    ensures line { O.tells → GotLine (fault_line (codes "limit psbt")) (O.view out.old) (O.view out.new) }
    ensures counts { CountsNeverFall (O.view out.old) (O.view out.new) }
{
    put_line(LIMIT_LINE, out);
    Status::Limit
}

/// Puts the line of a PSBT file that is refused.
fn refuse_psbt<O: Sink>(refusal: &Refusal, out: &mut O) -> Status
    ensures is { result ≡ Status.Input }
    ensures line { O.tells → GotLine (fault_line (refusal_words refusal.now)) (O.view out.old) (O.view out.new) }
    ensures answered { IsAnswered O.tells (refusal_words refusal.now) Status.Input (O.view out.old) (O.view out.new) result }
    ensures counts { CountsNeverFall (O.view out.old) (O.view out.new) }
{
    put_fault(&refusal_parts(refusal), Status::Input, out)
}

/// Puts the line of a stop, and answers its status, without memory.
pub fn answer<O: Sink>(sources: &Sources, psbt: &str, stop: Stop, out: &mut O) -> Status
    ensures is { result ≡ stop_status stop }
    ensures line { O.tells → GotLine (fault_line (stop_words (plain_sources sources.now) psbt.now stop)) (O.view out.old) (O.view out.new) }
    ensures answered { IsStopped O.tells (plain_sources sources.now) psbt.now stop (O.view out.old) (O.view out.new) result }
    ensures read { TellsRead stop → result ≡ Status.ReadFault }
    ensures counts { CountsNeverFall (O.view out.old) (O.view out.new) }
{
    match stop {
        Stop::Chain(stop) => refuse_chain(sources, stop, out),
        Stop::Read => refuse_read(psbt, out),
        Stop::TooLong => refuse_length(out),
        Stop::Refused(refusal) => refuse_psbt(&refusal, out),
        Stop::Memory => out_of_memory(out),
    }
}
