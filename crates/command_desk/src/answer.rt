//! The fault line of a desk that stops before the first line of its script.

ghost use Rattle.std.specs.Prelude.{◌≡◌};
ghost use Rattle.fund_shelf.specs.Causes.{CountsNeverFall};
ghost use Rattle.fund_files.specs.declared.refusal.File.{File};
ghost use Rattle.command_end.specs.Lines.{GotLine, fault_line};
ghost use Rattle.command_end.specs.Names.{plain_sources};
ghost use Rattle.command_desk.specs.Stops.{IsStopped, stop_status, stop_words};

use crate::stop::Stop;
use command_end::{Sources, Status, out_of_memory, put_line, refuse_chain, refuse_read};
use fund_files::Stop as ChainStop;
use fund_shelf::Sink;

/// The line of a script that is too long.
const LIMIT_LINE: &[u8] = b"fault limit script\n";

/// Puts the line of a stop, and answers its status, without memory.
pub fn answer<O: Sink>(sources: &Sources, script: &str, stop: Stop, out: &mut O) -> Status
    ensures is { result ≡ stop_status stop }
    ensures line { O.tells → GotLine (fault_line (stop_words (plain_sources sources.now) script.now stop)) (O.view out.old) (O.view out.new) }
    ensures answered { IsStopped O.tells (plain_sources sources.now) script.now stop (O.view out.old) (O.view out.new) result }
    ensures read { stop ≡ Stop.Unread → result ≡ Status.ReadFault }
    ensures read_chain { (file : File) → stop ≡ Stop.Chain (ChainStop.Read file) → result ≡ Status.ReadFault }
    ensures counts { CountsNeverFall (O.view out.old) (O.view out.new) }
{
    match stop {
        Stop::Chain(stop) => refuse_chain(sources, stop, out),
        Stop::Unread => refuse_read(script, out),
        Stop::TooLong => {
            put_line(LIMIT_LINE, out);
            Status::Limit
        }
        Stop::Memory => out_of_memory(out),
    }
}
