//! The fault line of a PSBT that isn't made whole with its keys.

ghost use Rattle.std.specs.Prelude.{◌≡◌};
ghost use Rattle.fund_shelf.specs.Causes.{CountsNeverFall};
ghost use Rattle.command_end.specs.AnswerLines.{IsAnswered};
ghost use Rattle.command_end.specs.Names.{plain_sources};
ghost use Rattle.command_keys.specs.Stops.{TellsRead};
ghost use Rattle.command_keys.specs.Words.{stop_status, stop_words};

use crate::stop::Stop;
use command_complete::answer as answer_incomplete;
use command_end::{Sources, Status, out_of_memory};
use fund_shelf::Sink;
use keys_files::{refuse_keys, refuse_unkeyed};

/// Puts the line of a stop, and answers its status, without memory.
pub fn answer<O: Sink>(sources: &Sources, psbt: &str, keys: &str, stop: Stop, out: &mut O) -> Status
    ensures answered { IsAnswered O.tells (stop_words (plain_sources sources.now) psbt.now keys.now stop) (stop_status stop) (O.view out.old) (O.view out.new) result }
    ensures read { TellsRead stop → result ≡ Status.ReadFault }
    ensures counts { CountsNeverFall (O.view out.old) (O.view out.new) }
{
    match stop {
        Stop::Incomplete(stop) => answer_incomplete(sources, psbt, stop, out),
        Stop::Keys(stop) => refuse_keys(keys, &stop, out),
        Stop::Unkeyed(fault) => refuse_unkeyed(fault, out),
        Stop::Memory => out_of_memory(out),
    }
}
