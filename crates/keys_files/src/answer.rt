//! The fault line of a keys file that isn't taken, and of keys that aren't added.

ghost use Rattle.std.specs.Prelude.{◌≡◌, ◌++◌, codes};
ghost use Rattle.fund_shelf.specs.Causes.{CountsNeverFall};
ghost use Rattle.command_end.specs.AnswerLines.{IsAnswered};
ghost use Rattle.keys_files.specs.Words.{key_fault_words, keys_fault_words, keys_status, keys_words};

use crate::stop::KeysStop;
use crate::words::{key_refusal_parts, keys_refusal_parts};
use command_end::{Status, out_of_memory, put_fault, put_line, refuse_read};
use fund_shelf::Sink;
use keys_text::KeysFault;
use psbt_keys::KeyFault;

/// The line of a keys file that is too long.
const LIMIT_LINE: &[u8] = b"fault limit keys\n";

/// Puts the line of a keys file that is too long, which takes no memory.
fn refuse_length<O: Sink>(out: &mut O) -> Status
    ensures answered { IsAnswered O.tells (codes "limit keys") Status.Limit (O.view out.old) (O.view out.new) result }
    ensures counts { CountsNeverFall (O.view out.old) (O.view out.new) }
{
    put_line(LIMIT_LINE, out);
    Status::Limit
}

/// Puts the line of a keys file that is refused.
fn refuse_fault<O: Sink>(fault: &KeysFault, out: &mut O) -> Status
    ensures answered { IsAnswered O.tells (codes "input keys " ++ keys_fault_words fault.now) Status.Input (O.view out.old) (O.view out.new) result }
    ensures counts { CountsNeverFall (O.view out.old) (O.view out.new) }
{
    put_fault(&keys_refusal_parts(fault), Status::Input, out)
}

/// Puts the line of keys that aren't added to a PSBT, for this fault, and answers its status. It takes no memory.
pub fn refuse_unkeyed<O: Sink>(fault: KeyFault, out: &mut O) -> Status
    ensures answered { IsAnswered O.tells (codes "input psbt " ++ key_fault_words fault) Status.Input (O.view out.old) (O.view out.new) result }
    ensures counts { CountsNeverFall (O.view out.old) (O.view out.new) }
{
    put_fault(&key_refusal_parts(fault), Status::Input, out)
}

/// Puts the line of the keys file of this name, which isn't taken, and answers its status. It takes no memory.
pub fn refuse_keys<O: Sink>(name: &str, stop: &KeysStop, out: &mut O) -> Status
    ensures answered { IsAnswered O.tells (keys_words name.now stop.now) (keys_status stop.now) (O.view out.old) (O.view out.new) result }
    ensures counts { CountsNeverFall (O.view out.old) (O.view out.new) }
{
    match stop {
        KeysStop::Read => refuse_read(name, out),
        KeysStop::TooLong => refuse_length(out),
        KeysStop::Refused(fault) => refuse_fault(fault, out),
        KeysStop::Memory => out_of_memory(out),
    }
}
