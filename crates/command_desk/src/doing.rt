//! One line of a script: its file read, its command done, its reply printed.

ghost use Rattle.std.specs.Prelude.{◌≡◌, ◌≢◌, ◌++◌, IfErr, IfOk, IfSome, OnErr, OnOk, option_map, string_bytes};
ghost use Rattle.fund_shelf.specs.Causes.{Asks, CountsNeverFall, OnlyReads};
ghost use Rattle.command_end.specs.Printed.{TookAll};
ghost use Rattle.desk_machine.specs.Commands.{IsCommand, plain_command};
ghost use Rattle.command_desk.specs.Lent.{plain_line};
ghost use Rattle.command_desk.specs.Line.{wanted};
ghost use Rattle.command_desk.specs.Asked.{file_in};
ghost use Rattle.command_desk.specs.Course.{Replies};
ghost use Rattle.command_desk.specs.Halts.{HaltsLine, HaltsPutting, HaltsReplying, IsDoneLine, IsReplied, IsSaid};

use crate::halt::{Halt, put_halt};
use crate::line::Line;
use crate::reading::command_of;
use crate::reply_text::{other_line, reply_line};
use desk_machine::{Command, Reply};
use fund_base::Memory;
use fund_desk::Desk;
use fund_shelf::{Shelf, Sink, put_all};
use std::alloc::Global;

/// The reply, unless it is that there was not enough memory.
fn fed(reply: Reply) -> Result<Reply, Memory>
    ensures same { IfOk result (λ r. (r ≡ reply) × (r ≢ Reply.Memory)) }
    ensures memory { OnErr result (reply ≡ Reply.Memory) }
{
    match reply {
        Reply::Memory => Err(Memory),
        reply => Ok(reply),
    }
}

/// Does a command, and tells the line of its reply. The error is out of memory.
fn reply_to(
    alloc: Global,
    desk: &mut Desk,
    line: &Line,
    command: &Command,
) -> Result<String, Memory>
    requires { IsCommand (plain_command command.now) }
    ensures { IfOk result (λ text. Replies (plain_line line.now) (plain_command command.now) desk.old (string_bytes text) desk.new) }
{
    match fed(desk.command(command)) {
        Ok(reply) => reply_line(alloc, line, &reply),
        Err(Memory) => Err(Memory),
    }
}

/// Prints a reply.
fn put<O: Sink>(text: &[u8], out: &mut O) -> Result<(), Halt>
    ensures all { O.tells → OnOk result ((O.view out.new).written ≡ (O.view out.old).written ++ text.now) }
    ensures halt { IfErr result (HaltsPutting O.tells text.now (O.view out.old) (O.view out.new)) }
    ensures all_put { OnOk result (TookAll (O.view out.old) (O.view out.new)) }
    ensures counts { CountsNeverFall (O.view out.old) (O.view out.new) }
{
    match put_all(out, text) {
        Ok(()) => Ok(()),
        Err(fault) => Err(put_halt(fault)),
    }
}

/// Does the command of a line, and prints the reply; any other line is refused, which takes no memory.
fn reply_by<O: Sink>(
    alloc: Global,
    desk: &mut Desk,
    line: &Line,
    command: &Option<Command>,
    out: &mut O,
) -> Result<(), Halt>
    requires { IfSome command.now (λ c. IsCommand (plain_command c)) }
    ensures done { OnOk result (IsReplied O.tells (plain_line line.now) (option_map plain_command command.now) desk.old desk.new (O.view out.old) (O.view out.new)) }
    ensures halt { IfErr result (HaltsReplying O.tells (plain_line line.now) (option_map plain_command command.now) desk.old (O.view out.old) (O.view out.new)) }
    ensures all_put { OnOk result (TookAll (O.view out.old) (O.view out.new)) }
    ensures counts { CountsNeverFall (O.view out.old) (O.view out.new) }
{
    match command {
        Some(command) => match reply_to(alloc, desk, line, command) {
            Ok(text) => put(text.as_bytes(), out),
            Err(Memory) => Err(Halt::Memory),
        },
        None => put(other_line().as_bytes(), out),
    }
}

/// Does a line: reads its file, does its command and prints the reply.
pub fn do_line<H: Shelf, O: Sink>(
    alloc: Global,
    desk: &mut Desk,
    line: &Line,
    shelf: &mut H,
    out: &mut O,
) -> Result<(), Halt>
    requires { IsSaid (plain_line line.now) }
    ensures done { OnOk result (IsDoneLine H.tells O.tells (H.view shelf.old).files (plain_line line.now) desk.old desk.new (O.view out.old) (O.view out.new)) }
    ensures halt { IfErr result (HaltsLine H.tells O.tells (plain_line line.now) desk.old (H.view shelf.old) (H.view shelf.new) (O.view out.old) (O.view out.new)) }
    ensures asked { H.tells → Asks (file_in (wanted (plain_line line.now))) (H.view shelf.old).asked (H.view shelf.new).asked }
    ensures all_read { result ≢ Err Halt.Unread → (H.view shelf.new).reads ≡ (H.view shelf.old).reads }
    ensures all_put { OnOk result (TookAll (O.view out.old) (O.view out.new)) }
    ensures frame { OnlyReads H.tells (H.view shelf.old) (H.view shelf.new) }
    ensures counts { CountsNeverFall (O.view out.old) (O.view out.new) }
{
    match command_of(alloc, line, shelf) {
        Ok(command) => reply_by(alloc, desk, line, &command, out),
        Err(halt) => Err(halt),
    }
}
