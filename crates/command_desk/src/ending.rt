//! The end of a run at a line that isn't done.

ghost use Rattle.std.specs.Prelude.{◌≡◌, ◌++◌, codes};
ghost use Rattle.fund_shelf.specs.Causes.{CountsNeverFall};
ghost use Rattle.command_end.specs.Lines.{GotLine, fault_line};
ghost use Rattle.command_desk.specs.Lent.{plain_line};
ghost use Rattle.command_desk.specs.Course.{file_name, long_word};
ghost use Rattle.command_desk.specs.Halts.{EndsAt, EndsFirst, status_of};

use crate::halt::Halt;
use crate::line::Line;
use command_end::{Status, out_of_memory, put_line, refuse_read};
use fund_shelf::Sink;

/// The status of a line that isn't done.
fn status_of(halt: Halt) -> Status
    ensures { result ≡ status_of halt }
{
    match halt {
        Halt::Unread => Status::ReadFault,
        Halt::TooLong => Status::Limit,
        Halt::Unwritten => Status::WriteFault,
        Halt::Full | Halt::Memory => Status::Memory,
    }
}

/// The name of the file of a line; where it names none, no text.
fn file_name<'a>(line: &Line<'a>) -> &'a str
    ensures { result.now ≡ file_name (plain_line line.now) }
{
    match *line {
        Line::Open { file, .. } | Line::Blocks { file } => file,
        _ => "",
    }
}

/// The fault line of a file that is too long; of a line that names none, no line that comes.
fn long_line(line: &Line) -> &'static [u8]
    ensures { result.now ≡ fault_line (codes "limit " ++ long_word (plain_line line.now)) }
{
    match *line {
        Line::Open { .. } => b"fault limit request\n",
        Line::Blocks { .. } => b"fault limit blocks\n",
        _ => b"fault limit \n",
    }
}

/// Puts the fault line of a file that is too long, which takes no memory.
fn refuse_length<O: Sink>(line: &Line, out: &mut O) -> Status
    ensures is { result ≡ Status.Limit }
    ensures line { O.tells → GotLine (fault_line (codes "limit " ++ long_word (plain_line line.now))) (O.view out.old) (O.view out.new) }
    ensures counts { CountsNeverFall (O.view out.old) (O.view out.new) }
{
    put_line(long_line(line), out);
    Status::Limit
}

/// Ends at the first line of the script, with its fault line, unless it is the sink that failed.
fn end_first<O: Sink>(line: &Line, halt: Halt, out: &mut O) -> Status
    ensures ends { EndsFirst O.tells (plain_line line.now) halt (O.view out.old) (O.view out.new) result }
    ensures read { halt ≡ Halt.Unread → result ≡ Status.ReadFault }
    ensures counts { CountsNeverFall (O.view out.old) (O.view out.new) }
{
    match halt {
        Halt::Unread => refuse_read(file_name(line), out),
        Halt::TooLong => refuse_length(line, out),
        Halt::Unwritten => Status::WriteFault,
        Halt::Full => Status::Memory,
        Halt::Memory => out_of_memory(out),
    }
}

/// Ends at a line, with its fault line where it is the first of the script. That a read failed is never said to be want of
/// memory.
pub fn end_at<O: Sink>(line: &Line, halt: Halt, is_first: bool, out: &mut O) -> Status
    ensures ends { EndsAt O.tells (plain_line line.now) halt is_first (O.view out.old) (O.view out.new) result }
    ensures read { halt ≡ Halt.Unread → result ≡ Status.ReadFault }
    ensures counts { CountsNeverFall (O.view out.old) (O.view out.new) }
{
    if is_first {
        end_first(line, halt, out)
    } else {
        status_of(halt)
    }
}
