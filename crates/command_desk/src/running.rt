//! The lines of a script, done one after the other.

ghost use Rattle.std.specs.Prelude.{◌≡◌, ◌≢◌, []};
ghost use Rattle.fund_shelf.specs.Causes.{Asks, CountsNeverFall, OnlyReads};
ghost use Rattle.command_end.specs.Printed.{TellsWhole, TookAll};
ghost use Rattle.command_desk.specs.Script.{lines_of};
ghost use Rattle.command_desk.specs.Asked.{files_in};
ghost use Rattle.command_desk.specs.Running.{RunsOn};

use crate::doing::do_line;
use crate::ending::end_at;
use crate::line::parse;
use crate::script::next_line;
use command_end::Status;
use fund_desk::Desk;
use fund_shelf::{Shelf, Sink};
use std::alloc::Global;

/// Does the lines of a script at a desk, one after the other: the reply to each is printed before the file of the next is read.
/// Where a line isn't done, none behind it is.
pub fn run_lines<H: Shelf, O: Sink>(
    alloc: Global,
    desk: &mut Desk,
    script: &[u8],
    shelf: &mut H,
    out: &mut O,
) -> Status
    ensures runs { RunsOn H.tells O.tells [] script.now desk.old (H.view shelf.old) (H.view shelf.new) (O.view out.old) (O.view out.new) result }
    ensures asked { H.tells → Asks (files_in (lines_of script.now)) (H.view shelf.old).asked (H.view shelf.new).asked }
    ensures all_read { result ≢ Status.ReadFault → (H.view shelf.new).reads ≡ (H.view shelf.old).reads }
    ensures all_put { TellsWhole result → TookAll (O.view out.old) (O.view out.new) }
    ensures frame { OnlyReads H.tells (H.view shelf.old) (H.view shelf.new) }
    ensures counts { CountsNeverFall (O.view out.old) (O.view out.new) }
{
    let mut rest = script;
    let mut is_first = true;
    'lines: while !rest.is_empty() {
        let (words, behind) = next_line(rest);
        let line = parse(words);
        if let Err(halt) = do_line(alloc, desk, &line, shelf, out) {
            return end_at(&line, halt, is_first, out);
        }
        rest = behind;
        is_first = false;
    }
    Status::Done
}
