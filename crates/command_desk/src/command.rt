//! The command.

ghost use Rattle.std.specs.Prelude.{◌≡◌, ◌≢◌, ◌⊎◌, ◌++◌};
ghost use Rattle.fund_shelf.specs.Causes.{Asks, CountsNeverFall, OnlyReads};
ghost use Rattle.command_end.specs.Names.{plain_sources};
ghost use Rattle.command_end.specs.Printed.{TellsWhole, TookAll};
ghost use Rattle.command_desk.specs.Script.{lines_of};
ghost use Rattle.command_desk.specs.Asked.{NoneBehind, files_in, first_names};
ghost use Rattle.command_desk.specs.Outcome.{IsRefusal, outcome_of, status_of};
ghost use Rattle.command_desk.specs.Statuses.{Ends, NoneFailed, NoneUnread};

use crate::answer::answer;
use crate::running::run_lines;
use crate::starting::{Start, read_start};
use command_end::{Sources, Status};
use fund_shelf::{Shelf, Sink};
use std::alloc::Global;

/// Runs the lines of a script at a desk: it reads the wallet file, the block file and the script, which is the file `script` of
/// at most 16,777,216 bytes, and prints to `out` the desk's reply to each line, before it reads the file that the next line
/// names. The wallet and the blocks are refused as they are when coins are listed. A request that a line names has at most
/// 1,048,576 bytes, and a block file at most 67,108,864. What fails ends the run; it gets its fault line, unless a reply was
/// printed. It writes no file.
///
/// The clauses on content hold where the shelf and the sink tell theirs.
pub fn desk<H: Shelf, O: Sink>(
    alloc: Global,
    sources: &Sources,
    script: &str,
    shelf: &mut H,
    out: &mut O,
) -> Status
    // By the status: what was found in the files; the replies of the machine to the lines of the script, as far as it came, and
    // what of them the sink has got; and that no file behind was asked for.
    ensures ends { Ends H.tells O.tells (plain_sources sources.now) script.now (H.view shelf.old) (H.view shelf.new) (O.view out.old) (O.view out.new) result }

    // Where the wallet, the blocks, the script or the file of its first line is refused, and the files were read, the status is
    // that of the refusal, even if the sink fails.
    ensures refused { H.tells → NoneUnread (plain_sources sources.now) script.now (H.view shelf.old) (H.view shelf.new) → IsRefusal (outcome_of (H.view shelf.old).files (plain_sources sources.now) script.now) → (result ≡ status_of (outcome_of (H.view shelf.old).files (plain_sources sources.now) script.now)) ⊎ (result ≡ Status.Memory) }

    // Where no count rose, the status is that of what the files come to, or out of memory.
    ensures complete { H.tells → NoneFailed (plain_sources sources.now) script.now (H.view shelf.old) (H.view shelf.new) (O.view out.old) (O.view out.new) → (result ≡ status_of (outcome_of (H.view shelf.old).files (plain_sources sources.now) script.now)) ⊎ (result ≡ Status.Memory) }

    // A read that failed is told as that, and as nothing else; an output that failed is never told as done.
    ensures all_read { result ≢ Status.ReadFault → (H.view shelf.new).reads ≡ (H.view shelf.old).reads }
    ensures all_put { TellsWhole result → TookAll (O.view out.old) (O.view out.new) }

    // Nothing is written.
    ensures frame { OnlyReads H.tells (H.view shelf.old) (H.view shelf.new) }
    ensures counts { CountsNeverFall (O.view out.old) (O.view out.new) }

    // It asks for the wallet file, the block file, the script, and then for the files that its lines name, in this order, and
    // for no other name; and behind a file that is refused for none.
    ensures asked { H.tells → Asks (first_names (plain_sources sources.now) script.now ++ files_in (lines_of ((H.view shelf.old).files script.now))) (H.view shelf.old).asked (H.view shelf.new).asked }
    ensures none_behind { H.tells → NoneBehind (plain_sources sources.now) script.now (H.view shelf.old) (H.view shelf.new) }
{
    match read_start(alloc, sources, script, shelf) {
        Ok(Start { mut desk, text }) => run_lines(alloc, &mut desk, &text, shelf, out),
        Err(stop) => answer(sources, script, stop, out),
    }
}
