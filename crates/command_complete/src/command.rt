//! The command.

ghost use Rattle.std.specs.Prelude.{◌≡◌, ◌≢◌};
ghost use Rattle.fund_shelf.specs.Causes.{CountsNeverFall, OnlyReads};
ghost use Rattle.command_end.specs.Names.{plain_sources};
ghost use Rattle.command_end.specs.Printed.{TellsWhole, TookAll};
ghost use Rattle.command_complete.specs.Asked.{AsksFiles};
ghost use Rattle.command_complete.specs.Statuses.{Ends, IsDueStatus};

use crate::answering::answer;
use crate::files::completed;
use command_end::{Sources, Status, put_report};
use fund_shelf::{Shelf, Sink};
use std::alloc::Global;

/// Makes the PSBT of the file `psbt` whole: it reads the wallet, the blocks behind it and the PSBT, and prints to `out` the same
/// PSBT with the whole transaction beside each output that it spends, in base64 and a line feed. The file has the PSBT as bytes, or
/// in base64, with or without a line feed at its end. It is spelled as it would be written in its version: with no pairs but those
/// of the unsigned transaction, the whole transactions and the spent outputs. What is printed is of this version. What is
/// refused gets its fault line. It writes no file.
///
/// The clauses on content hold where the shelf and the sink tell theirs.
pub fn complete<H: Shelf, O: Sink>(
    alloc: Global,
    sources: &Sources,
    psbt: &str,
    shelf: &mut H,
    out: &mut O,
) -> Status
    // By the status: what was found in the files, and what the sink has got.
    ensures ends { Ends H.tells O.tells (plain_sources sources.now) psbt.now (H.view shelf.old) (H.view shelf.new) (O.view out.old) (O.view out.new) result }

    // Where the PSBT isn't made whole and the files were read, the status is that of the refusal, even if the sink fails. Where
    // no count rose, it is that of what the files come to. Out of memory may come in place of either.
    ensures due { IsDueStatus H.tells (plain_sources sources.now) psbt.now (H.view shelf.old) (H.view shelf.new) (O.view out.old) (O.view out.new) result }

    // Nothing is written; a read that failed is told as that, and as nothing else; and an output that failed or found no memory
    // is never told as a PSBT made whole.
    ensures frame { OnlyReads H.tells (H.view shelf.old) (H.view shelf.new) }
    ensures all_read { result ≢ Status.ReadFault → (H.view shelf.new).reads ≡ (H.view shelf.old).reads }
    ensures all_put { TellsWhole result → TookAll (O.view out.old) (O.view out.new) }
    ensures counts { CountsNeverFall (O.view out.old) (O.view out.new) }

    // It asks for the wallet file, the block file and the PSBT file, in this order, and for no other name: for none after
    // one that wasn't read, for none after a wallet file that is refused, and for no PSBT file where the other two hold no
    // book.
    ensures asks { AsksFiles H.tells (plain_sources sources.now) psbt.now (H.view shelf.old) (H.view shelf.new) result }
{
    match completed(alloc, sources, psbt, shelf) {
        Ok(text) => put_report(&text, Status::Done, out),
        Err(stop) => answer(sources, psbt, stop, out),
    }
}
