//! The command.

ghost use Rattle.std.specs.Prelude.{◌≡◌, ◌≢◌};
ghost use Rattle.fund_shelf.specs.Causes.{CountsNeverFall, OnlyReads};
ghost use Rattle.command_end.specs.Names.{plain_sources};
ghost use Rattle.command_end.specs.Printed.{TellsWhole, TookAll};
ghost use Rattle.command_inputs.specs.Names.{plain_payment};
ghost use Rattle.command_check.specs.Asked.{AsksFiles};
ghost use Rattle.command_check.specs.Statuses.{Ends, IsDueStatus};

use crate::answer::answer;
use crate::judging::accepted;
use command_end::{Sources, Status, put_report};
use command_inputs::Payment;
use fund_shelf::{Shelf, Sink};
use std::alloc::Global;

/// Checks the report of a payment, which is the file `report`, with its log, which is the payment's: it reads the three files
/// of the payment, then the report and, unless that is of an unfinished run, the log; and prints to `out` that the report is
/// accepted, and its first line. The wallet, the blocks and the request are refused as they are when the payment is funded.
/// What is refused gets its fault line there. It writes no file.
///
/// Where the request names a payment, the payment of an accepted report replaces that one by the rules of BIP 125, whatever
/// its mark.
///
/// The clauses on content hold where the shelf and the sink tell theirs.
pub fn check<H: Shelf, O: Sink>(
    alloc: Global,
    sources: &Sources,
    payment: &Payment,
    report: &str,
    shelf: &mut H,
    out: &mut O,
) -> Status
    // By the status: what was found in the files, what an accepted report vouches for, and what the sink has got.
    ensures ends { Ends H.tells O.tells (plain_sources sources.now) (plain_payment payment.now) report.now (H.view shelf.old) (H.view shelf.new) (O.view out.old) (O.view out.new) result }

    // Where the report isn't accepted and the files were read, the status is that of the refusal, even if the sink fails. Where
    // no count rose, it is that of what the files come to. Out of memory may come in place of either.
    ensures due { IsDueStatus H.tells (plain_sources sources.now) (plain_payment payment.now) report.now (H.view shelf.old) (H.view shelf.new) (O.view out.old) (O.view out.new) result }

    // A read that failed is told as that, and as nothing else; an output that failed or found no memory is never told as an
    // acceptance.
    ensures all_read { result ≢ Status.ReadFault → (H.view shelf.new).reads ≡ (H.view shelf.old).reads }
    ensures all_put { TellsWhole result → TookAll (O.view out.old) (O.view out.new) }

    // Nothing is written.
    ensures frame { OnlyReads H.tells (H.view shelf.old) (H.view shelf.new) }
    ensures counts { CountsNeverFall (O.view out.old) (O.view out.new) }

    // It asks for the wallet file, the block file, the request, the report and the log, in this order, and for no other
    // name: for no log where the report isn't in its grammar, is too long, or is of an unfinished run; for neither where the
    // payment is refused; and behind a file that is refused for none.
    ensures asks { AsksFiles H.tells (plain_sources sources.now) (plain_payment payment.now) report.now (H.view shelf.old) (H.view shelf.new) }
{
    match accepted(alloc, sources, payment, report, shelf) {
        Ok(text) => put_report(text.as_bytes(), Status::Done, out),
        Err(stop) => answer(sources, payment, report, stop, out),
    }
}
