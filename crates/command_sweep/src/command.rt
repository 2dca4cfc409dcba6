//! The command.

ghost use Rattle.std.specs.Prelude.{◌≡◌, ◌≢◌, ◌⊎◌, Err, IfErr, IfOk};
ghost use Rattle.fund_shelf.specs.Causes.{CountsNeverFall, OnlyReads};
ghost use Rattle.fund_files.specs.declared.refusal.File.{File};
ghost use Rattle.command_end.specs.Names.{plain_sources};
ghost use Rattle.command_end.specs.Printed.{TellsWhole, TookAll};
ghost use Rattle.command_inputs.specs.Inputs.{AsksInOrder, NoneBehind};
ghost use Rattle.command_inputs.specs.Names.{plain_payment};
ghost use Rattle.command_inputs.specs.declared.refusal.Stop.TheVariants as payments;
ghost use Rattle.command_sweep.specs.Asked.{asked_by};
ghost use Rattle.command_sweep.specs.Endings.{IsEnded};
ghost use Rattle.command_sweep.specs.Outcome.{IsRefusal, outcome_of, status_of};
ghost use Rattle.command_sweep.specs.Statuses.{Ends, NoneFailed, NoneUnread};
ghost use Rattle.command_sweep.specs.Stops.{StopsFor};

use crate::answer::answer_stop;
use crate::asked::is_for_sweep;
use crate::ending::{Ending, conclude};
use crate::stop::Stop;
use command_amounts::read_files;
use command_end::{Sources, Status, put_report};
use command_inputs::Payment;
use fund_shelf::{Shelf, Sink};
use std::alloc::Global;

/// How a sweep ends, or why the command stops.
fn outcome<H: Shelf>(
    alloc: Global,
    sources: &Sources,
    payment: &Payment,
    shelf: &mut H,
) -> Result<Ending, Stop>
    ensures ends { IfOk result (IsEnded H.tells (H.view shelf.old).files (plain_sources sources.now) (plain_payment payment.now)) }
    ensures frame { OnlyReads H.tells (H.view shelf.old) (H.view shelf.new) }
    ensures stop { IfErr result (StopsFor H.tells (plain_sources sources.now) (plain_payment payment.now) (H.view shelf.old) (H.view shelf.new)) }
    ensures asked { H.tells → AsksInOrder (plain_sources sources.now) (plain_payment payment.now) (H.view shelf.old) (H.view shelf.new) }
    ensures none_behind { H.tells → NoneBehind (plain_sources sources.now) (H.view shelf.old) (H.view shelf.new) }
    ensures all_read { ((file : File) → result ≢ Err (Stop.AsPayment (payments.Read file))) → (H.view shelf.new).reads ≡ (H.view shelf.old).reads }
{
    let (held, request) = read_files(alloc, sources, payment, shelf)?;
    if !is_for_sweep(&request) {
        return Err(Stop::NotSweep);
    }
    let ending = conclude(alloc, &held, &request)?;
    Ok(ending)
}

/// Pays all coins of a wallet to the one recipient of a request: it reads the wallet file, the block file and the file
/// `request`, and prints the report to `out`. The inputs are all coins that the last row of the request's ladder takes. The
/// recipient gets what they are worth less the fees of their inputs, their prices and the fee of the base, in satoshi. Where that
/// is less than the request asks for, or there is no coin, nothing is paid.
///
/// What is refused gets its fault line there. A request that has several recipients, lists coins or names a payment to be replaced
/// is refused before anything of its plan. It writes no file.
///
/// The clauses on content hold where the shelf and the sink tell theirs.
pub fn sweep<H: Shelf, O: Sink>(
    alloc: Global,
    sources: &Sources,
    request: &str,
    shelf: &mut H,
    out: &mut O,
) -> Status
    // By the status: what was found in the files, and what the sink has got.
    ensures ends { Ends H.tells O.tells (plain_sources sources.now) (asked_by request.now) (H.view shelf.old) (H.view shelf.new) (O.view out.old) (O.view out.new) result }

    // Where the files are refused, and were read, the status is that of the refusal, even if the sink fails.
    ensures refused { H.tells → NoneUnread (plain_sources sources.now) (asked_by request.now) (H.view shelf.old) (H.view shelf.new) → IsRefusal (outcome_of (H.view shelf.old).files (plain_sources sources.now) (asked_by request.now)) → (result ≡ status_of (outcome_of (H.view shelf.old).files (plain_sources sources.now) (asked_by request.now))) ⊎ (result ≡ Status.Memory) }

    // Where no count rose, the status is that of what the files come to, or out of memory.
    ensures complete { H.tells → NoneFailed (plain_sources sources.now) (asked_by request.now) (H.view shelf.old) (H.view shelf.new) (O.view out.old) (O.view out.new) → (result ≡ status_of (outcome_of (H.view shelf.old).files (plain_sources sources.now) (asked_by request.now))) ⊎ (result ≡ Status.Memory) }

    // It asks for the wallet file, then for the block file, then for the request; and for no other name. Behind a file that is
    // refused it asks for none.
    ensures asked { H.tells → AsksInOrder (plain_sources sources.now) (asked_by request.now) (H.view shelf.old) (H.view shelf.new) }
    ensures none_behind { H.tells → NoneBehind (plain_sources sources.now) (H.view shelf.old) (H.view shelf.new) }

    // A read that failed is told as that, and as nothing else; and an output that failed is never told as success.
    ensures all_read { result ≢ Status.ReadFault → (H.view shelf.new).reads ≡ (H.view shelf.old).reads }
    ensures all_put { TellsWhole result → TookAll (O.view out.old) (O.view out.new) }

    // Nothing is written, and no count falls.
    ensures frame { OnlyReads H.tells (H.view shelf.old) (H.view shelf.new) }
    ensures counts { CountsNeverFall (O.view out.old) (O.view out.new) }
{
    let payment = Payment { request, log: "" };
    let ending = match outcome(alloc, sources, &payment, shelf) {
        Ok(ending) => ending,
        Err(stop) => return answer_stop(sources, &payment, stop, out),
    };
    match ending {
        Ending::NoSelection(report) => put_report(&report, Status::NoSelection, out),
        Ending::Swept(report) => put_report(&report, Status::Done, out),
    }
}
