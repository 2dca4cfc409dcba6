//! The command.

ghost use Rattle.std.specs.Prelude.{◌≡◌, ◌≢◌, ◌⊎◌, Err, IfErr, IfOk};
ghost use Rattle.fund_shelf.specs.Causes.{CountsNeverFall, NeverFall, OnlyReads, SameElsewhere};
ghost use Rattle.fund_files.specs.declared.refusal.File.{File};
ghost use Rattle.command_end.specs.Names.{plain_sources};
ghost use Rattle.command_end.specs.Printed.{TellsWhole, TookAll};
ghost use Rattle.command_inputs.specs.Inputs.{AsksInOrder, NoneBehind};
ghost use Rattle.command_inputs.specs.Names.{plain_payment};
ghost use Rattle.command_inputs.specs.Results.{IsBeforeTheLog};
ghost use Rattle.command_inputs.specs.declared.refusal.Stop.TheVariants as payments;
ghost use Rattle.command_share.specs.Endings.{IsEnded};
ghost use Rattle.command_share.specs.Outcome.{IsRefusal, outcome_of, status_of};
ghost use Rattle.command_share.specs.Statuses.{Ends, NoneFailed, NoneUnread};
ghost use Rattle.command_share.specs.Stops.{StopsFor};

use crate::answer::answer_stop;
use crate::asked::is_for_share;
use crate::ending::{Ending, conclude};
use crate::stop::Stop;
use command_amounts::read_files;
use command_end::{Sources, Status, finish, put_report};
use command_inputs::Payment;
use fund_shelf::{Shelf, Sink};
use std::alloc::Global;

/// How a payment ends, or why the command stops.
fn outcome<H: Shelf>(
    alloc: Global,
    sources: &Sources,
    payment: &Payment,
    shelf: &mut H,
) -> Result<Ending, Stop>
    ensures ends { IfOk result (IsEnded H.tells (H.view shelf.old).files (plain_sources sources.now) (plain_payment payment.now)) }
    ensures frame { OnlyReads H.tells (H.view shelf.old) (H.view shelf.new) }
    ensures stop { IfErr result (StopsFor H.tells (plain_sources sources.now) (plain_payment payment.now) (H.view shelf.old) (H.view shelf.new)) }
    ensures asked { H.tells → AsksInOrder (plain_sources sources.now) (plain_payment payment.now) (H.view shelf.old) (H.view shelf.new) }
    ensures none_behind { H.tells → NoneBehind (plain_sources sources.now) (H.view shelf.old) (H.view shelf.new) }
    ensures all_read { ((file : File) → result ≢ Err (Stop.AsPayment (payments.Read file))) → (H.view shelf.new).reads ≡ (H.view shelf.old).reads }
{
    let (held, request) = read_files(alloc, sources, payment, shelf)?;
    if !is_for_share(&request) {
        return Err(Stop::NotShare);
    }
    let ending = conclude(alloc, &held, &request)?;
    Ok(ending)
}

/// Funds a payment whose recipients bear the fee, each its share, with the request's tries: it reads the three files, writes the
/// log, and then prints the report to `out`. The coins are the lightest choice of the first of rows 1 and 2 that has one, and of
/// these the one that is worth least. Where the tries are used up it writes no log.
///
/// What is refused gets its fault line there. A request that isn't for `weight`, lists coins or names a payment to be replaced is
/// refused before anything of its plan. A recipient that can't bear its share is refused behind the searches, by its index,
/// and no log is written.
///
/// The clauses on content hold where the shelf and the sink tell theirs.
pub fn share<H: Shelf, O: Sink>(
    alloc: Global,
    sources: &Sources,
    payment: &Payment,
    shelf: &mut H,
    out: &mut O,
) -> Status
    // By the status: what was found in the files, what is in the log, and what the sink has got.
    ensures ends { Ends H.tells O.tells (plain_sources sources.now) (plain_payment payment.now) (H.view shelf.old) (H.view shelf.new) (O.view out.old) (O.view out.new) result }

    // Where the files are refused, and were read, the status is that of the refusal, even if the sink fails.
    ensures refused { H.tells → NoneUnread (plain_sources sources.now) (plain_payment payment.now) (H.view shelf.old) (H.view shelf.new) → IsRefusal (outcome_of (H.view shelf.old).files (plain_sources sources.now) (plain_payment payment.now)) → (result ≡ status_of (outcome_of (H.view shelf.old).files (plain_sources sources.now) (plain_payment payment.now))) ⊎ (result ≡ Status.Memory) }

    // Where no count rose, the status is that of what the files come to, or out of memory.
    ensures complete { H.tells → NoneFailed (plain_sources sources.now) (plain_payment payment.now) (H.view shelf.old) (H.view shelf.new) (O.view out.old) (O.view out.new) → (result ≡ status_of (outcome_of (H.view shelf.old).files (plain_sources sources.now) (plain_payment payment.now))) ⊎ (result ≡ Status.Memory) }

    // What stays: every file but the log, and the log too before it is written.
    ensures others { H.tells → SameElsewhere (plain_payment payment.now).log (H.view shelf.old).files (H.view shelf.new).files }
    ensures kept { H.tells → IsBeforeTheLog result → (H.view shelf.new).files ≡ (H.view shelf.old).files }

    // It asks for the wallet file, then for the block file, then for the request; and for no other name. Behind a file that is
    // refused it asks for none.
    ensures asked { H.tells → AsksInOrder (plain_sources sources.now) (plain_payment payment.now) (H.view shelf.old) (H.view shelf.new) }
    ensures none_behind { H.tells → NoneBehind (plain_sources sources.now) (H.view shelf.old) (H.view shelf.new) }

    // A read that failed is told as that, and as nothing else; so is a write that failed; and an output that failed is never told
    // as success.
    ensures all_read { result ≢ Status.ReadFault → (H.view shelf.new).reads ≡ (H.view shelf.old).reads }
    ensures all_written { result ≢ Status.WriteFault → (H.view shelf.new).writes ≡ (H.view shelf.old).writes }
    ensures all_put { TellsWhole result → TookAll (O.view out.old) (O.view out.new) }

    // No count falls.
    ensures reads { NeverFall (H.view shelf.old).reads (H.view shelf.new).reads }
    ensures writes { NeverFall (H.view shelf.old).writes (H.view shelf.new).writes }
    ensures counts { CountsNeverFall (O.view out.old) (O.view out.new) }
{
    let ending = match outcome(alloc, sources, payment, shelf) {
        Ok(ending) => ending,
        Err(stop) => return answer_stop(sources, payment, stop, out),
    };
    match ending {
        Ending::Unfinished(report) => put_report(&report, Status::Unfinished, out),
        Ending::NoSelection(texts) => {
            finish(
                payment.log,
                &texts.log,
                &texts.report,
                Status::NoSelection,
                shelf,
                out,
            )
        }
        Ending::Shared(texts) => {
            finish(
                payment.log,
                &texts.log,
                &texts.report,
                Status::Done,
                shelf,
                out,
            )
        }
    }
}
