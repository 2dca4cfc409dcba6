//! The commands beside funding, and what they do.

ghost use Rattle.std.specs.Prelude.{◌≡◌, ◌≢◌};
ghost use Rattle.fund_shelf.specs.Causes.{CountsNeverFall};
ghost use Rattle.command_end.specs.Printed.{TellsWhole, TookAll};
ghost use Rattle.command_inputs.specs.Results.{IsBeforeTheLog};
ghost use Rattle.further_commands.specs.Asked.{AsksFor};
ghost use Rattle.further_commands.specs.Command.{plain};
ghost use Rattle.further_commands.specs.Statuses.{Ends, KeepsOthers};

use command_end::{Sources, Status};
use command_inputs::Payment;
use command_settle::{SettleNames, settle_payment};
use command_share::share;
use command_sweep::sweep;
use command_wide::wide;
use fund_shelf::{Shelf, Sink};
use std::alloc::Global;

/// What is to be done.
#[derive(Clone, Copy)]
pub enum FurtherCommand<'a> {
    /// To fund a payment without change by the wide search.
    Wide(Sources<'a>, Payment<'a>),
    /// To tell whether a signed transaction is the payment of a report.
    Settle(SettleNames<'a>),
    /// To fund a payment whose recipients bear the fee.
    Share(Sources<'a>, Payment<'a>),
    /// To pay all coins to the one recipient of the request, which is the file of this name.
    Sweep(Sources<'a>, &'a str),
}

/// Does the command. What is refused gets its fault line. The clauses on content hold where the shelf and the sink tell theirs.
pub fn act<H: Shelf, O: Sink>(
    alloc: Global,
    command: &FurtherCommand,
    shelf: &mut H,
    out: &mut O,
) -> Status
    // By the status: what was found in the files, what is in the log, and what the sink has got.
    ensures ends { Ends H.tells O.tells (plain command.now) (H.view shelf.old) (H.view shelf.new) (O.view out.old) (O.view out.new) result }
    // What stays: every file but the log of a payment, and the log too before it is written.
    ensures others { H.tells → KeepsOthers (plain command.now) (H.view shelf.old).files (H.view shelf.new).files }
    ensures kept { H.tells → IsBeforeTheLog result → (H.view shelf.new).files ≡ (H.view shelf.old).files }
    // Only the files that the command names are asked for, in their order, and after a file that is refused none.
    ensures asked { H.tells → AsksFor (plain command.now) (H.view shelf.old) (H.view shelf.new) }
    // A failed read or write is told as that. A failed output is never told as success.
    ensures all_read { result ≢ Status.ReadFault → (H.view shelf.new).reads ≡ (H.view shelf.old).reads }
    ensures all_written { result ≢ Status.WriteFault → (H.view shelf.new).writes ≡ (H.view shelf.old).writes }
    ensures all_put { TellsWhole result → TookAll (O.view out.old) (O.view out.new) }
    ensures counts { CountsNeverFall (O.view out.old) (O.view out.new) }
{
    match command {
        FurtherCommand::Wide(sources, payment) => wide(alloc, sources, payment, shelf, out),
        FurtherCommand::Settle(names) => settle_payment(alloc, names, shelf, out),
        FurtherCommand::Share(sources, payment) => share(alloc, sources, payment, shelf, out),
        FurtherCommand::Sweep(sources, request) => sweep(alloc, sources, request, shelf, out),
    }
}
