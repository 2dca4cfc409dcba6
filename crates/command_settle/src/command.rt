//! The command.

ghost use Rattle.std.specs.Prelude.{◌≡◌, ◌≢◌};
ghost use Rattle.fund_shelf.specs.Causes.{CountsNeverFall, OnlyReads};
ghost use Rattle.command_end.specs.Printed.{TellsWhole, TookAll};
ghost use Rattle.command_settle.specs.Asked.{AsksFiles};
ghost use Rattle.command_settle.specs.Names.{plain_names};
ghost use Rattle.command_settle.specs.Statuses.{Ends, IsDueStatus};

use crate::answering::answer;
use crate::judging::settled;
use crate::names::SettleNames;
use command_end::{Status, put_report};
use fund_shelf::{Shelf, Sink};
use std::alloc::Global;

/// Tells whether a signed transaction is the payment of a report, and pays the rate of the request by what it truly weighs. It
/// reads the wallet, the request, the report and the transaction, and prints to `out` the txid, the weight in weight units, the
/// size in virtual bytes, the fee in satoshi, and what the inputs weigh less than was declared. No signature is checked.
///
/// The transaction is hex, with or without a line feed at the end (BIP 144). An input spends the output of the whole transaction
/// beside it in the PSBT, or else the output that stands there alone (BIP 174, types 00 and 01). It is declared to weigh what
/// the wallet lists with that output's script; the script for change isn't listed by that alone.
///
/// What is refused gets its fault line there. The files are refused first, and for the transaction before the report is
/// judged; the first rule of [`settle_check::SettleFault`] that is broken ends with [`Status::Settle`]. It writes no file.
///
/// The clauses on content hold where the shelf and the sink tell theirs.
pub fn settle_payment<H: Shelf, O: Sink>(
    alloc: Global,
    names: &SettleNames,
    shelf: &mut H,
    out: &mut O,
) -> Status
    // By the status: what was found in the files, and what the sink has got.
    ensures ends { Ends H.tells O.tells (plain_names names.now) (H.view shelf.old) (H.view shelf.new) (O.view out.old) (O.view out.new) result }

    // Where the payment isn't settled and the files were read, the status is that of the refusal, even if the sink fails. Where
    // no count rose, it is that of what the files come to. Out of memory may come in place of either.
    ensures due { IsDueStatus H.tells (plain_names names.now) (H.view shelf.old) (H.view shelf.new) (O.view out.old) (O.view out.new) result }

    // A read that failed is told as that, and as nothing else; an output that failed or found no memory is never told as a
    // settlement.
    ensures all_read { result ≢ Status.ReadFault → (H.view shelf.new).reads ≡ (H.view shelf.old).reads }
    ensures all_put { TellsWhole result → TookAll (O.view out.old) (O.view out.new) }

    // Nothing is written.
    ensures frame { OnlyReads H.tells (H.view shelf.old) (H.view shelf.new) }
    ensures counts { CountsNeverFall (O.view out.old) (O.view out.new) }

    // It asks for the wallet, the request, the report and the transaction, in this order, and for no other name; and behind a
    // file that is refused for none. The report is refused there for its length alone.
    ensures asks { H.tells → AsksFiles (plain_names names.now) (H.view shelf.old) (H.view shelf.new) }
{
    match settled(alloc, names, shelf) {
        Ok(text) => put_report(text.as_bytes(), Status::Done, out),
        Err(stop) => answer(names, stop, out),
    }
}
