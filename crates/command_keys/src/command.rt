//! The command.

ghost use Rattle.std.specs.Prelude.{◌≡◌, ◌≢◌};
ghost use Rattle.fund_shelf.specs.Causes.{CountsNeverFall, OnlyReads};
ghost use Rattle.command_end.specs.Names.{plain_sources};
ghost use Rattle.command_end.specs.Printed.{TellsWhole, TookAll};
ghost use Rattle.command_keys.specs.Asked.{AsksInOrder};
ghost use Rattle.command_keys.specs.Results.{Ends};

use crate::answer::answer;
use crate::files::completed_keyed;
use command_end::{Sources, Status, put_report};
use fund_shelf::{Shelf, Sink};
use std::alloc::Global;

/// Makes the PSBT of the file `psbt` whole, as [`command_complete::complete`] does, and adds what the keys file `keys` tells of it:
/// beside each input how the keys of its script are derived and the scripts that a signer needs, the same beside each output whose
/// script the file lists, and in the global map the extended public keys (BIP 174, types 04, 05 and 06 of an input, 00, 01 and 02 of
/// an output and 01 of the global map; BIP 371, types 16 and 17, and 05 and 07). It prints that PSBT to `out`, in base64 and a line
/// feed.
///
/// It reads the wallet, the blocks and the PSBT, and then the keys file, of at most 16,777,216 bytes. What is refused gets its fault
/// line. It writes no file. The clauses on content hold where the shelf and the sink tell theirs.
pub fn complete_keyed<H: Shelf, O: Sink>(
    alloc: Global,
    sources: &Sources,
    psbt: &str,
    keys: &str,
    shelf: &mut H,
    out: &mut O,
) -> Status
    // The PSBT with its keys is put; or the command stops, for a cause that is there, with the line and the status of that.
    ensures ends { Ends H.tells O.tells (plain_sources sources.now) psbt.now keys.now (H.view shelf.old) (H.view shelf.new) (O.view out.old) (O.view out.new) result }

    // Nothing is written; a read that failed is told as that, and as nothing else; and an output that failed or found no memory
    // is never told as a PSBT with its keys.
    ensures frame { OnlyReads H.tells (H.view shelf.old) (H.view shelf.new) }
    ensures all_read { result ≢ Status.ReadFault → (H.view shelf.new).reads ≡ (H.view shelf.old).reads }
    ensures all_put { TellsWhole result → TookAll (O.view out.old) (O.view out.new) }
    ensures counts { CountsNeverFall (O.view out.old) (O.view out.new) }

    // It asks for the wallet file, the block file, the PSBT file and the keys file, in this order, and for no other name.
    ensures asked { H.tells → AsksInOrder (plain_sources sources.now) psbt.now keys.now (H.view shelf.old) (H.view shelf.new) }
{
    match completed_keyed(alloc, sources, psbt, keys, shelf) {
        Ok(text) => put_report(&text, Status::Done, out),
        Err(stop) => answer(sources, psbt, keys, stop, out),
    }
}
