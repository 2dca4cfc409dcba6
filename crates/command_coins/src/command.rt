//! The command.

ghost use Rattle.std.specs.Prelude.{◌≡◌, ◌≢◌, [], ◌∷◌, true, IfErr, IfOk, string_bytes};
ghost use Rattle.fund_shelf.specs.Causes.{Asks, CountsNeverFall, OnlyReads};
ghost use Rattle.fund_files.specs.Cause.{FileCause};
ghost use Rattle.fund_files.specs.FileStops.{IsWalletCause, StopsChain, is_of_wallet};
ghost use Rattle.command_end.specs.Names.{plain_sources};
ghost use Rattle.command_end.specs.Printed.{TellsWhole, TookAll};
ghost use Rattle.command_coins.specs.Statuses.{Ends, IsListed};
ghost use Rattle.command_end.specs.ChainAnswer.{AsksToUnread};

use crate::chain_listing::listing_text;
use command_end::{Sources, Status, put_report, refuse_chain};
use fund_base::Memory;
use fund_files::{File, Stop, read_chain};
use fund_shelf::{Shelf, Sink};
use std::alloc::Global;

/// The listing, or why the command stops.
fn listed<H: Shelf>(alloc: Global, sources: &Sources, shelf: &mut H) -> Result<String, Stop>
    ensures lists { IfOk result (λ text. IsListed H.tells (H.view shelf.old).files (plain_sources sources.now) (string_bytes text)) }
    ensures frame { OnlyReads H.tells (H.view shelf.old) (H.view shelf.new) }
    ensures stop { IfErr result (StopsChain H.tells sources.now.wallet.now sources.now.blocks.now (H.view shelf.old) (H.view shelf.new)) }
    ensures asked { H.tells → Asks (sources.now.wallet.now ∷ sources.now.blocks.now ∷ []) (H.view shelf.old).asked (H.view shelf.new).asked }
    ensures wallet_alone { H.tells → IfErr result (λ stop. is_of_wallet stop ≡ true → Asks (sources.now.wallet.now ∷ []) (H.view shelf.old).asked (H.view shelf.new).asked) }
    ensures refused_alone { H.tells → (cause : FileCause) → IsWalletCause ((H.view shelf.old).files sources.now.wallet.now) cause → Asks (sources.now.wallet.now ∷ []) (H.view shelf.old).asked (H.view shelf.new).asked }
    ensures all_read { ((file : File) → result ≢ Err (Stop.Read file)) → (H.view shelf.new).reads ≡ (H.view shelf.old).reads }
{
    let held = read_chain(alloc, sources.wallet, sources.blocks, shelf)?;
    match listing_text(alloc, &held) {
        Ok(text) => Ok(text),
        Err(Memory) => Err(Stop::Memory),
    }
}

/// Lists the pending payments of the wallet and the coins that may be spent: it reads the two files, and prints the listing
/// to `out`. What is refused gets its fault line there. It writes no file.
///
/// The clauses on content hold where the shelf and the sink tell theirs.
pub fn coins<H: Shelf, O: Sink>(
    alloc: Global,
    sources: &Sources,
    shelf: &mut H,
    out: &mut O,
) -> Status
    // By the status: what was found in the files, and what the sink has got.
    ensures ends { Ends H.tells O.tells (plain_sources sources.now) (H.view shelf.old) (H.view shelf.new) (O.view out.old) (O.view out.new) result }
    // A read that failed is told as that, and as nothing else; an output that failed is never told as a listing.
    ensures all_read { result ≢ Status.ReadFault → (H.view shelf.new).reads ≡ (H.view shelf.old).reads }
    ensures all_put { TellsWhole result → TookAll (O.view out.old) (O.view out.new) }
    // Nothing is written.
    ensures frame { OnlyReads H.tells (H.view shelf.old) (H.view shelf.new) }

    // It asks for the wallet file, and then for the block file; for none after one that wasn't read, and for none after a
    // wallet file that is refused.
    ensures asked { H.tells → Asks (sources.now.wallet.now ∷ sources.now.blocks.now ∷ []) (H.view shelf.old).asked (H.view shelf.new).asked }
    ensures unread_last { H.tells → result ≡ Status.ReadFault → AsksToUnread (plain_sources sources.now) (H.view shelf.old) (H.view shelf.new) }
    ensures refused_alone { H.tells → (cause : FileCause) → IsWalletCause ((H.view shelf.old).files sources.now.wallet.now) cause → Asks (sources.now.wallet.now ∷ []) (H.view shelf.old).asked (H.view shelf.new).asked }
    ensures counts { CountsNeverFall (O.view out.old) (O.view out.new) }
{
    match listed(alloc, sources, shelf) {
        Ok(text) => put_report(text.as_bytes(), Status::Done, out),
        Err(stop) => refuse_chain(sources, stop, out),
    }
}
