//! The files of a PSBT, read one by one.

ghost use Rattle.std.specs.Prelude.{◌≡◌, ◌≢◌, ◌∷◌, [], Err, IfErr, IfOk, MatchResult, OnOk};
ghost use Rattle.fund_shelf.specs.Causes.{Asks, OnlyReads};
ghost use Rattle.coin_book.specs.History.{History};
ghost use Rattle.fund_files.specs.Cause.{FileCause};
ghost use Rattle.fund_files.specs.FileStops.{IsWalletCause};
ghost use Rattle.command_end.specs.Names.{plain_sources};
ghost use Rattle.command_complete.specs.Asked.{AsksChain, AsksInOrder, AsksUpTo};
ghost use Rattle.command_complete.specs.Outcome.{HasBook, IsWithin};
ghost use Rattle.command_complete.specs.Statuses.{IsPrinted};
ghost use Rattle.command_complete.specs.Stops.{StopsFor, StopsReading, TellsRead, read_stop_of};

use crate::making::made;
use crate::stop::Stop;
use command_end::Sources;
use fund_files::read_chain;
use fund_shelf::{ReadError, Shelf, read_whole};
use std::alloc::Global;

/// The greatest length of a PSBT file, in bytes.
const LIMIT: usize = 67_108_864;

/// Why the reading stops at a PSBT file that wasn't read whole.
fn read_stop(error: ReadError) -> Stop
    ensures { result ≡ read_stop_of error }
{
    match error {
        ReadError::Failed => Stop::Read,
        ReadError::TooLong => Stop::TooLong,
        ReadError::Memory => Stop::Memory,
    }
}

/// The bytes of the PSBT file, which has this name and at most 67,108,864 bytes.
fn read_file<H: Shelf>(alloc: Global, name: &str, shelf: &mut H) -> Result<Vec<u8>, Stop>
    ensures bytes { H.tells → IfOk result (λ bytes. bytes.items ≡ (H.view shelf.old).files name.now) }
    ensures fits { H.tells → OnOk result (IsWithin ((H.view shelf.old).files name.now)) }
    ensures frame { OnlyReads H.tells (H.view shelf.old) (H.view shelf.new) }
    ensures stop { IfErr result (StopsReading H.tells name.now (H.view shelf.old) (H.view shelf.new)) }
    ensures unfailed { result ≢ Err Stop.Read → (H.view shelf.new).reads ≡ (H.view shelf.old).reads }
    ensures asked { H.tells → Asks (name.now ∷ []) (H.view shelf.old).asked (H.view shelf.new).asked }
{
    match read_whole(alloc, shelf, name, LIMIT) {
        Ok(bytes) => Ok(bytes),
        Err(error) => Err(read_stop(error)),
    }
}

/// What is printed of the PSBT of the file `psbt`, made whole; or why it isn't.
pub fn completed<H: Shelf>(
    alloc: Global,
    sources: &Sources,
    psbt: &str,
    shelf: &mut H,
) -> Result<Vec<u8>, Stop>
    ensures made { IfOk result (λ text. IsPrinted H.tells (H.view shelf.old).files (plain_sources sources.now) psbt.now text.items) }
    ensures frame { OnlyReads H.tells (H.view shelf.old) (H.view shelf.new) }
    ensures stop { IfErr result (StopsFor H.tells (plain_sources sources.now) psbt.now (H.view shelf.old) (H.view shelf.new)) }
    ensures unfailed { MatchResult result (λ _. (H.view shelf.new).reads ≡ (H.view shelf.old).reads) (λ stop. (TellsRead stop → ⊥) → (H.view shelf.new).reads ≡ (H.view shelf.old).reads) }
    ensures asked { H.tells → AsksInOrder (plain_sources sources.now) psbt.now (H.view shelf.old) (H.view shelf.new) }
    ensures up_to { H.tells → IfErr result (AsksUpTo (plain_sources sources.now) psbt.now (H.view shelf.old) (H.view shelf.new)) }
    ensures refused_alone { H.tells → (cause : FileCause) → IsWalletCause ((H.view shelf.old).files sources.now.wallet.now) cause → Asks (sources.now.wallet.now ∷ []) (H.view shelf.old).asked (H.view shelf.new).asked }
    ensures chain_alone { H.tells → ((h : History) → HasBook (H.view shelf.old).files (plain_sources sources.now) h → ⊥) → AsksChain (plain_sources sources.now) (H.view shelf.old) (H.view shelf.new) }
{
    let held = read_chain(alloc, sources.wallet, sources.blocks, shelf)?;
    let file = read_file(alloc, psbt, shelf)?;
    made(alloc, &held, &file)
}
