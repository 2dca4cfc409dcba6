//! The files, read one by one.

ghost use Rattle.std.specs.Prelude.{◌≡◌, IfErr, IfOk, MatchResult};
ghost use Rattle.fund_shelf.specs.Causes.{OnlyReads};
ghost use Rattle.command_end.specs.Names.{plain_sources};
ghost use Rattle.command_keys.specs.Asked.{AsksInOrder, AsksUpTo};
ghost use Rattle.command_keys.specs.Results.{IsKeyedPrint};
ghost use Rattle.command_keys.specs.Stops.{StopsFor, TellsRead};

use crate::keyed::keyed_line;
use crate::stop::Stop;
use command_complete::completed;
use command_end::Sources;
use fund_shelf::Shelf;
use keys_files::read_keys_file;
use std::alloc::Global;

/// What is printed of the PSBT of the file `psbt`, made whole, with what the keys of the file `keys` tell of it; or why it isn't.
pub fn completed_keyed<H: Shelf>(
    alloc: Global,
    sources: &Sources,
    psbt: &str,
    keys: &str,
    shelf: &mut H,
) -> Result<Vec<u8>, Stop>
    ensures made { IfOk result (λ text. IsKeyedPrint H.tells (H.view shelf.old).files (plain_sources sources.now) psbt.now keys.now text.items) }
    ensures stop { IfErr result (StopsFor H.tells (plain_sources sources.now) psbt.now keys.now (H.view shelf.old) (H.view shelf.new)) }
    ensures frame { OnlyReads H.tells (H.view shelf.old) (H.view shelf.new) }
    ensures unfailed { MatchResult result (λ _. (H.view shelf.new).reads ≡ (H.view shelf.old).reads) (λ stop. (TellsRead stop → ⊥) → (H.view shelf.new).reads ≡ (H.view shelf.old).reads) }
    ensures asked { H.tells → AsksInOrder (plain_sources sources.now) psbt.now keys.now (H.view shelf.old) (H.view shelf.new) }
    ensures up_to { H.tells → IfErr result (AsksUpTo (plain_sources sources.now) psbt.now keys.now (H.view shelf.old) (H.view shelf.new)) }
{
    let whole = completed(alloc, sources, psbt, shelf)?;
    let known = read_keys_file(alloc, keys, shelf)?;
    let text = keyed_line(alloc, &whole, &known)?;
    Ok(text)
}
