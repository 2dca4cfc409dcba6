//! What the run of a script starts from: the desk of a wallet and its blocks, and the text of the script.

ghost use Rattle.std.specs.Prelude.{◌≡◌, ◌≢◌, ◌≤◌, [], ◌∷◌, IfErr, IfOk, OnOk, length};
ghost use Rattle.fund_shelf.specs.Causes.{Asks, OnlyReads};
ghost use Rattle.fund_files.specs.Chain.{IsChain};
ghost use Rattle.fund_files.specs.declared.refusal.File.{File};
ghost use Rattle.command_end.specs.Names.{plain_sources};
ghost use Rattle.desk_machine.specs.State.{new_desk};
ghost use Rattle.command_desk.specs.Asked.{NoneBehind, first_names};
ghost use Rattle.command_desk.specs.Starts.{StartsFrom};
ghost use Rattle.command_desk.specs.Stops.{StopsFor, StopsReading};

use crate::stop::{Stop, read_stop};
use command_end::Sources;
use fund_base::Memory;
use fund_desk::Desk;
use fund_files::{Stop as ChainStop, WholeChain, read_whole_chain};
use fund_shelf::{Shelf, read_whole};
use std::alloc::Global;

/// The greatest length of a script, in bytes.
const SCRIPT_LIMIT: usize = 16_777_216;

/// A desk, and the text of a script.
#[derive(Drop)]
pub struct Start {
    /// The desk, with no job open.
    pub desk: Desk,
    /// The bytes of the script.
    pub text: Vec<u8>,
}

/// The desk of a wallet and its chain, at which nothing was done yet. The error is out of memory.
fn desk_of(alloc: Global, held: WholeChain) -> Result<Desk, Memory>
    requires { IsChain held }
    ensures { IfOk result (λ d. d ≡ new_desk held) }
{
    let WholeChain { wallet, book, tip } = held;
    Desk::new(alloc, wallet, book, tip.height, tip.hash)
}

/// The text of the script of this name, of at most 16,777,216 bytes.
fn script_text<H: Shelf>(alloc: Global, script: &str, shelf: &mut H) -> Result<Vec<u8>, Stop>
    ensures text { H.tells → IfOk result (λ text. text.items ≡ (H.view shelf.old).files script.now) }
    ensures fits { H.tells → OnOk result (length ((H.view shelf.old).files script.now) ≤ SCRIPT_LIMIT) }
    ensures frame { OnlyReads H.tells (H.view shelf.old) (H.view shelf.new) }
    ensures stop { IfErr result (StopsReading H.tells script.now (H.view shelf.old) (H.view shelf.new)) }
    ensures asked { H.tells → Asks (script.now ∷ []) (H.view shelf.old).asked (H.view shelf.new).asked }
    ensures all_read { result ≢ Err Stop.Unread → (H.view shelf.new).reads ≡ (H.view shelf.old).reads }
{
    match read_whole(alloc, shelf, script, SCRIPT_LIMIT) {
        Ok(text) => Ok(text),
        Err(error) => Err(read_stop(error)),
    }
}

/// The desk of a wallet and its chain, and the text of the script, which is read.
fn start_with<H: Shelf>(
    alloc: Global,
    held: WholeChain,
    script: &str,
    shelf: &mut H,
) -> Result<Start, Stop>
    requires { IsChain held }
    ensures desk { IfOk result (λ x. x.desk ≡ new_desk held) }
    ensures text { H.tells → IfOk result (λ x. x.text.items ≡ (H.view shelf.old).files script.now) }
    ensures fits { H.tells → OnOk result (length ((H.view shelf.old).files script.now) ≤ SCRIPT_LIMIT) }
    ensures frame { OnlyReads H.tells (H.view shelf.old) (H.view shelf.new) }
    ensures stop { IfErr result (StopsReading H.tells script.now (H.view shelf.old) (H.view shelf.new)) }
    ensures asked { H.tells → Asks (script.now ∷ []) (H.view shelf.old).asked (H.view shelf.new).asked }
    ensures all_read { result ≢ Err Stop.Unread → (H.view shelf.new).reads ≡ (H.view shelf.old).reads }
{
    match script_text(alloc, script, shelf) {
        Ok(text) => match desk_of(alloc, held) {
            Ok(desk) => Ok(Start { desk, text }),
            Err(Memory) => Err(Stop::Memory),
        },
        Err(stop) => Err(stop),
    }
}

/// Reads the wallet, the blocks and then the script. Nothing is read behind a file that isn't read or is refused.
pub fn read_start<H: Shelf>(
    alloc: Global,
    sources: &Sources,
    script: &str,
    shelf: &mut H,
) -> Result<Start, Stop>
    ensures starts { IfOk result (λ x. StartsFrom H.tells (H.view shelf.old).files (plain_sources sources.now) script.now x.text.items x.desk) }
    ensures frame { OnlyReads H.tells (H.view shelf.old) (H.view shelf.new) }
    ensures stop { IfErr result (StopsFor H.tells (plain_sources sources.now) script.now (H.view shelf.old) (H.view shelf.new)) }
    ensures asked { H.tells → Asks (first_names (plain_sources sources.now) script.now) (H.view shelf.old).asked (H.view shelf.new).asked }
    ensures all_read { result ≢ Err Stop.Unread → ((file : File) → result ≢ Err (Stop.Chain (ChainStop.Read file))) → (H.view shelf.new).reads ≡ (H.view shelf.old).reads }
    ensures none_behind { H.tells → NoneBehind (plain_sources sources.now) script.now (H.view shelf.old) (H.view shelf.new) }
{
    match read_whole_chain(alloc, sources.wallet, sources.blocks, shelf) {
        Ok(held) => start_with(alloc, held, script, shelf),
        Err(stop) => Err(Stop::Chain(stop)),
    }
}
