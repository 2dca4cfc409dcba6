//! What the files of a payment hold.

ghost use Rattle.std.specs.Prelude.{◌≡◌, ◌≢◌, Err, IfErr, IfOk};
ghost use Rattle.fund_files.specs.declared.refusal.File.{File};
ghost use Rattle.fund_shelf.specs.Causes.{OnlyReads};
ghost use Rattle.command_end.specs.Names.{plain_sources};
ghost use Rattle.command_inputs.specs.Inputs.{AsksInOrder, NoneBehind};
ghost use Rattle.command_inputs.specs.Names.{plain_payment};
ghost use Rattle.command_amounts.specs.Files.{AreHeld, StopsAtFiles};

use command_end::Sources;
use command_inputs::{Payment, Stop};
use fund_files::{Chain, read_asked, read_chain};
use fund_shelf::Shelf;
use request_text::Request;
use std::alloc::Global;

/// What the files of a payment hold: the wallet, which is read first, then the blocks, then the request. A file that is refused
/// leaves those behind it unread.
pub fn read_files<H: Shelf>(
    alloc: Global,
    sources: &Sources,
    payment: &Payment,
    shelf: &mut H,
) -> Result<(Chain, Request), Stop>
    ensures held { IfOk result (λ x. AreHeld H.tells (H.view shelf.old).files (plain_sources sources.now) (plain_payment payment.now) x.0 x.1) }
    ensures frame { OnlyReads H.tells (H.view shelf.old) (H.view shelf.new) }
    ensures stop { IfErr result (StopsAtFiles H.tells (plain_sources sources.now) (plain_payment payment.now) (H.view shelf.old) (H.view shelf.new)) }
    ensures asked { H.tells → AsksInOrder (plain_sources sources.now) (plain_payment payment.now) (H.view shelf.old) (H.view shelf.new) }
    ensures none_behind { H.tells → NoneBehind (plain_sources sources.now) (H.view shelf.old) (H.view shelf.new) }
    // A count of failed reads rises only where one of the three files wasn't read.
    ensures all_read { ((file : File) → result ≢ Err (Stop.Read file)) → (H.view shelf.new).reads ≡ (H.view shelf.old).reads }
{
    let held = read_chain(alloc, sources.wallet, sources.blocks, shelf)?;
    let request = read_asked(alloc, payment.request, shelf)?;
    Ok((held, request))
}
