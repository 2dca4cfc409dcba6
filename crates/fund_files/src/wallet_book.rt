//! The book of a wallet, read in no more memory than the wallet needs.

ghost use Rattle.std.specs.Prelude.{◌≡◌, true, All, IfErr, IfOk, IfSome, IsErrOf, IsSome, Some};
ghost use Rattle.fund_shelf.specs.Causes.{ReadsOne};
ghost use Rattle.coin_book.specs.Watched.{IsWatched, everything};
ghost use Rattle.fund_files.specs.FileStops.{IsBlocksStop};
ghost use Rattle.fund_files.specs.Joined.{IsBookAfter};
ghost use Rattle.sha2.specs.Sha256.{sha256};
ghost use Rattle.wallet_text.specs.WalletRules.{IsWallet};

use crate::blocks::{book_refusal, booked_from, feed_behind};
use crate::booking::{Booked, begin_part};
use crate::chain::Tip;
use crate::first_pass::look_through;
use crate::paid::Paid;
use crate::refusal::File;
use crate::stop::Stop;
use crate::watched::watched_for;
use coin_book::{WalletBook, Watched};
use fund_base::Memory;
use fund_shelf::{Fault, Shelf};
use std::alloc::Global;
use wallet_text::Wallet;

/// The book of a wallet and of the blocks that were read, the tip, and the SHA-256 of the block file, if it was asked for.
#[derive(Drop)]
pub struct ReadBook {
    /// The book.
    pub book: WalletBook,
    /// The last block, or the wallet's where there is none.
    pub tip: Tip,
    /// The SHA-256 of the bytes that were read.
    pub digest: Option<[u8; 32]>,
}

/// Why the reading stops at a block file that wasn't read.
fn unread_stop(fault: Fault) -> Stop
    ensures failed { fault ≡ Fault.Failed → result ≡ Stop.Read File.Blocks }
    ensures memory { fault ≡ Fault.Memory → result ≡ Stop.Memory }
{
    match fault {
        Fault::Failed => Stop::Read(File::Blocks),
        Fault::Memory => Stop::Memory,
    }
}

/// What is watched for the wallet: what it spends and has waiting, and the outpoints that pay a script of it, as a first
/// reading of the file `name` finds them.
fn watched_from<H: Shelf>(
    alloc: Global,
    shelf: &mut H,
    name: &str,
    wallet: &Wallet,
) -> Result<Watched, Stop>
    ensures waiting { IfOk result (λ w. All (IsWatched w) wallet.now.pending) }
    ensures stop { IfErr result (IsBlocksStop H.tells wallet.now ((H.view shelf.old).files name.now)) }
    ensures frame { ReadsOne H.tells (IsErrOf result (Stop.Read File.Blocks)) name.now (H.view shelf.old) (H.view shelf.new) }
{
    let Ok(mut paid) = Paid::of(alloc, wallet) else {
        return Err(Stop::Memory);
    };
    if let Err(fault) = look_through(alloc, shelf, name, &mut paid) {
        return Err(unread_stop(fault));
    }
    match watched_for(alloc, paid.into_points(), &wallet.pending) {
        Ok(watched) => Ok(watched),
        Err(Memory) => Err(Stop::Memory),
    }
}

/// The book of the wallet and of the blocks of the file `name`, by what is watched. None where an outpoint at which a coin
/// stands isn't watched, which never comes where everything is.
fn settled_from<H: Shelf>(
    alloc: Global,
    shelf: &mut H,
    name: &str,
    wallet: &Wallet,
    watched: Watched,
    with_digest: bool,
) -> Result<Option<ReadBook>, Stop>
    requires rules { IsWallet wallet.now }
    requires waiting { All (IsWatched watched) wallet.now.pending }
    ensures held { IfOk result (λ o. IfSome o (λ r. IsBookAfter H.tells ((H.view shelf.old).files name.now) wallet.now r.book r.tip)) }
    ensures digest { H.tells → with_digest ≡ true → IfOk result (λ o. IfSome o (λ r. r.digest ≡ Some (sha256 ((H.view shelf.old).files name.now)))) }
    ensures settled { watched ≡ everything → IfOk result IsSome }
    ensures stop { IfErr result (IsBlocksStop H.tells wallet.now ((H.view shelf.old).files name.now)) }
    ensures frame { ReadsOne H.tells (IsErrOf result (Stop.Read File.Blocks)) name.now (H.view shelf.old) (H.view shelf.new) }
{
    let Ok(booked) = begin_part(alloc, wallet, watched) else {
        return Err(Stop::Memory);
    };
    let mut feed = feed_behind(wallet, with_digest);
    let (booked, tip) = booked_from(alloc, shelf, name, wallet, booked, &mut feed)?;
    match booked {
        Booked::Part(book) => match WalletBook::settled(book) {
            Some(book) => {
                let digest = feed.digest();
                Ok(Some(ReadBook { book, tip, digest }))
            }
            None => Ok(None),
        },
        Booked::Whole(_) => unreachable!(),
        Booked::Broken(fault) => Err(Stop::Refused(book_refusal(fault))),
    }
}

/// The book of the wallet and of the blocks of the file `name`, which watches everything.
fn watchful_from<H: Shelf>(
    alloc: Global,
    shelf: &mut H,
    name: &str,
    wallet: &Wallet,
    with_digest: bool,
) -> Result<ReadBook, Stop>
    requires { IsWallet wallet.now }
    ensures held { IfOk result (λ r. IsBookAfter H.tells ((H.view shelf.old).files name.now) wallet.now r.book r.tip) }
    ensures digest { H.tells → with_digest ≡ true → IfOk result (λ r. r.digest ≡ Some (sha256 ((H.view shelf.old).files name.now))) }
    ensures stop { IfErr result (IsBlocksStop H.tells wallet.now ((H.view shelf.old).files name.now)) }
    ensures frame { ReadsOne H.tells (IsErrOf result (Stop.Read File.Blocks)) name.now (H.view shelf.old) (H.view shelf.new) }
{
    let watched = Watched::everything();
    match settled_from(alloc, shelf, name, wallet, watched, with_digest) {
        Ok(Some(read)) => Ok(read),
        Ok(None) => unreachable!(),
        Err(stop) => Err(stop),
    }
}

/// The book of the wallet and of the blocks of the file `name`, and the tip. The file is read twice: a first reading finds
/// the outpoints that pay a script of the wallet, and the book then watches these and what the wallet has waiting. Where a
/// coin of the book isn't watched, as the file has changed in between, it is read once more into a book that watches
/// everything. What is said of the result speaks of the last reading.
pub fn wallet_book_from<H: Shelf>(
    alloc: Global,
    shelf: &mut H,
    name: &str,
    wallet: &Wallet,
    with_digest: bool,
) -> Result<ReadBook, Stop>
    requires { IsWallet wallet.now }
    ensures held { IfOk result (λ r. IsBookAfter H.tells ((H.view shelf.old).files name.now) wallet.now r.book r.tip) }
    ensures digest { H.tells → with_digest ≡ true → IfOk result (λ r. r.digest ≡ Some (sha256 ((H.view shelf.old).files name.now))) }
    ensures stop { IfErr result (IsBlocksStop H.tells wallet.now ((H.view shelf.old).files name.now)) }
    ensures frame { ReadsOne H.tells (IsErrOf result (Stop.Read File.Blocks)) name.now (H.view shelf.old) (H.view shelf.new) }
{
    let watched = watched_from(alloc, shelf, name, wallet)?;
    match settled_from(alloc, shelf, name, wallet, watched, with_digest) {
        Ok(Some(read)) => Ok(read),
        Ok(None) => watchful_from(alloc, shelf, name, wallet, with_digest),
        Err(stop) => Err(stop),
    }
}
