//! The blocks of the block file, read one by one into a book.

ghost use Rattle.std.specs.Prelude.{◌≡◌, ◌≢◌, false, true, Ok, Err, IfErr, IsErrOf, IsSome, IfOk, OnOk, Option};
ghost use Rattle.fund_shelf.specs.Causes.{ReadsOne};
ghost use Rattle.block_feed.specs.Blocks.{blocks_of};
ghost use Rattle.block_feed.specs.Digest.{IsDigest};
ghost use Rattle.coin_book.specs.History.{start_of};
ghost use Rattle.coin_book.specs.Watched.{PlainWatched};
ghost use Rattle.fund_files.specs.Booked.{CanWait, IsBooked, IsRead, IsReadAll, Keeps, StartsBehind};
ghost use Rattle.fund_files.specs.Cause.{cause_of};
ghost use Rattle.fund_files.specs.FileStops.{IsBlocksStop, is_of_wallet, stop_of};
ghost use Rattle.fund_files.specs.Joined.{IsBookAfter};
ghost use Rattle.fund_files.specs.Outcome.{book_cause};
ghost use Rattle.wallet_text.specs.WalletRules.{IsWallet};

use crate::booking::{Booked, add_block, add_waiting, begin_whole};
use crate::chain::Tip;
use crate::refusal::{File, FileRefusal};
use crate::stop::Stop;
use block_feed::{Feed, FeedFault};
use coin_book::{Book, BookFault};
use fund_base::Memory;
use fund_shelf::Shelf;
use std::alloc::Global;
use wallet_text::Wallet;

/// A feed of the blocks that stand behind the wallet's. Where it is asked to, it computes the SHA-256 of the block file.
pub fn feed_behind(wallet: &Wallet, with_digest: bool) -> Feed
    ensures starts { StartsBehind wallet.now result }
    ensures asked_for { with_digest ≡ true → IsSome result.hasher }
{
    if with_digest {
        Feed::with_digest(wallet.hash, wallet.height)
    } else {
        Feed::new(wallet.hash, wallet.height)
    }
}

/// What a book that was begun with the wallet's earlier transactions makes with those of the file `name`, whose blocks stand
/// behind the wallet's, and the tip. The file is read to its end whatever the book says, and the feed then has its digest, if
/// it computes one. The error is the first fault of the file.
fn read_blocks<H: Shelf>(
    alloc: Global,
    shelf: &mut H,
    name: &str,
    wallet: &Wallet,
    booked: Booked,
    feed: &mut Feed,
) -> Result<(Booked, Tip), FeedFault>
    requires rules { IsWallet wallet.now }
    requires starts { StartsBehind wallet.now feed.old }
    requires begun { IsBooked booked (start_of wallet.now) }
    ensures read { IfOk result (λ r. IsRead H.tells ((H.view shelf.old).files name.now) wallet.now r.1 r.0) }
    ensures keeps { (kept : Option PlainWatched) → Keeps kept booked → IfOk result (λ r. Keeps kept r.0) }
    ensures digest { H.tells → OnOk result (IsDigest feed.old.hasher ((H.view shelf.old).files name.now) feed.new.digest) }
    ensures fault { H.tells → IfErr result (λ e. e ≢ FeedFault.Memory → e ≢ FeedFault.Read → blocks_of ((H.view shelf.old).files name.now) wallet.now.hash wallet.now.height ≡ Err e) }
    ensures frame { ReadsOne H.tells (IsErrOf result FeedFault.Read) name.now (H.view shelf.old) (H.view shelf.new) }
{
    let mut booked = booked;
    let mut tip = Tip {
        height: wallet.height,
        hash: wallet.hash,
    };
    'reading: for _ in 0..u64::MAX {
        let Some(block) = feed.next_raw(alloc, shelf, name)? else {
            return Ok((booked, tip));
        };
        if let Err(Memory) = add_block(&mut booked, &block) {
            return Err(FeedFault::Memory);
        }
        tip = Tip {
            height: block.height,
            hash: block.hash,
        };
    }
    Err(FeedFault::Memory)
}

/// Why the reading of the blocks stops, as a stop.
fn blocks_stop(fault: FeedFault) -> Stop
    ensures stop { result ≡ stop_of fault }
    ensures own { is_of_wallet result ≡ false }
    ensures memory { result ≡ Stop.Memory → fault ≡ FeedFault.Memory }
{
    match fault {
        FeedFault::Read => Stop::Read(File::Blocks),
        FeedFault::Memory => Stop::Memory,
        FeedFault::Limit => Stop::Refused(FileRefusal::TooLong(File::Blocks)),
        _ => Stop::Refused(FileRefusal::BadBlocks(fault)),
    }
}

/// Why a history is refused.
pub fn book_refusal(fault: BookFault) -> FileRefusal
    ensures cause { cause_of result ≡ book_cause fault }
    ensures own { is_of_wallet (Stop.Refused result) ≡ false }
{
    match fault {
        BookFault::RepeatCoin(coin) => FileRefusal::RepeatCoin(coin),
        _ => FileRefusal::ManyCoins,
    }
}

/// What a book that was begun with the wallet's earlier transactions makes with the blocks of the file `name` and with the
/// transactions that wait, and the tip. The feed then has the digest of the file, if it computes one.
pub fn booked_from<H: Shelf>(
    alloc: Global,
    shelf: &mut H,
    name: &str,
    wallet: &Wallet,
    booked: Booked,
    feed: &mut Feed,
) -> Result<(Booked, Tip), Stop>
    requires rules { IsWallet wallet.now }
    requires starts { StartsBehind wallet.now feed.old }
    requires begun { IsBooked booked (start_of wallet.now) }
    requires watched { CanWait booked wallet.now.pending }
    ensures read { IfOk result (λ r. IsReadAll H.tells ((H.view shelf.old).files name.now) wallet.now r.1 r.0) }
    ensures keeps { (kept : Option PlainWatched) → Keeps kept booked → IfOk result (λ r. Keeps kept r.0) }
    ensures digest { H.tells → OnOk result (IsDigest feed.old.hasher ((H.view shelf.old).files name.now) feed.new.digest) }
    ensures stop { IfErr result (IsBlocksStop H.tells wallet.now ((H.view shelf.old).files name.now)) }
    ensures frame { ReadsOne H.tells (IsErrOf result (Stop.Read File.Blocks)) name.now (H.view shelf.old) (H.view shelf.new) }
{
    let (booked, tip) = match read_blocks(alloc, shelf, name, wallet, booked, feed) {
        Ok(read) => read,
        Err(fault) => return Err(blocks_stop(fault)),
    };
    match add_waiting(booked, &wallet.pending) {
        Ok(booked) => Ok((booked, tip)),
        Err(Memory) => Err(Stop::Memory),
    }
}

/// The book of the wallet and of the blocks of the file `name`, which keeps all that the chain spends, and the tip.
pub fn whole_book_from<H: Shelf>(
    alloc: Global,
    shelf: &mut H,
    name: &str,
    wallet: &Wallet,
) -> Result<(Book, Tip), Stop>
    requires { IsWallet wallet.now }
    ensures held { IfOk result (λ r. IsBookAfter H.tells ((H.view shelf.old).files name.now) wallet.now r.0 r.1) }
    ensures stop { IfErr result (IsBlocksStop H.tells wallet.now ((H.view shelf.old).files name.now)) }
    ensures frame { ReadsOne H.tells (IsErrOf result (Stop.Read File.Blocks)) name.now (H.view shelf.old) (H.view shelf.new) }
{
    let Ok(booked) = begin_whole(alloc, wallet) else {
        return Err(Stop::Memory);
    };
    let mut feed = feed_behind(wallet, false);
    let (booked, tip) = booked_from(alloc, shelf, name, wallet, booked, &mut feed)?;
    match booked {
        Booked::Whole(book) => Ok((book, tip)),
        Booked::Part(_) => unreachable!(),
        Booked::Broken(fault) => Err(Stop::Refused(book_refusal(fault))),
    }
}
