//! A wallet behind which no block stands.

ghost use Rattle.std.specs.Prelude.{◌≡◌, [], None, IfErr, IfOk, OnOk};
ghost use Rattle.coin_book.specs.Faults.{fault_of};
ghost use Rattle.coin_book.specs.Watched.{everything};
ghost use Rattle.fund_files.specs.Alone.{StopsAlone};
ghost use Rattle.fund_files.specs.Chain.{IsChain, chain_from, history_of};
ghost use Rattle.wallet_text.specs.WalletRules.{IsWallet};

use crate::blocks::book_refusal;
use crate::booking::{Booked, add_waiting, begin_part};
use crate::chain::{Chain, Tip};
use crate::refusal::FileRefusal;
use crate::stop::Stop;
use coin_book::{WalletBook, Watched, Watching};
use fund_base::Memory;
use std::alloc::Global;
use wallet_text::Wallet;

/// The book that watches everything.
fn settled(book: Watching) -> WalletBook
    requires { book.watched ≡ everything }
    ensures { result ≡ book.history }
{
    match WalletBook::settled(book) {
        Some(book) => book,
        None => unreachable!(),
    }
}

/// A wallet behind which no block stands, the book of its coins, and its own height and hash as the tip. It is refused
/// exactly where no book holds its coins, or for being out of memory.
pub fn chain_of_wallet(alloc: Global, wallet: Wallet) -> Result<Chain, Stop>
    requires { IsWallet wallet }
    ensures value { IfOk result (λ k. k ≡ chain_from wallet []) }
    ensures held { IfOk result IsChain }
    ensures sound { OnOk result (fault_of (history_of wallet []) ≡ None) }
    ensures stop { IfErr result (StopsAlone wallet) }
{
    let watched = Watched::everything();
    let Ok(booked) = begin_part(alloc, &wallet, watched) else {
        return Err(Stop::Memory);
    };
    match add_waiting(booked, &wallet.pending) {
        Ok(Booked::Part(book)) => {
            let book = settled(book);
            let tip = Tip {
                height: wallet.height,
                hash: wallet.hash,
            };
            Ok(Chain { wallet, book, tip })
        }
        Ok(Booked::Whole(_)) => unreachable!(),
        Ok(Booked::Broken(fault)) => Err(Stop::Refused(book_refusal(fault))),
        Err(Memory) => Err(Stop::Memory),
    }
}
