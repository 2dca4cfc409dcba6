//! Books of coins, made of a wallet and its blocks.

ghost use Rattle.std.specs.Prelude.{◌≡◌, []};

use crate::feeds::{FILE, files_of};
use crate::shown::put_shown;
use block_feed::Feed;
use coin_book::{Book, BookFault, Coin};
use command_end::coin_text;
use fund_base::OutPoint;
use fund_shelf::SureShelf;
use row_columns::Answer;
use std::alloc::Global;
use wallet_text::Wallet;

/// Adds the blocks of the file, which stand after the wallet's height, up to the first fault of either kind.
fn add_blocks(
    alloc: Global,
    shelf: &mut SureShelf,
    wallet: &Wallet,
    book: &mut Book,
) -> Result<(), BookFault>
    ensures { book.new.pending ≡ book.old.pending }
{
    let mut feed = Feed::new(wallet.hash, wallet.height);
    for added in 0..u64::MAX {
        let Ok(Some(block)) = feed.next(alloc, shelf, FILE) else {
            return Ok(());
        };
        book.add_block(&block)?;
    }
    Ok(())
}

/// Adds the wallet's pending transactions, up to the first fault.
fn add_waiting(wallet: &Wallet, book: &mut Book) -> Result<(), BookFault>
    requires { book.old.pending ≡ [] }
{
    for tx in &wallet.pending {
        book.add_pending(tx)?;
    }
    Ok(())
}

/// Adds the blocks and the wallet's pending transactions, in this order or in the other, up to the first fault.
fn add_all(
    alloc: Global,
    shelf: &mut SureShelf,
    wallet: &Wallet,
    blocks_first: bool,
    book: &mut Book,
) -> Result<(), BookFault>
    requires { book.old.pending ≡ [] }
{
    if blocks_first {
        add_blocks(alloc, shelf, wallet, book)?;
        add_waiting(wallet, book)
    } else {
        add_waiting(wallet, book)?;
        add_blocks(alloc, shelf, wallet, book)
    }
}

/// Puts a height, or `none`.
fn put_height(out: &mut Answer, word: &str, height: Option<u32>) {
    match height {
        Some(height) => out.number(word, height as u64),
        None => {
            out.word(word);
            out.word("none");
        }
    }
}

/// Puts a coin with its figures, the height of its txid, and how many outputs its transaction has.
fn put_coin(out: &mut Answer, book: &Book, coin: &Coin) {
    out.words("coin ", coin_text(out.alloc, &coin.coin));
    out.number(" ", coin.value);
    out.number(" ", coin.weight);
    put_height(out, " ", coin.height);
    out.word(if coin.coinbase {
        " coinbase"
    } else {
        " payment"
    });
    put_height(out, " height ", book.height(&coin.coin.txid));
    let outputs = match book.parent(&coin.coin) {
        Some(tx) => tx.outputs.len(),
        None => 0,
    };
    out.number(" outputs ", outputs as u64);
    out.word("\n");
}

/// Puts what spends an outpoint, a line each.
fn put_spends(out: &mut Answer, book: &Book, point: &OutPoint) {
    for spend in book.spends(point) {
        put_shown(out, "spent by ", spend.txid.bytes());
        out.number(" ", spend.height as u64);
        out.number(" ", spend.place);
        out.word("\n");
    }
}

/// Puts the coins in order, each with what spends it.
fn put_coins(out: &mut Answer, book: &Book) {
    for place in 0..book.len() {
        if let Some(coin) = book.at(place) {
            put_coin(out, book, coin);
            put_spends(out, book, &coin.coin);
        }
    }
}

/// Puts the fault of a book by its name and its coin.
fn put_fault(out: &mut Answer, fault: BookFault) {
    match fault {
        BookFault::RepeatCoin(point) => {
            let coin = coin_text(out.alloc, &point);
            out.words("RepeatCoin ", coin);
        }
        BookFault::Full => out.word("Full"),
        BookFault::Memory => out.lack(),
    }
}

/// Puts the coins of a book to which all is added, or its fault.
fn put_filled(
    out: &mut Answer,
    shelf: &mut SureShelf,
    wallet: &Wallet,
    blocks_first: bool,
    book: &mut Book,
)
    requires { book.old.pending ≡ [] }
{
    match add_all(out.alloc, shelf, wallet, blocks_first, book) {
        Ok(()) => put_coins(out, book),
        Err(fault) => put_fault(out, fault),
    }
}

/// Puts the coins of the book of a wallet, to which its blocks are added before or after what waits.
pub(crate) fn put_book(out: &mut Answer, wallet: &Wallet, blocks: Vec<u8>, blocks_first: bool) {
    let Ok(files) = files_of(out.alloc, blocks) else {
        return out.lack();
    };
    let mut shelf = SureShelf::new(out.alloc, files);
    match Book::new(out.alloc, wallet) {
        Ok(mut book) => put_filled(out, &mut shelf, wallet, blocks_first, &mut book),
        Err(fault) => put_fault(out, fault),
    }
}
