//! The book while a wallet and blocks are read.

ghost use Rattle.std.specs.Prelude.{◌≡◌, ◌≢◌, [], ◌∷◌, All, IfOk, None, OnErr, OnOk, Option, Some};
ghost use Rattle.tx_codec.specs.Transaction.{Transaction};
ghost use Rattle.tx_codec.specs.TransactionText.{IsTransaction};
ghost use Rattle.tx_codec.specs.Txid.{txid_of};
ghost use Rattle.coin_book.specs.History.{History, start_of, with_block, with_pending};
ghost use Rattle.coin_book.specs.Watched.{PlainWatched};
ghost use Rattle.wallet_text.specs.WalletRules.{AreDistinct};
ghost use Rattle.fund_files.specs.Booked.{CanWait, IfKept, IsBooked, Keeps};

use block_feed::RawBlock;
use coin_book::{Book, BookFault, Watched, Watching, first_fault_stays};
use fund_base::Memory;
use std::alloc::Global;
use tx_codec::Tx;
use wallet_text::Wallet;

/// The book of what was read, or what is wrong with that.
#[derive(Drop)]
pub enum Booked {
    /// A book that keeps all that its chain spends.
    Whole(Book),
    /// A book that keeps what is watched of its chain.
    Part(Watching),
    Broken(BookFault),
}

/// What the wallet's earlier transactions make, in a book that keeps all that its chain spends.
pub fn begin_whole(alloc: Global, wallet: &Wallet) -> Result<Booked, Memory>
    ensures booked { IfOk result (λ b. IsBooked b (start_of wallet.now)) }
    ensures keeps { IfOk result (Keeps None) }
{
    match Book::new(alloc, wallet) {
        Ok(book) => Ok(Booked::Whole(book)),
        Err(fault) => broken(fault),
    }
}

/// What the wallet's earlier transactions make, in a book that keeps what is watched of its chain.
pub fn begin_part(alloc: Global, wallet: &Wallet, watched: Watched) -> Result<Booked, Memory>
    ensures booked { IfOk result (λ b. IsBooked b (start_of wallet.now)) }
    ensures keeps { IfOk result (Keeps (Some watched)) }
{
    match Watching::new(alloc, wallet, watched) {
        Ok(book) => Ok(Booked::Part(book)),
        Err(fault) => broken(fault),
    }
}

/// A fault of the book; or out of memory, which is none, and which comes only where the book says so.
fn broken(fault: BookFault) -> Result<Booked, Memory>
    ensures fault { IfOk result (λ b. (fault ≢ BookFault.Memory) × (b ≡ Booked.Broken fault)) }
    ensures memory { OnErr result (fault ≡ BookFault.Memory) }
{
    match fault {
        BookFault::Memory => Err(Memory),
        _ => Ok(Booked::Broken(fault)),
    }
}

/// Adds one block more, whose transactions stay in its bytes, where no transaction waits yet.
pub fn add_block(booked: &mut Booked, block: &RawBlock) -> Result<(), Memory>
    requires { All IsTransaction block.now.txs }
    ensures booked { (h : History) → h.pending ≡ [] → IsBooked booked.old h → OnOk result (IsBooked booked.new (with_block h block.now)) }
    ensures keeps { (kept : Option PlainWatched) → Keeps kept booked.old → OnOk result (Keeps kept booked.new) }
{
    first_fault_stays();
    match booked {
        Booked::Whole(book) => {
            if let Err(fault) = book.add_raw(block) {
                *booked = broken(fault)?;
            }
        }
        Booked::Part(book) => {
            if let Err(fault) = book.add_raw(block) {
                *booked = broken(fault)?;
            }
        }
        Booked::Broken(_) => {}
    }
    Ok(())
}

/// Adds one waiting transaction more, whose txid none has that waits.
pub fn add_pending(booked: &mut Booked, tx: &Tx) -> Result<(), Memory>
    requires text { IsTransaction tx.now }
    requires fresh { IfKept booked.old (λ book. All (λ (t : Transaction). txid_of t ≢ txid_of tx.now) book.pending) }
    requires watched { CanWait booked.old (tx.now ∷ []) }
    ensures booked { (h : History) → IsBooked booked.old h → OnOk result (IsBooked booked.new (with_pending h tx.now)) }
    ensures keeps { (kept : Option PlainWatched) → Keeps kept booked.old → OnOk result (Keeps kept booked.new) }
{
    first_fault_stays();
    match booked {
        Booked::Whole(book) => {
            if let Err(fault) = book.add_pending(tx) {
                *booked = broken(fault)?;
            }
        }
        Booked::Part(book) => {
            if let Err(fault) = book.add_pending(tx) {
                *booked = broken(fault)?;
            }
        }
        Booked::Broken(_) => {}
    }
    Ok(())
}

/// What it makes with these waiting transactions, where none waits yet.
pub fn add_waiting(booked: Booked, pending: &[Tx]) -> Result<Booked, Memory>
    requires begun { (h : History) × (h.pending ≡ []) × IsBooked booked h }
    requires texts { All IsTransaction pending.now }
    requires distinct { AreDistinct pending.now }
    requires watched { CanWait booked pending.now }
    ensures booked { (h : History) → h.pending ≡ [] → IsBooked booked h → IfOk result (λ b. IsBooked b (record { scripts = h.scripts; confirmed = h.confirmed; pending = pending.now })) }
    ensures keeps { (kept : Option PlainWatched) → Keeps kept booked → IfOk result (Keeps kept) }
{
    let mut booked = booked;
    for tx in pending {
        add_pending(&mut booked, tx)?;
    }
    Ok(booked)
}
