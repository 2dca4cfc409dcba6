//! The wallet's chain, as blocks and pending transactions are added to it.

ghost use Rattle.std.specs.Prelude.{◌≡◌, ◌<◌, ◌++◌, ◌∷◌, [], List, All, OnErr, OnOk, bytes_eq, false};
ghost use Rattle.coin_book.specs.Faults.{Answers};
ghost use Rattle.coin_book.specs.History as histories;
ghost use Rattle.fund_files.specs.Chain.{IsChain};
ghost use Rattle.tx_codec.specs.Transaction.{Transaction};
ghost use Rattle.tx_codec.specs.TransactionText.{IsTransaction};
ghost use Rattle.tx_codec.specs.Txid.{txid_of};
ghost use Rattle.desk_machine.specs.Machine.{is_later, is_repeat, spends_txid, waiting, with_block, with_pending};
ghost use Rattle.desk_chain.specs.PendingTxids.{AreTxidsOf};

use crate::pending_txids::PendingTxids;
use block_feed::Block;
use coin_book::{Book, BookFault};
use fund_base::Txid;
use fund_files::{Tip, WholeChain};
use tx_codec::{Tx, TxIn};
use wallet_text::Wallet;

/// Adds a block behind the tip. The fault is that of the book; the chain is then as before.
pub fn add_block(held: &mut WholeChain, block: &Block) -> Result<(), BookFault>
    requires held { IsChain held.old }
    requires texts { All IsTransaction block.now.txs }
    requires height { block.now.height < 4294967295 }
    ensures added { OnOk result (held.new ≡ with_block held.old block.now) }
    ensures held { IsChain held.new }
    ensures exact { Answers result (histories.with_block held.old.book block.now) }
    ensures kept { OnErr result (held.new ≡ held.old) }
{
    match held.book.add_block(block) {
        Ok(()) => {
            held.tip = Tip {
                height: block.height,
                hash: block.hash,
            };
            Ok(())
        }
        Err(fault) => Err(fault),
    }
}

/// Whether the input spends an output of the transaction of this txid.
fn spends(input: &TxIn, id: &Txid) -> bool
    ensures { result ≡ bytes_eq input.now.prev.txid id.now }
{
    input.prev.txid == *id
}

/// Whether the transaction spends an output of the one of this txid.
fn spends_txid(tx: &Tx, id: &Txid) -> bool
    ensures { result ≡ spends_txid id.now tx.now }
{
    tx.inputs.iter().any(|input| spends(input, id))
}

/// Whether the transaction, which has this txid, or one that waits spends an output of it.
pub fn is_later(txids: &PendingTxids, tx: &Tx, id: &Txid) -> bool
    requires { id.now ≡ txid_of tx.now }
    ensures { (pending : List Transaction) → AreTxidsOf pending txids.now → result ≡ is_later pending tx.now }
{
    txids.is_parent(id) || spends_txid(tx, id)
}

/// Adds a transaction of this txid behind those of the wallet that wait, to the book, and to the txids of those. None that
/// waits has its txid, and neither one of them nor itself spends an output of it. The fault is that of the book; nothing is
/// then added.
fn add_waiting(
    wallet: &mut Wallet,
    book: &mut Book,
    txids: &mut PendingTxids,
    tx: Tx,
    id: Txid,
) -> Result<(), BookFault>
    requires text { IsTransaction tx }
    requires id { id ≡ txid_of tx }
    requires txids { AreTxidsOf wallet.old.pending txids.old }
    requires fresh { is_repeat wallet.old.pending (txid_of tx) ≡ false }
    requires first { is_later wallet.old.pending tx ≡ false }
    requires same { book.old.pending ≡ wallet.old.pending }
    ensures wallet { OnOk result (wallet.new ≡ waiting wallet.old tx) }
    ensures book { OnOk result (book.new ≡ histories.with_pending book.old tx) }
    ensures exact { Answers result (histories.with_pending book.old tx) }
    ensures kept_wallet { OnErr result (wallet.new ≡ wallet.old) }
    ensures kept_book { OnErr result (book.new ≡ book.old) }
    ensures txids { OnOk result (AreTxidsOf (wallet.old.pending ++ tx ∷ []) txids.new) }
    ensures kept_txids { OnErr result (AreTxidsOf wallet.old.pending txids.new) }
{
    wallet.pending.reserve(1)?;
    txids.reserve(&tx)?;
    match book.add_pending(&tx) {
        Ok(()) => {}
        Err(fault) => return Err(fault),
    }
    // there is room for this one
    let _ = txids.add(&tx, id);
    let _ = wallet.pending.push(tx);
    Ok(())
}

/// Adds a transaction of this txid behind those that wait, and to the txids of those. None of them has its txid, and neither
/// one of them nor itself spends an output of it. The fault is that of the book; the chain is then as before.
pub fn add_pending(
    held: &mut WholeChain,
    txids: &mut PendingTxids,
    tx: Tx,
    id: Txid,
) -> Result<(), BookFault>
    requires held { IsChain held.old }
    requires text { IsTransaction tx }
    requires id { id ≡ txid_of tx }
    requires txids { AreTxidsOf held.old.wallet.pending txids.old }
    requires fresh { is_repeat held.old.wallet.pending (txid_of tx) ≡ false }
    requires first { is_later held.old.wallet.pending tx ≡ false }
    ensures added { OnOk result (held.new ≡ with_pending held.old tx) }
    ensures held { IsChain held.new }
    ensures exact { Answers result (histories.with_pending held.old.book tx) }
    ensures kept { OnErr result (held.new ≡ held.old) }
    ensures txids { AreTxidsOf held.new.wallet.pending txids.new }
{
    add_waiting(&mut held.wallet, &mut held.book, txids, tx, id)
}
