//! What a desk replies.

use block_feed::FeedFault;
use closing_log::Mark;
use coin_book::BookFault;
use fund_base::{OutPoint, Txid};
use fund_steps::PlanFault;
use request_text::RequestFault;
use tx_codec::TxFault;

/// Why a request, blocks or a pending transaction are refused.
#[derive(Drop)]
pub enum Refusal {
    /// The request file isn't one: its first fault.
    Request(RequestFault),
    /// The request replaces a payment, which no job of a desk does.
    Bump,
    /// No plan is made for the request.
    Plan(PlanFault),
    /// The bytes aren't blocks behind the tip: their first fault. It is never `Read` or `Limit`.
    Feed(FeedFault),
    /// With this block or this transaction no book holds the coins.
    Book(BookFault),
    /// The digits aren't an even number of hex digits.
    Kind,
    /// The bytes aren't a transaction: their first fault.
    Tx(TxFault),
    /// A transaction of the same txid waits already.
    Repeat,
    /// The transaction, or one that waits, spends an output of it.
    ParentLater,
}

/// The reply to a command. Unless it says otherwise the desk is as before.
#[derive(Drop)]
pub enum Reply {
    /// A job of this name is open.
    TakenName,
    /// 64 jobs are open.
    Full,
    /// The request, the blocks or the transaction are refused. Of blocks, those before the refused one are added.
    Refused(Refusal),
    /// The job is open, with the coins that may be spent now, but for those of committed payments.
    Opened,
    /// No job of this name is open.
    NoJob,
    /// The job is unfinished, and has made 10,000,000 tries. The answer of its last turn stays.
    Spent,
    /// The job is unfinished after so many tries, all of its turns together.
    Unfinished(u64),
    /// No coins pay what is asked; the job has made so many tries.
    NoSelection(u64),
    /// A payment was found; the job has made so many tries.
    Funded(Mark, u64),
    /// The last turn of the job, if it had one, came to no payment.
    NotFunded,
    /// This coin of the payment can't be spent any more. It is the first such.
    Taken(OutPoint),
    /// The payment is committed: the txid of its unsigned transaction, and the bytes of its PSBT, in version 0 (BIP 174) or 2
    /// (BIP 370) as the request of its job asks. Its job is closed.
    Committed(Txid, Vec<u8>),
    /// The job is closed.
    Closed,
    /// No committed payment has this txid.
    NotCommitted,
    /// The coins of the committed payments of this txid may be spent again.
    Released,
    /// The blocks are added; the height and the hash of the last block of the chain.
    Tip(u32, [u8; 32]),
    /// The transaction of this txid waits, behind all others that do.
    Seen(Txid),
    /// There was not enough memory. The desk is as before, but that the job of a turn has made some of its tries, and that
    /// some of the blocks are added.
    Memory,
}
