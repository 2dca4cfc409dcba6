//! The blocks of a command, added one by one.

ghost use Rattle.std.specs.Prelude.{ℕ, ◌≡◌, ◌≢◌, ◌≤◌, IfOk, OnErr, OnOk, None, codes, length, take};
ghost use Rattle.fund_shelf.specs.SureShelf.{view_of};
ghost use Rattle.fund_files.specs.Chain.{IsChain};
ghost use Rattle.desk_machine.specs.Machine.{add_blocks, add_records, records_at};
ghost use Rattle.desk_machine.specs.Replies.{BadBlocks, BadBook, IsOfBytes, Refused, plain_reply};

use crate::chain::add_block;
use block_feed::{Feed, FeedFault};
use coin_book::BookFault;
use desk_machine::{Refusal, Reply};
use fund_base::Memory;
use fund_files::WholeChain;
use fund_shelf::SureShelf;
use std::alloc::Global;

/// The name of the one file of the bytes of a command.
const NAME: &str = "blocks";

/// The bytes as a file in memory. The error is out of memory.
fn shelf_of(alloc: Global, bytes: &[u8]) -> Result<SureShelf, Memory>
    ensures { IfOk result (λ s. (view_of s).files (codes "blocks") ≡ bytes.now) }
{
    let name = String::from_str(alloc, NAME)?;
    let bytes = Vec::from_slice(alloc, bytes)?;
    let mut files = Vec::new(alloc);
    files.push((name, bytes))?;
    Ok(SureShelf::new(alloc, files))
}

/// The reply to a fault of the bytes. The error is out of memory.
fn refuse_bytes(fault: FeedFault) -> Result<Reply, Memory>
    ensures reply { IfOk result (λ r. (fault ≢ FeedFault.Memory) × (plain_reply r ≡ Refused (BadBlocks fault))) }
    ensures memory { OnErr result (fault ≡ FeedFault.Memory) }
{
    match fault {
        FeedFault::Memory => Err(Memory),
        fault => Ok(Reply::Refused(Refusal::Feed(fault))),
    }
}

/// The reply to a fault of the book. The error is out of memory.
pub fn refuse_book(fault: BookFault) -> Result<Reply, Memory>
    ensures reply { IfOk result (λ r. (fault ≢ BookFault.Memory) × (plain_reply r ≡ Refused (BadBook fault))) }
    ensures memory { OnErr result (fault ≡ BookFault.Memory) }
{
    match fault {
        BookFault::Memory => Err(Memory),
        fault => Ok(Reply::Refused(Refusal::Book(fault))),
    }
}

/// Reads the blocks of these bytes one by one behind the tip, and adds each to the chain. The first that is refused, by the
/// fault of its record or by the book, gives the reply, and those before it are kept. The error is out of memory: some of
/// the blocks are then added.
pub fn add_blocks(alloc: Global, held: &mut WholeChain, bytes: &[u8]) -> Result<Reply, Memory>
    requires held { IsChain held.old }
    requires fits { length bytes.now ≤ 67_108_864 }
    ensures reply { IfOk result (λ r. plain_reply r ≡ (add_records held.old (records_at held.old bytes.now)).reply) }
    ensures next { OnOk result (held.new ≡ (add_records held.old (records_at held.old bytes.now)).held) }
    ensures held { IsChain held.new }
    ensures wallet { held.new.wallet ≡ held.old.wallet }
    ensures own { IfOk result (λ r. IsOfBytes (plain_reply r)) }
    ensures memory { OnErr result ((n : ℕ) × (held.new ≡ (add_blocks held.old (take n (records_at held.old bytes.now).blocks) None).held)) }
{
    let mut shelf = shelf_of(alloc, bytes)?;
    let mut feed = Feed::new(held.tip.hash, held.tip.height);
    'reading: loop {
        let block = match feed.next(alloc, &mut shelf, NAME) {
            Ok(Some(block)) => block,
            Ok(None) => return Ok(Reply::Tip(held.tip.height, held.tip.hash)),
            Err(fault) => return refuse_bytes(fault),
        };
        match add_block(held, &block) {
            Ok(()) => {}
            Err(fault) => return refuse_book(fault),
        }
    }
}
