//! The sentences of faults of a block file.

ghost use Rattle.std.specs.Prelude.{◌≡◌};
ghost use Rattle.fault_lines.specs.Sentences.{blocks_sentence};

use crate::stop::{Stop, stop_sentence};
use block_feed::FeedFault;

/// What to do about a block file that is refused: the sentence of each fault.
#[tactic(auto, unfolding(crate::specs::Sentences::blocks_sentence))]
pub fn blocks_sentence(fault: &FeedFault) -> &'static str
    ensures { result.now ≡ blocks_sentence fault.now }
{
    match fault {
        FeedFault::Magic(_) =>
            "The block file has no record of a main network block at this place: it must hold whole records, each with magic f9beb4d9 and length before it.",
        FeedFault::Length(_) =>
            "The block file was cut off at this place, or a length in it is wrong: copy it again.",
        FeedFault::Tx(_, _) =>
            "A transaction of the block at this height can not be read: the block file was changed, so copy the block again.",
        FeedFault::Merkle(_) =>
            "The transactions of the block at this height are not those that its header names: copy the block again.",
        FeedFault::Mutated(_) =>
            "The block at this height has transactions twice and is no block of the chain: copy the block again.",
        FeedFault::NotLinked(_, _) =>
            "A block does not follow the one before it: blocks are missing, twice or out of order, or hash is not that of the last block before the file.",
        FeedFault::Trailing(_) =>
            "Bytes stand behind the last transaction of the block at this height: copy the block again.",
        FeedFault::Empty(_) => "The block at this height has no transaction: copy the block again.",
        FeedFault::Read => stop_sentence(Stop::Read),
        FeedFault::Limit => stop_sentence(Stop::BlocksLimit),
        FeedFault::Memory => stop_sentence(Stop::Memory),
    }
}
