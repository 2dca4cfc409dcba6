//! The words of a block file's faults.

ghost use Rattle.std.specs.Prelude.{◌≡◌, option_copied};
ghost use Rattle.fault_lines.specs.Lines.{blocks_line};

use crate::blocks_sentences::blocks_sentence;
use crate::word::begins;
use block_feed::FeedFault;
use tx_codec::TxFault;

/// The sentence of a block file's fault, by its words. None where it has none.
#[tactic(auto, unfolding(crate::specs::Lines::blocks_line))]
pub fn blocks_line(words: &[u8]) -> Option<&'static str>
    ensures { option_copied result ≡ blocks_line words.now }
{
    if begins(words, b"Magic ") {
        Some(blocks_sentence(&FeedFault::Magic(0)))
    } else if begins(words, b"Length ") {
        Some(blocks_sentence(&FeedFault::Length(0)))
    } else if begins(words, b"Tx ") {
        Some(blocks_sentence(&FeedFault::Tx(0, TxFault::NoInputs)))
    } else if begins(words, b"Merkle ") {
        Some(blocks_sentence(&FeedFault::Merkle(0)))
    } else if begins(words, b"Mutated ") {
        Some(blocks_sentence(&FeedFault::Mutated(0)))
    } else if begins(words, b"NotLinked ") {
        Some(blocks_sentence(&FeedFault::NotLinked([0; 32], [0; 32])))
    } else if begins(words, b"Trailing ") {
        Some(blocks_sentence(&FeedFault::Trailing(0)))
    } else if begins(words, b"Empty ") {
        Some(blocks_sentence(&FeedFault::Empty(0)))
    } else if begins(words, b"Read") {
        Some(blocks_sentence(&FeedFault::Read))
    } else if begins(words, b"Limit") {
        Some(blocks_sentence(&FeedFault::Limit))
    } else if begins(words, b"Memory") {
        Some(blocks_sentence(&FeedFault::Memory))
    } else {
        None
    }
}
