//! Reading a block file whole.

use block_feed::{Feed, FeedFault};
use fund_shelf::{FileShelf, Shelf};
use row_columns::Answer;
use std::alloc::Global;

/// How many blocks were read, and how many transactions are in them.
#[derive(Clone, Copy)]
struct Counts {
    blocks: u64,
    txs: u64,
}

/// Reads the blocks of the file `name`, from 32 zero bytes and height 0 to its end, and counts them and their
/// transactions.
fn counts_of<H: Shelf>(alloc: Global, shelf: &mut H, name: &str) -> Result<Counts, FeedFault> {
    let mut feed = Feed::new([0; 32], 0);
    let mut txs: u64 = 0;
    for blocks in 0..u64::MAX {
        let Some(block) = feed.next_raw(alloc, shelf, name)? else {
            return Ok(Counts { blocks, txs });
        };
        txs = txs.saturating_add(block.txids().len() as u64);
    }
    let blocks = u64::MAX;
    Ok(Counts { blocks, txs })
}

/// Puts how many blocks and transactions a block file has, or that it has a fault.
pub(crate) fn read_blocks(rt: &HostRuntime, out: &mut Answer, name: &str) -> bool {
    match counts_of(out.alloc, &mut FileShelf::new(rt), name) {
        Ok(counts) => {
            out.number("", counts.blocks);
            out.number(" blocks, ", counts.txs);
            out.word(" transactions\n");
            true
        }
        Err(_) => {
            out.word("there is no such block file\n");
            false
        }
    }
}
