//! Block files read. The columns are the hash and the height of the block before the file, the sizes of the pieces in which it
//! is given, the number of the read that fails (`-` for none), and the file. A file of zero bytes alone has its length in the
//! place of the sizes.
//!
//! - `each`: each block with its height, its hash and the txids of its transactions, what comes after them, and what the next
//!   call gives
//! - `fails`: the same where the read of each number fails in turn and the call is made again; or the first that gives something
//!   else
//! - `weights`: the txid and the weight of each transaction of the first block
//! - `digest`: the digest that a feed has of the file at its end
//! - `blank`: what the first call gives of a file of zero bytes alone

use crate::pieces::Pieces;
use crate::shown::{put_fault, put_shown};
use block_feed::{Block, Feed, FeedFault};
use command_end::feed_fault_parts;
use fund_base::Memory;
use fund_shelf::MemShelf;
use row_columns::{Answer, bytes_in, column, hash_in, number_within, short_in};
use std::alloc::Global;
use tx_codec::{txid, weight};

/// The name of the block file.
pub(crate) const FILE: &str = "blocks";

/// A feed and the shelf on which its file lies.
struct Source {
    feed: Feed,
    shelf: Pieces,
    // whether a call whose read failed is made again
    again: bool,
}

/// One call, wherever it is dropped.
impl Drop for Source {
    fn drop(self) {
        let Source {
            feed: _,
            shelf: _,
            again: _,
        } = self;
    }
}

impl Source {
    /// What the next call gives. Where a read failed the call is made again, once in all.
    fn next(&mut self, alloc: Global) -> Result<Option<Block>, FeedFault> {
        match self.feed.next(alloc, &mut self.shelf, FILE) {
            Err(FeedFault::Read) if self.again => {
                self.again = false;
                self.feed.next(alloc, &mut self.shelf, FILE)
            }
            given => given,
        }
    }
}

/// The numbers of a column, with commas between them.
fn sizes(alloc: Global, column: &str) -> Result<Vec<usize>, Memory> {
    let mut sizes = Vec::new(alloc);
    for size in column.split(',') {
        sizes.push(short_in(size) as usize)?;
    }
    Ok(sizes)
}

/// The block file of these bytes alone.
pub(crate) fn files_of(alloc: Global, bytes: Vec<u8>) -> Result<Vec<(String, Vec<u8>)>, Memory> {
    let mut files = Vec::new(alloc);
    files.push((String::from_str(alloc, FILE)?, bytes))?;
    Ok(files)
}

/// A feed of the columns' file, of which the read of this number fails.
fn source_of(alloc: Global, columns: &[&str], fails: u64) -> Result<Source, Memory> {
    let sizes = sizes(alloc, column(columns, 2))?;
    let fails = Vec::from_slice(alloc, &[fails])?;
    let files = files_of(alloc, bytes_in(alloc, column(columns, 4)))?;
    let shelf = Pieces {
        shelf: MemShelf::new(alloc, files, fails, Vec::new(alloc)),
        sizes,
        turn: 0,
        zeros: 0,
    };
    let feed = Feed::new(hash_in(column(columns, 0)), short_in(column(columns, 1)));
    Ok(Source {
        feed,
        shelf,
        again: false,
    })
}

/// Puts a block with its height, its hash and the txids of its transactions.
fn put_block(out: &mut Answer, block: &Block) {
    out.number("block ", block.height as u64);
    put_shown(out, " ", &block.hash);
    for txid in block.txids() {
        put_shown(out, " ", txid.bytes());
    }
}

/// Puts what the next call gives: a block, the end or a fault. Tells whether it is a block.
fn put_next(out: &mut Answer, source: &mut Source) -> bool {
    match source.next(out.alloc) {
        Ok(Some(block)) => {
            put_block(out, &block);
            return true;
        }
        Ok(None) => out.word("none"),
        Err(fault) => put_fault(out, "fault ", &feed_fault_parts(&fault)),
    }
    false
}

/// Puts each block, what comes after them, and what the next call gives.
fn put_each(out: &mut Answer, source: &mut Source) {
    for _ in 0..u64::MAX {
        let is_block = put_next(out, source);
        out.word("; ");
        if !is_block {
            break;
        }
    }
    put_next(out, source);
}

/// What is put of the file where the read of this number fails and the call is made again, and whether none failed.
fn told(alloc: Global, columns: &[&str], fails: u64) -> Result<(Answer, bool), Memory> {
    let mut source = source_of(alloc, columns, fails)?;
    source.again = true;
    let mut told = Answer::new(alloc);
    put_each(&mut told, &mut source);
    Ok((told, source.again))
}

/// The number of the first read that changes what is put where it fails; none where there is no such read.
fn changing(alloc: Global, columns: &[&str], sure: &[u8]) -> Result<Option<u64>, Memory> {
    for number in 0..u64::MAX {
        let (mut told, is_sure) = told(alloc, columns, number)?;
        if told.lines()? != sure {
            return Ok(Some(number));
        }
        if is_sure {
            break;
        }
    }
    Ok(None)
}

fn fails(out: &mut Answer, columns: &[&str]) -> Result<(), Memory> {
    let (mut sure, _) = told(out.alloc, columns, u64::MAX)?;
    let sure = sure.lines()?;
    match changing(out.alloc, columns, sure)? {
        Some(number) => out.number("changed by read ", number),
        None => out.put(sure),
    }
    Ok(())
}

/// Puts the txid and the weight of each transaction of a block.
fn put_weights(out: &mut Answer, block: &Block) {
    out.number("block ", block.height as u64);
    for tx in &block.txs {
        put_shown(out, " ", txid(tx).bytes());
        out.number(" ", weight(tx));
    }
}

/// Puts the weights of the next block.
fn weights(out: &mut Answer, source: &mut Source) {
    match source.next(out.alloc) {
        Ok(Some(block)) => put_weights(out, &block),
        _ => out.word("no block"),
    }
}

/// Reads on to the end, or to the first fault.
fn read_on(alloc: Global, source: &mut Source) {
    for _ in 0..u64::MAX {
        match source.next(alloc) {
            Ok(Some(_)) => {}
            _ => return,
        }
    }
}

/// Puts the digest that the feed has of its file at the end; none after a fault.
fn digest(out: &mut Answer, source: &mut Source, columns: &[&str]) {
    let hash = hash_in(column(columns, 0));
    source.feed = Feed::with_digest(hash, short_in(column(columns, 1)));
    read_on(out.alloc, source);
    match source.feed.digest() {
        Some(digest) => out.digits("", &digest),
        None => out.word("no digest"),
    }
}

/// Puts what a verb asks for.
fn put_verb(out: &mut Answer, source: &mut Source, verb: &str, columns: &[&str]) {
    match verb {
        "each" => put_each(out, source),
        "weights" => weights(out, source),
        "digest" => digest(out, source, columns),
        "blank" => {
            source.shelf.zeros = number_within(column(columns, 2), u64::MAX);
            put_next(out, source);
        }
        _ => out.word("no such verb"),
    }
}

/// Answers a row. The error is out of memory.
fn answer(out: &mut Answer, verb: &str, columns: &[&str]) -> Result<(), Memory> {
    if verb == "fails" {
        return fails(out, columns);
    }
    let fails = match column(columns, 3) {
        "-" => u64::MAX,
        number => number_within(number, u64::MAX),
    };
    let mut source = source_of(out.alloc, columns, fails)?;
    put_verb(out, &mut source, verb, columns);
    Ok(())
}

pub(crate) fn row(out: &mut Answer, verb: &str, columns: &[&str]) {
    if answer(out, verb, columns).is_err() {
        out.lack();
    }
}
