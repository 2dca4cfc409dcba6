//! A block that was added to a book, of which the book keeps nothing.

ghost use Rattle.std.specs.Prelude.{◌≡◌};

use block_feed::{Block, RawBlock};
use std::marker::Model;
use std::snapshot::Snapshot;

/// Which of the two kinds of block it was.
#[derive(Drop)]
pub enum Kind {
    Lists(Snapshot<Block>),
    Bytes(Snapshot<RawBlock>),
}

/// A block that was added, which only clauses speak of.
#[derive(Drop)]
pub struct Added {
    kind: Kind,
}

impl Model for Added {
    ghost use Rattle.std.specs.declared.snapshot.Snapshot.{Snapshot};
    ghost use Rattle.block_feed.specs.Block.{ChainBlock};
    ghost use Rattle.coin_book.specs.Added.{added_as};

    ghost Value = { Snapshot ChainBlock };

    ghost view = { λ a. added_as a.kind };
}

impl Added {
    /// A block whose transactions are lists.
    pub fn lists(block: &Block) -> Added
        ensures { result.value ≡ block.now }
    {
        Added {
            kind: Kind::Lists(Snapshot::of(block)),
        }
    }

    /// A block whose transactions stay in its bytes.
    pub fn bytes(block: &RawBlock) -> Added
        ensures { result.value ≡ block.now }
    {
        Added {
            kind: Kind::Bytes(Snapshot::of(block)),
        }
    }
}
