//! The blocks of a block file, one after the other: each linked to the one before it, with the Merkle
//! root of its transactions.
#![tactic(auto)]

mod block;
mod digest;
mod fault;
mod feed;
mod laws;
mod merkle;
mod parts;
mod reading;
mod records;
mod tail;
mod views;

pub use block::{Block, RawBlock};
pub use fault::FeedFault;
pub use feed::Feed;
pub use laws::{blocks_are, digests_files, gives_blocks, judges_records};
pub use views::TxViews;
