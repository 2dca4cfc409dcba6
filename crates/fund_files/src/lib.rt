//! From files to values: the wallet file and the block file to the wallet, the book of its coins and where its chain
//! ends; the request file to the request; and each with the SHA-256 of the bytes that were read, where that is asked for. A
//! wallet that was made without files is held likewise.
#![tactic(auto)]

mod alone;
mod blocks;
mod booking;
mod chain;
mod digests;
mod files;
mod first_pass;
mod laws;
mod paid;
mod refusal;
mod stop;
mod wallet_book;
mod watched;
mod whole_chain;

pub use alone::chain_of_wallet;
pub use chain::{Chain, Tip};
pub use digests::{ChainDigests, read_asked_with_digest, read_chain_with_digests};
pub use files::{WALLET_LIMIT, read_asked, read_chain, read_whole_chain, wallet_from};
pub use laws::chains_are_due;
pub use refusal::{File, FileRefusal};
pub use stop::Stop;
pub use whole_chain::WholeChain;
