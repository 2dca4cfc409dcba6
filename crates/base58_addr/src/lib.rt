//! Addresses of public key hashes and script hashes on Bitcoin's main network, in base58check: read into scripts, and
//! written (BIP 13, and the Bitcoin developer reference, 'Base58Check').
#![tactic(auto)]

mod base58;
mod decoding;
mod encoding;
mod fault;
mod laws;
mod number;

pub use base58::other_letter;
pub use decoding::decode;
pub use encoding::encode;
pub use fault::Base58Fault;
pub use laws::{addresses_are_unique, judges_texts, rows_rebase};
