//! Addresses of witness programs on Bitcoin's main network, in bech32 and bech32m: read into scripts, and written
//! (BIP 173 and BIP 350).
#![tactic(auto)]

mod bech32;
mod decoding;
mod encoding;
mod fault;
mod laws;
mod program;

pub use decoding::decode;
pub use encoding::encode;
pub use fault::AddrFault;
pub use laws::{
    addresses_are_unique, addresses_check, checksums_are_unique, judges_texts, programs_regroup,
};
