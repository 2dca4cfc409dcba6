//! The keys file: for each script of a wallet the keys that sign for it, with their paths from a master key, and the scripts
//! that a signer needs beside it (BIP 32, BIP 174 and BIP 371). It is read exactly or refused with the first fault.
#![tactic(auto)]

mod entries;
mod fault;
mod judging;
mod key_paths;
mod keys;
mod laws;
mod paths;
mod reading;

pub use fault::KeysFault;
pub use keys::{KeyPath, Keys, ScriptKeys};
pub use laws::reads_paths;
pub use reading::read_keys;
