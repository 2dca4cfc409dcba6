//! The transaction of a PSBT whose inputs are all signed and made final, in version 0 (BIP 174) or 2 (BIP 370).
#![tactic(auto)]

mod extracting;
mod fault;
mod inputs;
mod maps;
mod stack;
mod strings;

pub use extracting::{read_signed, read_signed_text};
pub use fault::SignedFault;
