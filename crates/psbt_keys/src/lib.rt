//! Key paths and scripts added to a PSBT, in version 0 (BIP 174) or 2 (BIP 370), so that a hardware signer finds its keys in
//! each input and knows its own outputs.
#![tactic(auto)]

mod adding;
mod due;
mod fault;
mod laws;
mod maps;
mod pairs;
mod placing;

pub use adding::add_keys;
pub use fault::KeyFault;
pub use laws::adds_once;
