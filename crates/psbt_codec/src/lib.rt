//! Partially signed Bitcoin transactions in version 0 (BIP 174) and 2 (BIP 370), as bytes and as base64 text.
#![tactic(auto)]

mod counts;
mod fault;
mod fault_laws;
mod field_writing;
mod fields;
mod known;
mod pair_writing;
mod pairs;
mod psbt;
mod reading;
mod text;
mod values;
mod writing;

pub use fault::PsbtFault;
pub use fault_laws::faults_are_final;
pub use psbt::{Psbt, Spent, Versioned};
pub use reading::{read_psbt, read_versioned};
pub use text::{from_text, read_text, to_text, write_text};
pub use writing::{versions_tell_the_same, write_psbt};
