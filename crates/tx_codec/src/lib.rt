//! Bitcoin transactions as text: read exactly, written again, named by their txid and weighed.
#![tactic(auto)]

mod fault;
mod fault_laws;
mod hasher;
mod lent;
mod passing;
mod reading;
mod tx;
mod view;
mod writing;

pub use fault::TxFault;
pub use fault_laws::{faults_are_final, legacy_faults_are_final};
pub use lent::{OutPoints, Scripts};
pub use reading::{read_tx, read_whole_legacy_tx, read_whole_tx};
pub use tx::{Tx, TxIn, TxOut, Witness};
pub use view::{TxView, pass_tx};
pub use writing::{signals, txid, weight, write_bare_tx, write_tx, write_tx_out};
