//! A desk's wallet, book and tip, as blocks and pending transactions arrive. Each is added as the desk's machine says; what
//! is refused changes nothing.
#![tactic(auto)]

mod chain;
mod pending_txids;
mod records;
mod waiting;

pub use pending_txids::PendingTxids;
pub use records::add_blocks;
pub use waiting::add_hex;
