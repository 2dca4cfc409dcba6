//! The wallet file: the scripts that a wallet watches, the transactions that it knows, and what it leaves alone, read
//! exactly or refused with the first fault.
#![tactic(auto)]

mod entries;
mod fault;
mod laws;
mod lists;
mod reading;
mod seen;
mod wallet;

pub use fault::WalletFault;
pub use laws::{judges_entries, judges_lists, judges_scripts, judges_transactions, reads_members};
pub use lists::judge_earlier;
pub use reading::read_wallet;
pub use wallet::{Earlier, Wallet, Watch};
