//! The coins of a wallet in order of creation, the transactions that made them, and what confirmed transactions spend.
#![tactic(auto)]

mod added;
mod adding;
mod book;
mod coin;
mod coinbase;
mod earlier;
mod fault;
mod held;
mod known;
mod laws;
mod ledger;
mod lent;
mod making;
mod merging;
mod moving;
mod showing;
mod spends;
mod waiting;
mod wallet_book;
mod watched;
mod watching;

pub use book::Book;
pub use coin::{Coin, Spend};
pub use fault::BookFault;
pub use known::Known;
pub use laws::{
    coins_by_outputs, first_fault_stays, no_fault_without_repeats, order_of_calls,
    spends_by_inputs, tells_first_fault, watched_set_suffices,
};
pub use wallet_book::WalletBook;
pub use watched::Watched;
pub use watching::Watching;
