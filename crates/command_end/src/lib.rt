//! How commands end: their statuses, the fault lines of what is refused and of what fails, and the order in which a log is
//! written and a report is printed. Each command stands on this; it knows none of them.
//!
//! The words of a fault are a pure function of it: its variant's name and its fields, each after one blank, and a fault within a
//! fault likewise. They are made in parts, which borrow what they show, and are put part by part, so that no line of a fault
//! takes memory.
#![tactic(auto)]

mod address_words;
mod block_words;
mod bump_words;
mod chain_stop;
mod coin_words;
mod log_words;
mod name_words;
mod names;
mod output;
mod parts;
mod plan_words;
mod psbt_words;
mod putting;
mod refusals;
mod request_words;
mod status;
mod transaction_words;
mod wallet_words;
mod word_laws;

pub use address_words::address_fault_word;
pub use block_words::feed_fault_parts;
pub use bump_words::bump_fault_parts;
pub use chain_stop::refuse_chain;
pub use coin_words::{coin_text, shown_hash};
pub use log_words::log_fault_part;
pub use name_words::shown_name;
pub use names::Sources;
pub use output::{finish, out_of_memory, put_fault, put_line, put_report, refuse_keep};
pub use parts::{Part, words_of};
pub use plan_words::plan_fault_parts;
pub use psbt_words::psbt_fault_parts;
pub use refusals::{refuse_file, refuse_read};
pub use request_words::request_fault_parts;
pub use status::Status;
pub use transaction_words::tx_fault_part;
pub use wallet_words::wallet_fault_parts;
pub use word_laws::{coins_are_told_apart, names_are_told_apart};
