//! The commands beside funding a payment and going on with one, as one: which of them is meant, what its files come to, and what is
//! true of how it ends. Each command is a crate.
#![tactic(auto)]

mod command;

pub use command::{FurtherCommand, act};
