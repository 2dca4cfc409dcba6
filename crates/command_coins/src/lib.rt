//! The command that lists the pending payments of a wallet and the coins that may be spent: what its files come to, the text
//! of the listing, how the command ends, and the law of that.
#![tactic(auto)]

mod chain_listing;
mod command;
mod laws;
mod lines;
mod text;

pub use command::coins;
pub use laws::listings_are_due;
pub use text::listing;
