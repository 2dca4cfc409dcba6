//! What is known of any coin of a book, whether or not it may be spent; the coins that could be spent if some pending
//! payments had never been written down; and the pending payments above and below one.
#![tactic(auto)]

mod any_coin;
mod laws;
mod left_out;
mod pendings;

pub use any_coin::{coin_facts, facts_of_coins, known_fact, known_facts};
pub use laws::{finds_coins, left_out_as_never_written, listed_coins_have_prices};
pub use left_out::{confirmed_without, known_without};
pub use pendings::{pending_ancestors, pending_descendants};
