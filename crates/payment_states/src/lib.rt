//! The states of a wallet's pending payments, and the coins that it may spend. Both follow from the book of its coins
//! and from the whole of the wallet's own lists.
#![tactic(auto)]

mod abandoned;
mod ancestry;
mod candidate;
mod claims;
mod conflicts;
mod counts;
mod graph;
mod laws;
mod own_coins;
mod pending_facts;
mod prices;
mod replaced;
mod spans;
mod spendable;
mod state;
mod states;
mod words;

pub use abandoned::listed;
pub use ancestry::Parents;
pub use candidate::described;
pub use claims::{SpokenFor, kept, pending_of, spoken_for};
pub use counts::{count_at, mark_kin};
pub use graph::graph_of;
pub use laws::{
    candidates_by_rules, candidates_have_makers, coins_have_prices, coins_pay_for_packages,
    counts_by_ways, finds_states, packages_pay_the_rate, parents_by_inputs, pending_stands_clear,
    prices_cover_ancestors, prices_raise_ancestors, reaches_by_steps, safe_by_parents,
    states_by_causes,
};
pub use own_coins::{Standing, amount_at, flag_at, number_at};
pub use pending_facts::{Facts, facts_of};
pub use prices::prices_of;
pub use spendable::{candidates, is_deep, known_candidates, may_be_spent};
pub use state::{Payment, State};
pub use states::{States, all_states, known_states, states_of};
